//! What a writer of blocks sees of a session over shared rows.
ghost use Rattle.expr_reader.specs.NameLists.{as_names, AreNames-as_names};
ghost use Rattle.session.specs.Sessions.{value_of};
ghost use Rattle.session.specs.Views.{block_value};

use crate::sessions::{Session, SessionView};
use parts::{Part, Ring};
use printer::BlockView;
use ps_model::{NameView, Root};
use rows::RowWriter;
use stages::StageItem;

impl NameView for Session<RowWriter<StageItem>> {
    ghost names = { λ s. as_names s.job.names };

    ghost are_names = { λ s. AreNames-as_names s.job.names };

    fn name(&self, i: u32) -> &str {
        self.job().names().name(i)
    }
}

impl BlockView for Session<RowWriter<StageItem>> {
    ghost value = { λ s. value_of (⟦<Session<RowWriter<StageItem>> as SessionView>⟧.state s) };

    ghost lawful = { λ s.
        let view = ⟦<Session<RowWriter<StageItem>> as SessionView>⟧ in
        block_value (view.state s) (view.holds s) (view.fits s) };

    fn ring(&self) -> Ring {
        Session::ring(self)
    }

    fn factors(&self) -> u32 {
        self.roots()
    }

    fn known(&self) -> Option<u32> {
        Session::known(self)
    }

    fn root(&self, i: u32) -> Root {
        self.job().data().roots.as_slice()[i as usize]
    }

    fn part(&self, i: u32, power: u32, r: u32) -> &Part {
        self.factor_part(i, power, r)
    }

    fn has_lead(&self) -> bool {
        Session::has_lead(self)
    }

    fn lead_part(&self, r: u32) -> &Part {
        Session::lead_part(self, r)
    }
}
