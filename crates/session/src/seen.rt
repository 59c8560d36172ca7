//! What is seen of rows, as a writer of blocks sees it.
ghost use Rattle.std.specs.Prelude.{◌≡◌, ◌≢◌, ℕ, ◌+◌, ◌<◌, ◌≤◌, ◌↔◌, IsTrue, length, IfOk, slice_index_or};
ghost use Rattle.std.specs.Arc.{arc_value};
ghost use Rattle.ps_model.specs.AcceptedJob.{IsAccepted};
ghost use Rattle.ps_model.specs.Job.{job_ring};
ghost use Rattle.ps_model.specs.Lead.{IsLeadShown};
ghost use Rattle.parts.specs.JobRows.{IsRingOf};
ghost use Rattle.parts.specs.RowsOfParts.{parts_of};
ghost use Rattle.stages.specs.Items.{IsItem};
ghost use Rattle.stages.specs.States.{StageState};
ghost use Rattle.expr_reader.specs.NameLists.{as_names, AreNames-as_names};
ghost use Rattle.printer.specs.View.{HasUpTo, Reaches};
ghost use Rattle.session.specs.Leads.{AreLeadParts};
ghost use Rattle.session.specs.Seen.{IsLevel, KeepsSeen};
ghost use Rattle.session.specs.SeenBy.{seen_by};
ghost use Rattle.session.specs.Sessions.{value_of};
ghost use Rattle.session.specs.Views.{block_value};

use crate::precision::greatest_permitted;
use crate::seen_rows::SeenRows;
use expr_reader::Names;
use parts::{Part, Ring};
use printer::BlockView;
use ps_model::{JobData, NameView, OutOfMemory, Root};
use rows::RowOut;
use stages::{StageItem, empty_rows};
use std::alloc::Global;
use std::sync::Arc;

impl<'a> SeenRows<'a> {
    /// Rows of the job of which nothing was seen. It takes the memory of all items that may be seen.
    pub fn new(
        alloc: Global,
        names: Names,
        job: Arc<JobData>,
        ring: Ring,
        shows_lead: bool,
        lead: &'a Vec<Arc<Part>>,
    ) -> Result<SeenRows<'a>, OutOfMemory>
        requires accepted { IsAccepted (arc_value job) }
        requires names { (arc_value job).n ≤ length (as_names names) }
        requires ring { IsRingOf ring (arc_value job) }
        requires shown { IsTrue shows_lead ↔ IsLeadShown (job_ring (arc_value job)) (arc_value job).expr }
        requires lead { AreLeadParts (arc_value job) (parts_of lead.now.items) }
        requires few { length (parts_of lead.now.items) ≤ 4096 }
        ensures job { IfOk result (λ s. (seen_by s).job
            ≡ record { names = names; job = arc_value job }) }
        ensures lead { IfOk result (λ s. (seen_by s).lead
            ≡ parts_of lead.now.items) }
        ensures level { IfOk result (λ s. IsLevel 0 (seen_by s)) }
    {
        let capacity = greatest_permitted(ring) + 1;
        let rows = empty_rows(alloc, &job, capacity)?;
        Ok(SeenRows {
            names,
            job,
            ring,
            shows_lead,
            lead,
            rows,
        })
    }

    /// The greatest degree that each row and the lead have; None where one of these is empty.
    fn known_to(&self) -> Option<u32>
        ensures { (d : ℕ) →
            Reaches result d ↔ HasUpTo (value_of (seen_by self.now)) d }
    {
        let mut least = self.lead.len() as u32;
        for i in 0..self.rows.len() {
            least = least.min(self.rows[i].len());
        }
        least.checked_sub(1)
    }

    /// Takes in the next item of row `i`. It takes no memory.
    pub fn put(&mut self, i: u32, item: Arc<StageItem>)
        requires row { i < length (seen_by self.old).stages }
        requires room { (d : StageState) →
            let stages = (seen_by self.old).stages in
            length (slice_index_or stages i d).items < (slice_index_or stages i d).capacity }
        requires fits { (d : StageState) →
            IsItem (record { job = (seen_by self.old).job.job; stage = i })
            (length (slice_index_or (seen_by self.old).stages i d).items) (arc_value item) }
        ensures same { KeepsSeen (seen_by self.old) (seen_by self.new) }
        ensures more { (d : StageState) → length (slice_index_or (seen_by self.new).stages i d).items
            ≡ length (slice_index_or (seen_by self.old).stages i d).items + 1 }
        ensures others { (j : ℕ) (d : StageState) → j ≢ i →
            slice_index_or (seen_by self.new).stages j d ≡ slice_index_or (seen_by self.old).stages j d }
    {
        self.rows[i as usize].put(item);
    }
}

impl<'a> NameView for SeenRows<'a> {
    ghost names = { λ s. as_names s.names };

    ghost are_names = { λ s. AreNames-as_names s.names };

    fn name(&self, i: u32) -> &str {
        self.names.name(i)
    }
}

impl<'a> BlockView for SeenRows<'a> {
    ghost value = { λ s. value_of (seen_by s) };

    ghost lawful = { λ s. block_value (seen_by s) s.holds s.fits };

    fn ring(&self) -> Ring {
        self.ring
    }

    fn factors(&self) -> u32 {
        self.rows.len() as u32
    }

    fn known(&self) -> Option<u32> {
        self.known_to()
    }

    fn root(&self, i: u32) -> Root {
        self.job.roots.as_slice()[i as usize]
    }

    fn part(&self, i: u32, power: u32, r: u32) -> &Part {
        &self.rows[i as usize].get(r).factor()[power as usize]
    }

    fn has_lead(&self) -> bool {
        self.shows_lead
    }

    fn lead_part(&self, r: u32) -> &Part {
        &self.lead[r as usize]
    }
}
