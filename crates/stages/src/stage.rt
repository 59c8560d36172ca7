//! A stage with its row.
ghost use Rattle.std.specs.Prelude.{◌≡◌, ℕ, ◌+◌, ◌<◌, ◌≤◌, ◌^◌, ◌↔◌, [], length, IfOk, IfErr};
ghost use Rattle.std.specs.Prelude.{IfSome, OnOk, OnErr, None, Some, slice_get};
ghost use Rattle.std.specs.Arc.{arc_value};
ghost use Rattle.std.specs.Coded.{Coded-set};
ghost use Rattle.stages.specs.Titles.{title_code};
ghost use Rattle.ps_model.specs.AcceptedJob.{IsAccepted};
ghost use Rattle.parts.specs.JobRows.{IsRingOf};
ghost use Rattle.parts.specs.RowsOfParts.{parts_of};
ghost use Rattle.stages.specs.Slices.{IsUpstream};
ghost use Rattle.stages.specs.Items.{IsItem};
ghost use Rattle.stages.specs.Splitters.{prepared_in, IsPreparationOf};
ghost use Rattle.stages.specs.States.{StageState, state_by, prepared_of, KeepsStage, PutsOne};

use crate::item::StageItem;
use crate::splitter::Splitter;
use crate::title::StageTitle;
use parts::{Part, Ring};
use prepare::{Prep, Tally};
use ps_model::OutOfMemory;
use rows::RowOut;
use std::alloc::Global;
use std::sync::Arc;
use taylor::SharedBinomials;

/// What contracts see of a stage.
pub trait StageView {
    ghost state: { Self → StageState };
}

/// A stage of a job: it splits the job's next factor off, and puts what it finds into its row,
/// degree by degree.
#[derive(Drop)]
pub struct Stage<R: RowOut<StageItem>> {
    pub(crate) alloc: Global,
    pub(crate) splitter: Splitter,
    pub(crate) row: R,
    ghost same_title: { R.title row ≡ splitter.title } by { Coded-set title_code _ _ },
    ghost behind: { length (R.items row) ≤ prepared_in splitter.preparation },
    ghost ahead: { prepared_in splitter.preparation ≤ length (R.items row) + 1 },
}

impl<R: RowOut<StageItem>> StageView for Stage<R> {
    ghost state = { λ s. state_by R.capacity R.name R.items s.splitter s.row };
}

impl<R: RowOut<StageItem>> Stage<R> {
    /// A stage over an empty row. On a refusal the row comes back as it was.
    pub fn new(
        alloc: Global,
        ring: Ring,
        title: StageTitle,
        tables: Arc<SharedBinomials>,
        row: R,
    ) -> Result<Stage<R>, (OutOfMemory, R)>
        requires accepted { IsAccepted title.job }
        requires ring { IsRingOf ring title.job }
        requires stage { title.stage < length title.job.roots }
        requires empty { R.items row ≡ [] }
        requires title { R.title row ≡ title }
        ensures stage { IfOk result (λ s. ⟦<Self as StageView>⟧.state s ≡ record {
          title = title;
          ring = ring;
          capacity = R.capacity row;
          name = R.name row;
          items = [];
          preparation = None;
        }) }
        ensures row { IfErr result (λ e. e.1 ≡ row) }
    {
        if Splitter::make_table(ring, &tables).is_err() {
            return Err((OutOfMemory, row));
        }
        let splitter = Splitter::new(alloc, ring, title, tables);
        Ok(Stage::over(alloc, splitter, row))
    }

    /// A stage that splits by `splitter`, which has not begun, over an empty row. It takes no
    /// memory.
    pub(crate) fn over(alloc: Global, splitter: Splitter, row: R) -> Stage<R>
        requires fresh { splitter.preparation ≡ None }
        requires empty { R.items row ≡ [] }
        requires title { R.title row ≡ splitter.title }
        ensures { ⟦<Self as StageView>⟧.state result ≡ record {
          title = splitter.title;
          ring = splitter.ring;
          capacity = R.capacity row;
          name = R.name row;
          items = [];
          preparation = None;
        } }
    {
        Stage {
            alloc,
            splitter,
            row,
        }
    }

    /// Puts the next item. `upstream[j]` is the part of the row's next degree of the coefficient of
    /// Y^j in the polynomial before the stage.
    ///
    /// On a refusal the row is as before. The preparation may be one degree ahead then, which has
    /// ticked, and the next call goes on from there.
    pub fn advance(&mut self, upstream: &[Arc<Part>], tally: &mut Tally) -> Result<(), OutOfMemory>
        requires room { let state = ⟦<Self as StageView>⟧.state in
            length (state self.old).items < (state self.old).capacity }
        requires row { let state = ⟦<Self as StageView>⟧.state in
            IsUpstream (state self.old).title.job (state self.old).title.stage
            (length (state self.old).items) (parts_of upstream.now) }
        requires tally { tally.old < 2 ^ 62 }
        ensures kept { let state = ⟦<Self as StageView>⟧.state in
            KeepsStage (state self.old) (state self.new) }
        ensures ok { let state = ⟦<Self as StageView>⟧.state in
            OnOk result (PutsOne (state self.old) (state self.new)) }
        ensures err { let state = ⟦<Self as StageView>⟧.state in
            OnErr result ((state self.new).items ≡ (state self.old).items) }
        ensures ticks { let state = ⟦<Self as StageView>⟧.state in
            tally.new + prepared_of (state self.old) ≡ tally.old + prepared_of (state self.new) }
    {
        let r = self.row.len();
        if self.splitter.prepared() == r {
            self.splitter.prepare(upstream, tally)?;
        }
        let item = self.splitter.item(r)?;
        self.row.put(Arc::new(self.alloc, item)?);
        Ok(())
    }

    /// The number of items in the row.
    pub fn len(&self) -> u32
        ensures { result ≡ length (⟦<Self as StageView>⟧.state self.now).items }
    {
        self.row.len()
    }

    /// How many degrees are prepared: as many as there are items, or one more.
    pub fn prepared(&self) -> u32
        ensures count { result ≡ prepared_of (⟦<Self as StageView>⟧.state self.now) }
        ensures behind { length (⟦<Self as StageView>⟧.state self.now).items ≤ result }
        ensures ahead { result ≤ length (⟦<Self as StageView>⟧.state self.now).items + 1 }
    {
        self.splitter.prepared()
    }

    /// The stage's preparation, once it is begun.
    pub fn preparation(&self) -> Option<&Prep>
        ensures none { let state = ⟦<Self as StageView>⟧.state in
            (result ≡ None) ↔ (prepared_of (state self.now) ≡ 0) }
        ensures some { let state = ⟦<Self as StageView>⟧.state in
            IfSome result (λ prep. (state self.now).preparation ≡ Some prep.now) }
        ensures rows { let state = ⟦<Self as StageView>⟧.state in
            IfSome result (λ prep. IsPreparationOf (state self.now).title (state self.now).ring
            prep.now) }
    {
        self.splitter.preparation()
    }

    /// Which stage it is.
    pub fn title(&self) -> &StageTitle
        ensures { result.now ≡ (⟦<Self as StageView>⟧.state self.now).title }
    {
        self.splitter.title()
    }

    /// The item of degree r.
    pub fn item(&self, r: u32) -> &Arc<StageItem>
        requires { r < length (⟦<Self as StageView>⟧.state self.now).items }
        ensures item { let state = ⟦<Self as StageView>⟧.state in
            slice_get (state self.now).items r ≡ Some (arc_value result.now) }
        ensures fits { IsItem (⟦<Self as StageView>⟧.state self.now).title r
            (arc_value result.now) }
    {
        self.row.get(r)
    }
}
