//! Stages whose rows are shared with readers.
ghost use Rattle.std.specs.Prelude.{◌≡◌, ℕ, ◌<◌, List, length, map, slice_index, IfOk, OnOk, OnErr};
ghost use Rattle.rows.specs.Readers.{told_name, told_length};
ghost use Rattle.rows.specs.Writers.{published_of};
ghost use Rattle.stages.specs.Lines.{OfStage};

use crate::item::StageItem;
use crate::line::{Line, LineView};
use crate::stage::{Stage, StageView};
use ps_model::OutOfMemory;
use rows::{RowWriter, Told};
use std::sync::Wait;

/// What contracts see of a stage over a shared row, beside its state: how many of its items are
/// published.
pub trait SharedStageView {
    ghost published: { Self → ℕ };
}

impl SharedStageView for Stage<RowWriter<StageItem>> {
    ghost published = { λ s. published_of s.row };
}

impl Stage<RowWriter<StageItem>> {
    /// Publishes all items of the row, in order. It may wait for readers.
    ///
    /// On a refusal what is published is as before.
    pub fn publish<W: Wait>(&mut self, rt: &W) -> Result<Told, OutOfMemory>
        ensures state { ⟦<Self as StageView>⟧.state self.new ≡ ⟦<Self as StageView>⟧.state self.old }
        ensures ok { OnOk result (⟦<Self as SharedStageView>⟧.published self.new
            ≡ length (⟦<Self as StageView>⟧.state self.old).items) }
        ensures err { OnErr result (⟦<Self as SharedStageView>⟧.published self.new
            ≡ ⟦<Self as SharedStageView>⟧.published self.old) }
        ensures told { IfOk result
            (λ told. told_length told ≡ length (⟦<Self as StageView>⟧.state self.old).items) }
        ensures name { IfOk result
            (λ told. told_name told ≡ (⟦<Self as StageView>⟧.state self.old).name) }
    {
        self.row.publish(rt)
    }

    /// That as many items are published as are now.
    pub fn tell(&mut self) -> Told
        ensures state { ⟦<Self as StageView>⟧.state self.new ≡ ⟦<Self as StageView>⟧.state self.old }
        ensures published { ⟦<Self as SharedStageView>⟧.published self.new
            ≡ ⟦<Self as SharedStageView>⟧.published self.old }
        ensures told { told_length result ≡ ⟦<Self as SharedStageView>⟧.published self.old }
        ensures name { told_name result ≡ (⟦<Self as StageView>⟧.state self.old).name }
    {
        self.row.tell()
    }

    /// How many items are published.
    pub fn published(&self) -> u32
        ensures { result ≡ ⟦<Self as SharedStageView>⟧.published self.now }
    {
        self.row.published()
    }

    /// Ends the row. It may wait for readers.
    pub fn close<W: Wait>(self, rt: &W) {
        let Stage {
            alloc: _,
            splitter: _,
            row,
        } = self;
        row.close(rt);
    }
}

/// What contracts see of a line over shared rows, beside its states: how many items of each row are
/// published.
pub trait SharedRowsView {
    ghost published: { Self → List ℕ };
}

impl SharedRowsView for Line<RowWriter<StageItem>> {
    ghost published = { λ line.
        map ⟦<Stage<RowWriter<StageItem>> as SharedStageView>⟧.published line.stages.items };
}

impl Line<RowWriter<StageItem>> {
    /// How many items of the row of stage `stage` are published.
    pub fn published(&self, stage: u32) -> u32
        requires { stage < length (⟦<Self as LineView>⟧.states self.now) }
        ensures { result ≡ slice_index (⟦<Self as SharedRowsView>⟧.published self.now) stage }
    {
        self.stages[stage as usize].published()
    }

    /// That as many items of the row of stage `stage` are published as are now.
    pub fn tell(&mut self, stage: u32) -> Told
        requires { stage < length (⟦<Self as LineView>⟧.states self.old) }
        ensures job { ⟦<Self as LineView>⟧.job self.new ≡ ⟦<Self as LineView>⟧.job self.old }
        ensures states { ⟦<Self as LineView>⟧.states self.new ≡ ⟦<Self as LineView>⟧.states self.old }
        ensures published { ⟦<Self as SharedRowsView>⟧.published self.new
            ≡ ⟦<Self as SharedRowsView>⟧.published self.old }
        ensures told { told_length result ≡ slice_index (⟦<Self as SharedRowsView>⟧.published self.old) stage }
        ensures name { OfStage (⟦<Self as LineView>⟧.states self.old) stage
            (λ s. told_name result ≡ s.name) }
    {
        self.stages[stage as usize].tell()
    }

    /// Ends each row. It may wait for readers.
    pub fn close<W: Wait>(self, rt: &W) {
        let Line {
            alloc: _,
            job: _,
            mut stages,
        } = self;
        while let Some(stage) = stages.pop() {
            stage.close(rt);
        }
        stages.destroy_empty();
    }
}
