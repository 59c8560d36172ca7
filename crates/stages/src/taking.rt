//! The stages of a line, taken out and put back.
ghost use Rattle.std.specs.Prelude.{◌≡◌, [], List, map};
ghost use Rattle.stages.specs.Lines.{titles_of, AreStagesOf};

use crate::item::StageItem;
use crate::line::{Line, LineView};
use crate::stage::{Stage, StageView};
use rows::RowOut;
use std::mem;

/// What contracts see of a line of stages `S`, beside their states: the stages themselves.
pub trait StagesView<S> {
    ghost stages: { Self → List S };
}

impl<R: RowOut<StageItem>> StagesView<Stage<R>> for Line<R> {
    ghost stages = { λ line. line.stages.items };
}

impl<R: RowOut<StageItem>> Line<R> {
    /// Takes all stages out, in order, with their rows as they are. It takes no memory.
    ///
    /// While they are out the line has no stage: put them back before it is raised again.
    pub fn take_stages(&mut self) -> Vec<Stage<R>>
        ensures job { ⟦<Self as LineView>⟧.job self.new ≡ ⟦<Self as LineView>⟧.job self.old }
        ensures taken { result.items ≡ ⟦<Self as StagesView<Stage<R>>>⟧.stages self.old }
        ensures states { map ⟦<Stage<R> as StageView>⟧.state result.items
            ≡ ⟦<Self as LineView>⟧.states self.old }
        ensures titles { AreStagesOf (⟦<Self as LineView>⟧.job self.old)
            (⟦<Self as LineView>⟧.states self.old)
            → map (λ s. (⟦<Stage<R> as StageView>⟧.state s).title) result.items
            ≡ titles_of (⟦<Self as LineView>⟧.job self.old) }
        ensures none { ⟦<Self as StagesView<Stage<R>>>⟧.stages self.new ≡ [] }
        ensures no_state { ⟦<Self as LineView>⟧.states self.new ≡ [] }
    {
        mem::replace(&mut self.stages, Vec::new(self.alloc))
    }

    /// Puts stages back, with their rows as they are. It takes no memory.
    pub fn give_stages(&mut self, stages: Vec<Stage<R>>)
        requires none { ⟦<Self as StagesView<Stage<R>>>⟧.stages self.old ≡ [] }
        requires titles { map (λ s. (⟦<Stage<R> as StageView>⟧.state s).title) stages.items
            ≡ titles_of (⟦<Self as LineView>⟧.job self.old) }
        ensures job { ⟦<Self as LineView>⟧.job self.new ≡ ⟦<Self as LineView>⟧.job self.old }
        ensures given { ⟦<Self as StagesView<Stage<R>>>⟧.stages self.new ≡ stages.items }
        ensures states { ⟦<Self as LineView>⟧.states self.new
            ≡ map ⟦<Stage<R> as StageView>⟧.state stages.items }
        ensures whole { AreStagesOf (⟦<Self as LineView>⟧.job self.new)
            (⟦<Self as LineView>⟧.states self.new) }
    {
        let none = mem::replace(&mut self.stages, stages);
        none.destroy_empty();
    }
}
