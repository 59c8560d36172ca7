//! How the stages of a line are raised by one degree.
ghost use Rattle.std.specs.Prelude.{◌≡◌, ◌+◌, ◌-◌, ◌<◌, ◌≤◌, ◌^◌, length, map, sum_by, take};
ghost use Rattle.std.specs.Prelude.{OnOk, OnErr};
ghost use Rattle.parts.specs.JobRows.{IsPermitted};
ghost use Rattle.stages.specs.States.{prepared_of};
ghost use Rattle.stages.specs.Lines.{OfStage, AreStagesOf, HaveRoom, AllHave, AreFalling, AllGrow};
ghost use Rattle.stages.specs.Lines.{AreSameBut};

use crate::item::StageItem;
use crate::stage::{Stage, StageView};
use parts::RowSource;
use prepare::Tally;
use ps_model::OutOfMemory;
use rows::RowOut;
use std::sync::Arc;

/// The number of items that each row has at least; the greatest number of no row.
pub(crate) fn least_length<R: RowOut<StageItem>>(stages: &[Stage<R>]) -> u32
    ensures have { let state = ⟦<Stage<R> as StageView>⟧.state in
        AllHave result (map state stages.now) }
    ensures none { length stages.now ≡ 0 → result ≡ u32.MAX }
{
    let mut least = u32::MAX;
    for stage in stages {
        least = least.min(stage.len());
    }
    least
}

/// Sees to it that each row has its item of degree `r`.
pub(crate) fn raise_all<R: RowOut<StageItem>, I: RowSource>(
    stages: &mut [Stage<R>],
    r: u32,
    input: &mut I,
    tally: &mut Tally,
) -> Result<(), OutOfMemory>
    requires line { let state = ⟦<Stage<R> as StageView>⟧.state in
        AreStagesOf (I.job input.old) (map state stages.old) }
    requires have { let state = ⟦<Stage<R> as StageView>⟧.state in
        AllHave r (map state stages.old) }
    requires room { let state = ⟦<Stage<R> as StageView>⟧.state in
        HaveRoom r (map state stages.old) }
    requires permitted { IsPermitted (take (I.job input.old).n (I.job input.old).weights) r }
    requires tally { let state = ⟦<Stage<R> as StageView>⟧.state in
        tally.old ≤ 2 ^ 61 + sum_by prepared_of (map state stages.old) }
    ensures source { I.job input.new ≡ I.job input.old }
    ensures grow { let state = ⟦<Stage<R> as StageView>⟧.state in
        AllGrow (r + 1) (map state stages.old) (map state stages.new) }
    ensures falling { let state = ⟦<Stage<R> as StageView>⟧.state in
        AreFalling (map state stages.old) → AreFalling (map state stages.new) }
    ensures ok { let state = ⟦<Stage<R> as StageView>⟧.state in
        OnOk result (AllHave (r + 1) (map state stages.new)) }
    ensures err { let state = ⟦<Stage<R> as StageView>⟧.state in
        OnErr result (AllHave (r + 1) (map state stages.old) → ⊥) }
    ensures there { let state = ⟦<Stage<R> as StageView>⟧.state in
        AllHave (r + 1) (map state stages.old) → input.new ≡ input.old }
    ensures ticks { let state = ⟦<Stage<R> as StageView>⟧.state in
        tally.new + sum_by prepared_of (map state stages.old)
        ≡ tally.old + sum_by prepared_of (map state stages.new) }
{
    for s in 0..stages.len() {
        if stages[s].len() == r {
            raise_one(stages, s, r, input, tally)?;
        }
    }
    Ok(())
}

/// Puts the item of degree `r` of stage `s`, which is its next one. No other stage changes.
pub(crate) fn raise_one<R: RowOut<StageItem>, I: RowSource>(
    stages: &mut [Stage<R>],
    s: usize,
    r: u32,
    input: &mut I,
    tally: &mut Tally,
) -> Result<(), OutOfMemory>
    requires line { let state = ⟦<Stage<R> as StageView>⟧.state in
        AreStagesOf (I.job input.old) (map state stages.old) }
    requires stage { s < length stages.old }
    requires next { let state = ⟦<Stage<R> as StageView>⟧.state in
        OfStage (map state stages.old) s (λ x. length x.items ≡ r) }
    requires before { let state = ⟦<Stage<R> as StageView>⟧.state in
        0 < s → OfStage (map state stages.old) (s - 1) (λ x. r < length x.items) }
    requires room { let state = ⟦<Stage<R> as StageView>⟧.state in
        OfStage (map state stages.old) s (λ x. r < x.capacity) }
    requires permitted { IsPermitted (take (I.job input.old).n (I.job input.old).weights) r }
    requires tally { tally.old < 2 ^ 62 }
    ensures source { I.job input.new ≡ I.job input.old }
    ensures grow { let state = ⟦<Stage<R> as StageView>⟧.state in
        AllGrow (r + 1) (map state stages.old) (map state stages.new) }
    ensures falling { let state = ⟦<Stage<R> as StageView>⟧.state in
        AreFalling (map state stages.old) → AreFalling (map state stages.new) }
    ensures others { let state = ⟦<Stage<R> as StageView>⟧.state in
        AreSameBut s (map state stages.old) (map state stages.new) }
    ensures ok { let state = ⟦<Stage<R> as StageView>⟧.state in
        OnOk result (OfStage (map state stages.new) s (λ x. r < length x.items)) }
    ensures ticks { let state = ⟦<Stage<R> as StageView>⟧.state in
        tally.new + sum_by prepared_of (map state stages.old)
        ≡ tally.old + sum_by prepared_of (map state stages.new) }
{
    if s == 0 {
        let row = input.row(r)?;
        stages[s].advance(&row, tally)
    } else {
        let item = Arc::try_clone(stages[s - 1].item(r))?;
        stages[s].advance(item.left(), tally)
    }
}
