//! Whether a line has what another one has.
ghost use Rattle.std.specs.Prelude.{◌<◌, length};

use parts::Part;
use pipe::{SharedLine, SharedLineView};
use rows::OwnRow;
use stages::{Line, LineView, StageItem};
use std::sync::Arc;

/// Whether these parts have the same terms, each as the one at its place.
fn are_same(parts: &[Arc<Part>], others: &[Arc<Part>]) -> bool {
    if parts.len() != others.len() {
        return false;
    }
    for i in 0..parts.len() {
        if parts[i].terms() != others[i].terms() {
            return false;
        }
    }
    true
}

/// Whether two items are the same, in their factor and in what they leave.
pub fn is_same(item: &StageItem, other: &StageItem) -> bool {
    are_same(item.factor(), other.factor()) && are_same(item.left(), other.left())
}

/// Whether a stage has an item of degree r in both lines, and the same one.
fn is_same_at(plain: &Line<OwnRow<StageItem>>, line: &SharedLine, stage: u32, r: u32) -> bool
    requires plain { stage < length (⟦<Line<OwnRow<StageItem>> as LineView>⟧.states plain.now) }
    requires line { stage < length (⟦<SharedLine as SharedLineView>⟧.states line.now) }
{
    if r >= plain.len(stage) || r >= line.len(stage) {
        return false;
    }
    is_same(plain.item(stage, r), line.item(stage, r))
}

/// Whether a stage has the same items in both lines.
fn is_same_row(plain: &Line<OwnRow<StageItem>>, line: &SharedLine, stage: u32) -> bool
    requires plain { stage < length (⟦<Line<OwnRow<StageItem>> as LineView>⟧.states plain.now) }
    requires line { stage < length (⟦<SharedLine as SharedLineView>⟧.states line.now) }
{
    if plain.len(stage) != line.len(stage) {
        return false;
    }
    for r in 0..line.len(stage) {
        if !is_same_at(plain, line, stage, r) {
            return false;
        }
    }
    true
}

/// Whether all stages have the same items in both lines.
pub fn have_same_rows(plain: &Line<OwnRow<StageItem>>, line: &SharedLine) -> bool {
    if plain.stages() != line.stages() {
        return false;
    }
    for stage in 0..line.stages() {
        if !is_same_row(plain, line, stage) {
            return false;
        }
    }
    true
}

/// Whether each stage has so many items, all published, and the reader of the row before it saw them.
pub fn are_shown(line: &SharedLine, count: u32) -> bool {
    for stage in 0..line.stages() {
        if line.len(stage) != count || line.published(stage) != count {
            return false;
        }
        if stage > 0 && line.inner_seen(stage - 1) < count {
            return false;
        }
    }
    true
}
