//! Rows of one owner for the stages of a job.
ghost use Rattle.std.specs.Prelude.{◌≡◌, ◌≤◌, [], ℕ, length, IfOk, slice_get, Some, map, replicate};
ghost use Rattle.std.specs.Arc.{arc_value};

use crate::item::StageItem;
use crate::title::StageTitle;
use ps_model::{JobData, OutOfMemory};
use rows::{OwnRow, RowOut};
use std::alloc::Global;
use std::sync::Arc;

/// An empty row for each stage of the job, with room for `capacity` items.
pub fn empty_rows(
    alloc: Global,
    job: &Arc<JobData>,
    capacity: u32,
) -> Result<Vec<OwnRow<StageItem>>, OutOfMemory>
    requires room { capacity ≤ 4096 }
    requires few { length (arc_value job.now).roots ≤ 32 }
    ensures count { IfOk result (λ rows. length rows.items ≡ length (arc_value job.now).roots) }
    ensures empty { IfOk result (λ rows. (s : ℕ) (row : _) → slice_get rows.items s ≡ Some row →
        ⟦<OwnRow<StageItem> as RowOut<StageItem>>⟧.items row ≡ []) }
    ensures titles { IfOk result (λ rows. (s : ℕ) (row : _) → slice_get rows.items s ≡ Some row →
        ⟦<OwnRow<StageItem> as RowOut<StageItem>>⟧.title row
        ≡ record { job = arc_value job.now; stage = s }) }
    ensures capacities { IfOk result (λ rows.
        map ⟦<OwnRow<StageItem> as RowOut<StageItem>>⟧.capacity rows.items
        ≡ replicate (length (arc_value job.now).roots) capacity) }
{
    let mut rows = Vec::new(alloc);
    for stage in 0..job.roots.len() as u32 {
        let title = StageTitle {
            job: Arc::try_clone(job)?,
            stage,
        };
        rows.push(OwnRow::new(alloc, title, capacity)?)?;
    }
    Ok(rows)
}
