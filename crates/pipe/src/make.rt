//! How a line with shared rows is made.
ghost use Rattle.std.specs.Prelude.{◌≡◌, ℕ, ◌≤◌, [], length, map, replicate, All, IfOk, OnOk, vec_capacity};
ghost use Rattle.std.specs.Arc.{arc_value};
ghost use Rattle.ps_model.specs.AcceptedJob.{IsAccepted};
ghost use Rattle.parts.specs.JobRows.{IsRingOf};
ghost use Rattle.rows.specs.Readers.{IsFresh};
ghost use Rattle.rows.specs.Writers.{writer_title, writer_items, writer_capacity, writer_name};
ghost use Rattle.stages.specs.Lines.{AreFresh, AreStagesOf};
ghost use Rattle.pipe.specs.Looks.{state_of};
ghost use Rattle.pipe.specs.SharedLines.{name_of_reader, AreOfRows, AreReadersOf};
ghost use Rattle.pipe.specs.SharedLines.{IsUnread, IsNewReader};
ghost use Rattle.pipe.specs.Made.{AreNewRows};

use crate::shared::{SharedLine, SharedLineView};
use parts::Ring;
use ps_model::{JobData, OutOfMemory};
use rows::{RowReader, RowWriter, shared_row};
use stages::{Line, StageItem, StageTitle};
use std::alloc::Global;
use std::sync::{Arc, Wait};

/// A row for a stage, and two readers of the row.
fn make_row<W: Wait>(
    rt: &W,
    alloc: Global,
    job: &Arc<JobData>,
    stage: u32,
    capacity: u32,
) -> Result<
    (
        RowWriter<StageItem>,
        RowReader<StageItem>,
        RowReader<StageItem>,
    ),
    OutOfMemory,
>
    requires { capacity ≤ 4096 }
    ensures title { IfOk result (λ made. writer_title made.0
        ≡ record { job = arc_value job.now; stage = stage }) }
    ensures empty { IfOk result (λ made. writer_items made.0 ≡ []) }
    ensures capacity { IfOk result (λ made. writer_capacity made.0 ≡ capacity) }
    ensures inner { IfOk result (λ made.
        IsFresh (writer_title made.0) (writer_name made.0) made.1) }
    ensures outer { IfOk result (λ made.
        IsFresh (writer_title made.0) (writer_name made.0) made.2) }
{
    let title = StageTitle {
        job: Arc::try_clone(job)?,
        stage,
    };
    let (row, mut readers) = shared_row(rt, alloc, title, capacity, 2)?;
    let Some(inner) = readers.pop() else {
        unreachable!();
    };
    let Some(outer) = readers.pop() else {
        unreachable!();
    };
    Ok((row, inner, outer))
}

/// Makes a row for each stage of the job, and two readers of each. On a refusal some were made.
fn make_rows<W: Wait>(
    rt: &W,
    alloc: Global,
    job: &Arc<JobData>,
    capacity: u32,
    rows: &mut Vec<RowWriter<StageItem>>,
    inner: &mut Vec<RowReader<StageItem>>,
    outer: &mut Vec<RowReader<StageItem>>,
) -> Result<(), OutOfMemory>
    requires capacity { capacity ≤ 4096 }
    requires few { length (arc_value job.now).roots ≤ 32 }
    requires no_row { rows.old.items ≡ [] }
    requires no_inner { inner.old.items ≡ [] }
    requires no_outer { outer.old.items ≡ [] }
    requires rows_room { length (arc_value job.now).roots ≤ vec_capacity rows.old }
    requires inner_room { length (arc_value job.now).roots ≤ vec_capacity inner.old }
    requires outer_room { length (arc_value job.now).roots ≤ vec_capacity outer.old }
    ensures rows { let job = arc_value job.now in
        OnOk result (AreNewRows job capacity (length job.roots) rows.new.items) }
    ensures inner { OnOk result (AreOfRows (map writer_title rows.new.items)
        (map writer_name rows.new.items) (map state_of inner.new.items)) }
    ensures outer { OnOk result (AreOfRows (map writer_title rows.new.items)
        (map writer_name rows.new.items) (map state_of outer.new.items)) }
    ensures inner_unread { OnOk result (All IsUnread inner.new.items) }
    ensures outer_unread { OnOk result (All IsUnread outer.new.items) }
{
    for stage in 0..job.roots.len() as u32 {
        let (row, one, other) = make_row(rt, alloc, job, stage, capacity)?;
        rows.push_reserved(row);
        inner.push_reserved(one);
        outer.push_reserved(other);
    }
    Ok(())
}

/// Ends rows.
fn close_rows<W: Wait>(rt: &W, rows: Vec<RowWriter<StageItem>>) {
    let mut rows = rows;
    while let Some(row) = rows.pop() {
        row.close(rt);
    }
    rows.destroy_empty();
}

impl SharedLine {
    /// A line with all stages of a job and empty rows, each with room for `capacity` items, and a
    /// reader of each row for the caller. Nothing is published. It may wait where `shared_row` does.
    ///
    /// On a refusal the rows that were made are closed.
    pub fn new<W: Wait>(
        rt: &W,
        alloc: Global,
        ring: Ring,
        job: Arc<JobData>,
        capacity: u32,
    ) -> Result<(SharedLine, Vec<RowReader<StageItem>>), OutOfMemory>
        requires accepted { IsAccepted (arc_value job) }
        requires ring { IsRingOf ring (arc_value job) }
        requires capacity { capacity ≤ 4096 }
        ensures job { IfOk result (λ made. ⟦<Self as SharedLineView>⟧.job made.0 ≡ arc_value job) }
        ensures states { IfOk result (λ made. AreFresh (arc_value job) ring
            (replicate (length (arc_value job).roots) capacity)
            (map name_of_reader (map state_of made.1.items))
            (⟦<Self as SharedLineView>⟧.states made.0)) }
        ensures whole { IfOk result (λ made. AreStagesOf (⟦<Self as SharedLineView>⟧.job made.0)
            (⟦<Self as SharedLineView>⟧.states made.0)) }
        ensures published { IfOk result (λ made. ⟦<Self as SharedLineView>⟧.published made.0
            ≡ replicate (length (arc_value job).roots) 0) }
        ensures inner { IfOk result (λ made. AreReadersOf (⟦<Self as SharedLineView>⟧.states made.0)
            (⟦<Self as SharedLineView>⟧.inner made.0)) }
        ensures outer { IfOk result (λ made. AreReadersOf (⟦<Self as SharedLineView>⟧.states made.0)
            (map state_of made.1.items)) }
        ensures inner_new { IfOk result
            (λ made. All IsNewReader (⟦<Self as SharedLineView>⟧.inner made.0)) }
        ensures outer_new { IfOk result (λ made. All IsUnread made.1.items) }
    {
        let count = job.roots.len();
        let mut inner = Vec::with_capacity(alloc, count)?;
        let mut outer = Vec::with_capacity(alloc, count)?;
        let mut rows = Vec::with_capacity(alloc, count)?;
        if let Err(refusal) = make_rows(
            rt, alloc, &job, capacity, &mut rows, &mut inner, &mut outer,
        ) {
            close_rows(rt, rows);
            return Err(refusal);
        }
        match Line::new(alloc, ring, job, rows) {
            Ok(line) => Ok((SharedLine { line, inner }, outer)),
            Err((refusal, rows)) => {
                close_rows(rt, rows);
                Err(refusal)
            }
        }
    }
}
