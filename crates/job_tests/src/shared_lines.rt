//! A line whose row is shared with a reader.
ghost use Rattle.std.specs.Prelude.{◌≡◌, ◌≤◌, length, map, IfOk};
ghost use Rattle.ps_model.specs.AcceptedJob.{IsAccepted};
ghost use Rattle.stages.specs.Lines.{AreStagesOf, HaveRoom};

use crate::jobs::job_of_one;
use intake::Job;
use parts::permitted;
use prepare::Tally;
use ps_model::OutOfMemory;
use rows::{RowReader, RowWriter, shared_row};
use stages::{Line, LineView, Stage, StageItem, StageTitle, StageView};
use std::alloc::Global;
use std::sync::{Arc, Wait};
use std::test::Fail;

/// A line of a job with one root over a shared row with room up to degree 3, and a reader of it.
fn shared_line<W: Wait>(
    rt: &W,
    alloc: Global,
    job: &Job,
) -> Result<(Line<RowWriter<StageItem>>, Vec<RowReader<StageItem>>), OutOfMemory>
    requires accepted { IsAccepted job.now.job }
    requires one { length job.now.job.roots ≡ 1 }
    ensures job { IfOk result
        (λ l. ⟦<Line<RowWriter<StageItem>> as LineView>⟧.job l.0 ≡ job.now.job) }
    ensures whole { let job = ⟦<Line<RowWriter<StageItem>> as LineView>⟧.job in
        let states = ⟦<Line<RowWriter<StageItem>> as LineView>⟧.states in
        IfOk result (λ l. AreStagesOf (job l.0) (states l.0)) }
    ensures room { IfOk result
        (λ l. HaveRoom 3 (⟦<Line<RowWriter<StageItem>> as LineView>⟧.states l.0)) }
{
    let data = Arc::try_clone(job.data())?;
    let title = StageTitle {
        job: Arc::try_clone(job.data())?,
        stage: 0,
    };
    let mut rows = Vec::with_capacity(alloc, 1)?;
    let (row, readers) = match shared_row(rt, alloc, title, 4, 1) {
        Ok(made) => made,
        Err(refusal) => {
            rows.destroy_empty();
            return Err(refusal);
        }
    };
    rows.push_reserved(row);
    match Line::new(alloc, job.ring(), data, rows) {
        Ok(line) => Ok((line, readers)),
        Err((refusal, mut rows)) => {
            while let Some(row) = rows.pop() {
                row.close(rt);
            }
            rows.destroy_empty();
            Err(refusal)
        }
    }
}

/// Publishes what is in the row of the first stage. It answers how many items are published, or
/// nothing where memory was refused.
fn publish_first<W: Wait>(rt: &W, stages: &mut [Stage<RowWriter<StageItem>>]) -> Option<u32>
    ensures { let state = ⟦<Stage<RowWriter<StageItem>> as StageView>⟧.state in
        map state stages.new ≡ map state stages.old }
{
    if stages.is_empty() {
        return None;
    }
    let stage = &mut stages[0];
    match stage.publish(rt) {
        Ok(told) if told.len() == stage.published() => Some(stage.tell().len()),
        _ => None,
    }
}

/// The same while the stages are out of their line.
fn publish_outside<W: Wait>(rt: &W, line: &mut Line<RowWriter<StageItem>>) -> Option<u32>
    requires { let job = ⟦<Line<RowWriter<StageItem>> as LineView>⟧.job in
        let states = ⟦<Line<RowWriter<StageItem>> as LineView>⟧.states in
        AreStagesOf (job line.old) (states line.old) }
{
    let mut stages = line.take_stages();
    let published = publish_first(rt, &mut stages);
    line.give_stages(stages);
    published
}

/// The length of the list that a look finds.
fn length_found(reader: RowReader<StageItem>) -> Option<u32> {
    let Ok(found) = reader.look() else {
        return None;
    };
    let len = found.len();
    found.leave();
    Some(len)
}

// By hand: a raise to degree 2 puts three items, and the reader finds them once they are published.
#[test]
fn a_reader_finds_what_a_line_published(rt: HostRuntime) -> Result<(), Fail> {
    let mut job = job_of_one(rt.alloc())?;
    if job.data().roots.as_slice().len() != 1 || !permitted(job.ring(), 2) {
        return Err("no job")?;
    }
    let (mut line, mut readers) = shared_line(&rt, rt.alloc(), &job)?;
    let mut tally = Tally::new();
    let raised = line.raise(job.input(), 2, &mut tally).is_ok();
    let steps = tally.finish();
    let published = publish_outside(&rt, &mut line);
    let found = match readers.pop() {
        Some(reader) => length_found(reader),
        None => None,
    };
    let stages = line.stages();
    line.close(&rt);
    assert!(rt; raised);
    assert_eq!(rt; (steps, stages), (3, 1));
    assert_eq!(rt; published, Some(3));
    assert_eq!(rt; found, Some(3));
    Ok(())
}
