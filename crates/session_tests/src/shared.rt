//! Sessions over shared rows: what they tell, and the ways to raise them.
ghost use Rattle.std.specs.Prelude.{◌≡◌, IfOk, OnOk};
ghost use Rattle.pipe.specs.Looks.{state_of};
ghost use Rattle.session.specs.Calls.{KeepsSession};
ghost use Rattle.session.specs.Shared.{IsReaderOf};
ghost use Rattle.stages.specs.Lines.{OfStage};

use crate::made::job_of;
use parts::{Part, permitted};
use pipe::{Gate, OpenGate};
use prepare::{Prep, Tally};
use rows::{RowReader, RowWriter};
use session::{Session, SessionView};
use stages::StageItem;
use std::alloc::Global;
use std::marker::Sync;
use std::process::Abort;
use std::sync::{Arc, Wait};
use std::test::Fail;
use std::thread::Threads;

/// A session of Y^2 + x*Y + 1 modulo 101, whose roots at the origin are 10 and -10.
pub fn quadratic<W: Wait>(rt: &W, alloc: Global) -> Result<Session<RowWriter<StageItem>>, Fail> {
    let job = job_of(alloc, 101, &["x"], 1, b"Y^2 + x*Y + 1", &[(10, 1), (91, 1)])?;
    Ok(Session::open_shared(rt, alloc, job)?)
}

/// Raises a session on one thread, to a degree that may be asked for.
fn raised_alone(
    session: &mut Session<RowWriter<StageItem>>,
    to: u32,
    tally: &mut Tally,
) -> Result<(), Fail>
    ensures kept { let state = ⟦<Session<RowWriter<StageItem>> as SessionView>⟧.state in
        OnOk result (KeepsSession (state session.old) (state session.new)) }
{
    if !permitted(session.ring(), to) || tally.count() > 1000 {
        return Err("not to be raised")?;
    }
    session.raise(to, tally)?;
    Ok(())
}

/// Raises a session by workers, to a degree that may be asked for.
pub fn raised_by_workers<R: Threads + Wait + Sync, G: Gate>(
    rt: &R,
    session: &mut Session<RowWriter<StageItem>>,
    to: u32,
    workers: u32,
    gate: &G,
    tally: &mut Tally,
) -> Result<(), Fail>
    ensures kept { let state = ⟦<Session<RowWriter<StageItem>> as SessionView>⟧.state in
        OnOk result (KeepsSession (state session.old) (state session.new)) }
{
    if !permitted(session.ring(), to) || tally.count() > 1000 || workers < 1 || workers > 64 {
        return Err("not to be raised")?;
    }
    session.raise_pipe(rt, to, workers, gate, tally)?;
    Ok(())
}

/// Takes the reader of the second row, which is there once.
fn taken_once(
    rt: &impl Abort,
    session: &mut Session<RowWriter<StageItem>>,
) -> Result<RowReader<StageItem>, Fail>
    ensures row { IfOk result (λ reader. OfStage
        (⟦<Session<RowWriter<StageItem>> as SessionView>⟧.state session.new).stages 1
        (λ s. IsReaderOf s (state_of reader))) }
{
    if session.job().data().roots.len() < 2 {
        return Err("too few roots")?;
    }
    assert!(rt; session.has_readers());
    let Some(reader) = session.take_reader(1) else {
        return Err("no reader")?;
    };
    assert!(rt; session.take_reader(1).is_none());
    assert!(rt; !session.has_readers());
    Ok(reader)
}

/// Nothing is known, told, prepared or seen.
fn assert_untouched(
    rt: &impl Abort,
    session: &mut Session<RowWriter<StageItem>>,
) -> Result<(), Fail>
    ensures state { let state = ⟦<Session<RowWriter<StageItem>> as SessionView>⟧.state in
        state session.new ≡ state session.old }
{
    if session.job().data().roots.len() < 2 {
        return Err("too few roots")?;
    }
    assert_eq!(rt; session.known(), None);
    assert!(rt; session.told(1).is_none());
    assert!(rt; session.preparation(1).is_none());
    assert_eq!(rt; session.inner_seen(0), 0);
    Ok(())
}

/// How many items of the second row are told of; None where none is.
fn told_length(session: &mut Session<RowWriter<StageItem>>) -> Result<Option<u32>, Fail>
    ensures state { let state = ⟦<Session<RowWriter<StageItem>> as SessionView>⟧.state in
        state session.new ≡ state session.old }
{
    if session.job().data().roots.len() < 2 {
        return Err("too few roots")?;
    }
    match session.told(1) {
        Some(told) => Ok(Some(told.len())),
        None => Ok(None),
    }
}

/// How many items a reader of the second row finds, once it has learnt what is told of it.
fn found_length(
    session: &mut Session<RowWriter<StageItem>>,
    mut reader: RowReader<StageItem>,
) -> Result<u32, Fail>
    requires row { OfStage (⟦<Session<RowWriter<StageItem>> as SessionView>⟧.state session.old).stages 1
        (λ s. IsReaderOf s (state_of reader)) }
{
    if session.job().data().roots.len() < 2 {
        return Err("too few roots")?;
    }
    let Some(told) = session.told(1) else {
        return Err("nothing is told")?;
    };
    reader.learn(told);
    let Ok(found) = reader.look() else {
        return Err("no look")?;
    };
    let length = found.len();
    let _reader = found.leave();
    Ok(length)
}

/// The coefficient of a part in one variable, where it has no more than one.
fn coefficient_of(part: &Part) -> Option<u64> {
    match part.terms() {
        [] => Some(0),
        [term] => Some(term.coefficient),
        _ => None,
    }
}

/// These parts have these coefficients, each one.
fn assert_row(rt: &impl Abort, row: &[Arc<Part>], coefficients: [u64; 2]) {
    match row {
        [low, high] => {
            assert_eq!(rt; coefficient_of(low), Some(coefficients[0]));
            assert_eq!(rt; coefficient_of(high), Some(coefficients[1]));
        }
        _ => panic!(rt; "not two parts"),
    }
}

/// The preparation has the degrees 0 to 2 of the second factor's root power.
fn assert_degrees(rt: &impl Abort, prep: &Prep) -> Result<(), Fail> {
    assert_eq!(rt; prep.degrees(), 3);
    if prep.degrees() < 3 {
        return Err("too few degrees")?;
    }
    assert_row(rt, prep.row_p(0), [0, 1]);
    assert_row(rt, prep.row_p(1), [51, 0]);
    assert_row(rt, prep.row_p(2), [24, 0]);
    Ok(())
}

/// The preparation of the second stage is so, and the workers saw three items of the first row.
fn assert_prepared(rt: &impl Abort, session: &Session<RowWriter<StageItem>>) -> Result<(), Fail> {
    if session.job().data().roots.len() < 2 {
        return Err("too few roots")?;
    }
    assert_eq!(rt; session.inner_seen(0), 3);
    match session.preparation(1) {
        Some(prep) => assert_degrees(rt, prep),
        None => Err("no preparation")?,
    }
}

/// Raises a session by two workers to 2, and compares what it tells before and behind it.
fn assert_raised<R: Abort + Threads + Wait + Sync>(
    rt: &R,
    session: &mut Session<RowWriter<StageItem>>,
    tally: &mut Tally,
) -> Result<(), Fail> {
    assert_untouched(rt, session)?;
    let reader = taken_once(rt, session)?;
    raised_by_workers(rt, session, 2, 2, &OpenGate, tally)?;
    assert_eq!(rt; tally.count(), 6);
    assert_eq!(rt; session.known(), Some(2));
    assert_eq!(rt; told_length(session)?, Some(3));
    assert_eq!(rt; found_length(session, reader)?, 3);
    assert_prepared(rt, session)
}

// By hand: the root -10 moves by -x/2 - 24 * x^2 modulo 101, and 1/2 is 51. Each of two stages is
// prepared at three degrees.
#[test]
fn two_workers_raise_a_shared_session(rt: HostRuntime) -> Result<(), Fail> {
    let mut session = quadratic(&rt, rt.alloc())?;
    let mut tally = Tally::new();
    let done = assert_raised(&rt, &mut session, &mut tally);
    let _steps = tally.finish();
    session.close(&rt);
    done
}

/// Raises a session by workers to 1, alone to 3, and by workers to 5. What is put alone is published by
/// the workers who come behind it.
fn assert_mixed<R: Abort + Threads + Wait + Sync>(
    rt: &R,
    session: &mut Session<RowWriter<StageItem>>,
    tally: &mut Tally,
) -> Result<(), Fail> {
    let reader = taken_once(rt, session)?;
    raised_by_workers(rt, session, 1, 2, &OpenGate, tally)?;
    raised_alone(session, 3, tally)?;
    assert_eq!(rt; session.known(), Some(3));
    assert_eq!(rt; told_length(session)?, Some(2));
    raised_by_workers(rt, session, 5, 2, &OpenGate, tally)?;
    assert_eq!(rt; session.known(), Some(5));
    assert_eq!(rt; tally.count(), 12);
    assert_eq!(rt; told_length(session)?, Some(6));
    assert_eq!(rt; found_length(session, reader)?, 6);
    Ok(())
}

#[test]
fn raises_of_both_kinds_go_on_from_each_other(rt: HostRuntime) -> Result<(), Fail> {
    let mut session = quadratic(&rt, rt.alloc())?;
    let mut tally = Tally::new();
    let done = assert_mixed(&rt, &mut session, &mut tally);
    let _steps = tally.finish();
    session.close(&rt);
    done
}
