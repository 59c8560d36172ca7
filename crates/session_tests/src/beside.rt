//! Streams that are written while workers raise the session.

use crate::made::raised;
use crate::rounds::{block_of, cubic_job};
use crate::shared::{quadratic, raised_by_workers};
use meeting::Meeting;
use parts::permitted;
use pipe::{Gate, OpenGate};
use ports::MemorySink;
use prepare::Tally;
use printer::BlockView;
use rows::RowWriter;
use session::{Session, StreamFault, write_stream};
use stages::StageItem;
use std::alloc::Global;
use std::marker::Sync;
use std::process::Abort;
use std::sync::Wait;
use std::test::Fail;
use std::thread::Threads;

/// What one thread writes of a session that it raised.
#[derive(Drop)]
struct Texts {
    /// The stream up to degree 1.
    shorter: MemorySink,
    /// The stream up to degree 3.
    longer: MemorySink,
    /// The block of precision 3.
    block: MemorySink,
}

/// The stream of a session that is known up to this degree.
fn stream_of<V: BlockView>(alloc: Global, session: &V, to: u32) -> Result<MemorySink, Fail> {
    if to > 4095 {
        return Err("above all precisions")?;
    }
    let mut sink = MemorySink::new(alloc, 4096, 64)?;
    match session.known() {
        Some(known) if to <= known => {
            if write_stream(&mut sink, session, to).is_err() {
                return Err("no room")?;
            }
            Ok(sink)
        }
        _ => Err("not known")?,
    }
}

/// What one thread writes of the cubic polynomial with three factors.
fn texts_of_one_thread(alloc: Global) -> Result<Texts, Fail> {
    let mut session = Session::open(alloc, cubic_job(alloc)?)?;
    let mut tally = Tally::new();
    let done = raised(&mut session, 3, &mut tally);
    let _steps = tally.finish();
    done?;
    Ok(Texts {
        shorter: stream_of(alloc, &session, 1)?,
        longer: stream_of(alloc, &session, 3)?,
        block: block_of(alloc, &session, 3)?,
    })
}

/// Raises a session beside its stream, to a degree that may be asked for; the fault where the stream
/// wasn't written to its end.
fn streamed<R: Threads + Wait + Sync, G: Gate>(
    rt: &R,
    session: &mut Session<RowWriter<StageItem>>,
    to: u32,
    workers: u32,
    gate: &G,
    sink: &mut MemorySink,
    tally: &mut Tally,
) -> Result<Option<StreamFault>, Fail> {
    if !permitted(session.ring(), to) || tally.count() > 1000 || workers < 1 || workers > 64 {
        return Err("not to be raised")?;
    }
    if !session.has_readers() {
        return Err("no readers")?;
    }
    match session.stream_pipe(rt, to, workers, gate, sink, tally) {
        Ok(()) => Ok(None),
        Err(fault) => Ok(Some(fault)),
    }
}

/// A stream up to this degree has this text, and so many steps were taken in all.
fn assert_stream<R: Abort + Threads + Wait + Sync>(
    rt: &R,
    alloc: Global,
    session: &mut Session<RowWriter<StageItem>>,
    to: u32,
    workers: u32,
    text: &[u8],
    steps: u64,
    tally: &mut Tally,
) -> Result<(), Fail> {
    let mut sink = MemorySink::new(alloc, 4096, 64)?;
    let fault = streamed(rt, session, to, workers, &OpenGate, &mut sink, tally)?;
    assert_eq!(rt; fault, None, "{workers} workers");
    assert!(rt; sink.bytes() == text, "{workers} workers");
    assert_eq!(rt; tally.count(), steps, "{workers} workers");
    Ok(())
}

/// Streams up to 1 and then to 3 have the texts of one thread, and its steps.
fn assert_streams<R: Abort + Threads + Wait + Sync>(
    rt: &R,
    alloc: Global,
    session: &mut Session<RowWriter<StageItem>>,
    workers: u32,
    expected: &Texts,
    tally: &mut Tally,
) -> Result<(), Fail> {
    let shorter = expected.shorter.bytes();
    assert_stream(rt, alloc, session, 1, workers, shorter, 6, tally)?;
    let longer = expected.longer.bytes();
    assert_stream(rt, alloc, session, 3, workers, longer, 12, tally)?;
    let block = block_of(alloc, session, 3)?;
    assert!(rt;
        block.bytes() == expected.block.bytes(),
        "{workers} workers"
    );
    Ok(())
}

// By hand: three stages take six steps to degree 1, and twelve to degree 3.
#[test]
fn streams_beside_workers_have_the_text_of_one_thread(rt: HostRuntime) -> Result<(), Fail> {
    let alloc = rt.alloc();
    let expected = texts_of_one_thread(alloc)?;
    for workers in [1_u32, 2, 3, 9] {
        let mut session = Session::open_shared(&rt, alloc, cubic_job(alloc)?)?;
        let mut tally = Tally::new();
        let done = assert_streams(&rt, alloc, &mut session, workers, &expected, &mut tally);
        let _steps = tally.finish();
        session.close(&rt);
        done?;
    }
    Ok(())
}

/// A stream up to 3 into a sink of 40 bytes fails behind these. A later raise goes on, and a stream
/// behind it is whole.
fn assert_fault<R: Abort + Threads + Wait + Sync>(
    rt: &R,
    alloc: Global,
    session: &mut Session<RowWriter<StageItem>>,
    workers: u32,
    expected: &Texts,
    tally: &mut Tally,
) -> Result<(), Fail> {
    let mut short = MemorySink::new(alloc, 40, 64)?;
    let fault = streamed(rt, session, 3, workers, &OpenGate, &mut short, tally)?;
    assert_eq!(rt; fault, Some(StreamFault::Write), "{workers} workers");
    assert_eq!(rt; short.bytes().len(), 40, "{workers} workers");
    let longer = expected.longer.bytes();
    assert!(rt; longer.starts_with(short.bytes()), "{workers} workers");
    raised_by_workers(rt, session, 3, workers, &OpenGate, tally)?;
    assert_eq!(rt; tally.count(), 12, "{workers} workers");
    let block = block_of(alloc, session, 3)?;
    assert!(rt;
        block.bytes() == expected.block.bytes(),
        "{workers} workers"
    );
    assert_stream(rt, alloc, session, 3, workers, longer, 12, tally)
}

#[test]
fn a_raise_goes_on_behind_a_sink_that_failed(rt: HostRuntime) -> Result<(), Fail> {
    let alloc = rt.alloc();
    let expected = texts_of_one_thread(alloc)?;
    for workers in [1_u32, 2, 9] {
        let mut session = Session::open_shared(&rt, alloc, cubic_job(alloc)?)?;
        let mut tally = Tally::new();
        let done = assert_fault(&rt, alloc, &mut session, workers, &expected, &mut tally);
        let _steps = tally.finish();
        session.close(&rt);
        done?;
    }
    Ok(())
}

#[test]
fn two_workers_meet_in_a_raise(rt: HostRuntime) -> Result<(), Fail> {
    let gate = Meeting::new();
    let mut session = quadratic(&rt, rt.alloc())?;
    let mut tally = Tally::new();
    let done = raised_by_workers(&rt, &mut session, 1, 2, &gate, &mut tally);
    let steps = tally.finish();
    session.close(&rt);
    done?;
    assert!(rt; gate.met());
    assert_eq!(rt; steps, 4);
    Ok(())
}

// By hand: both roots, 10 and -10, move by -x/2 modulo 101, and 1/2 is 51.
#[test]
fn two_workers_meet_beside_a_stream(rt: HostRuntime) -> Result<(), Fail> {
    let gate = Meeting::new();
    let mut sink = MemorySink::new(rt.alloc(), 4096, 64)?;
    let mut session = quadratic(&rt, rt.alloc())?;
    let mut tally = Tally::new();
    let done = streamed(&rt, &mut session, 1, 2, &gate, &mut sink, &mut tally);
    let steps = tally.finish();
    session.close(&rt);
    assert_eq!(rt; done?, None);
    assert!(rt; gate.met());
    assert_eq!(rt; steps, 4);
    let text =
        "stream 1\ndegree 0\n1 Y^1: 1\n1 Y^0: 91\n2 Y^1: 1\n2 Y^0: 10\ndegree 1\n1 Y^0: 51*x\n2 Y^0: 51*x\nend\n";
    assert!(rt; sink.bytes() == text.as_bytes());
    Ok(())
}
