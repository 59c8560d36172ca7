//! Sessions that are raised in rounds, by several workers.
ghost use Rattle.std.specs.Prelude.{◌≡◌, IfOk, length};
ghost use Rattle.ps_model.specs.AcceptedJob.{IsAccepted};

use crate::made::{job_of, raised};
use crate::printing::write_known_block;
use intake::Job;
use parts::permitted;
use ports::MemorySink;
use prepare::Tally;
use printer::BlockView;
use rows::OwnRow;
use session::Session;
use stages::StageItem;
use std::alloc::Global;
use std::marker::Sync;
use std::process::Abort;
use std::test::Fail;
use std::thread::Threads;

/// The job of a cubic polynomial with three factors.
pub fn cubic_job(alloc: Global) -> Result<Job, Fail>
    ensures accepted { IfOk result (λ job. IsAccepted job.job) }
    ensures names { IfOk result (λ job. length job.names ≡ job.job.n) }
{
    let roots = &[(0, 1), (1, 1), (2, 1)];
    job_of(
        alloc,
        101,
        &["x", "y"],
        1,
        b"Y*(Y-1)*(Y-2) + x + y*Y",
        roots,
    )
}

/// A session of that job.
fn cubic(alloc: Global) -> Result<Session<OwnRow<StageItem>>, Fail> {
    Ok(Session::open(alloc, cubic_job(alloc)?)?)
}

/// Raises a session in rounds, to a degree that may be asked for.
fn raised_in_rounds(
    rt: &(impl Threads + Sync),
    session: &mut Session<OwnRow<StageItem>>,
    to: u32,
    workers: u32,
    tally: &mut Tally,
) -> Result<(), Fail> {
    if !permitted(session.ring(), to) || tally.count() > 1000 || workers < 1 || workers > 64 {
        return Err("not to be raised")?;
    }
    session.raise_rounds(rt, to, workers, tally)?;
    Ok(())
}

/// The block of this precision of a session.
pub fn block_of<V: BlockView>(
    alloc: Global,
    session: &V,
    precision: u32,
) -> Result<MemorySink, Fail> {
    let mut sink = MemorySink::new(alloc, 4096, 64)?;
    if write_known_block(&mut sink, session, precision)? {
        Ok(sink)
    } else {
        Err("no room")?
    }
}

/// Raises a session in rounds to 1, twice, and then to 3, and compares it with this text of precision 1
/// and this block of precision 3.
fn assert_rounds(
    rt: &(impl Abort + Threads + Sync),
    alloc: Global,
    session: &mut Session<OwnRow<StageItem>>,
    workers: u32,
    text: &str,
    block: &MemorySink,
    tally: &mut Tally,
) -> Result<(), Fail> {
    for _ in 0..2_u32 {
        raised_in_rounds(rt, session, 1, workers, tally)?;
        assert_eq!(rt; tally.count(), 6, "{workers} workers");
    }
    assert!(rt;
        block_of(alloc, session, 1)?.bytes() == text.as_bytes(),
        "{workers} workers"
    );
    raised_in_rounds(rt, session, 3, workers, tally)?;
    assert_eq!(rt; tally.count(), 12, "{workers} workers");
    assert!(rt;
        block_of(alloc, session, 3)?.bytes() == block.bytes(),
        "{workers} workers"
    );
    Ok(())
}

// By hand for precision 1: f is Y * (Y-1) * (Y-2) + x + y * Y, and the derivatives at 0, 1 and 2 are 2, -1
// and 2, so the roots move by -x/2, x + y and -(x + 2*y)/2; 1/2 is 51 modulo 101. For precision 3 as one
// thread finds it.
#[test]
fn rounds_give_what_one_thread_gives(rt: HostRuntime) -> Result<(), Fail> {
    let alloc = rt.alloc();
    let mut plain = cubic(alloc)?;
    let mut tally = Tally::new();
    let done = raised(&mut plain, 3, &mut tally);
    assert_eq!(rt; tally.finish(), 12);
    done?;
    let block = block_of(alloc, &plain, 3)?;
    let text =
        "precision 1\nfactor 1 root 0 times 1\nY^1: 1\nY^0: 51*x\nfactor 2 root 1 times 1\nY^1: 1\nY^0: 100 + 100*x + 100*y\nfactor 3 root 2 times 1\nY^1: 1\nY^0: 99 + 51*x + 1*y\n";
    for workers in [1_u32, 2, 3, 9] {
        let mut session = cubic(alloc)?;
        let mut steps = Tally::new();
        let done = assert_rounds(&rt, alloc, &mut session, workers, text, &block, &mut steps);
        let _steps = steps.finish();
        done?;
    }
    Ok(())
}
