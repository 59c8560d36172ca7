//! Blocks and degrees of streams, written from sessions. The factors are those of the tests of
//! `stages`.
use crate::made::{job_of, raised};
use ports::MemorySink;
use prepare::Tally;
use printer::{BlockView, write_block, write_degree};
use rows::OwnRow;
use session::Session;
use stages::StageItem;
use std::alloc::Global;
use std::process::Abort;
use std::test::Fail;

/// A job, a precision, and its text.
#[derive(Clone, Copy)]
struct Case<'c> {
    modulus: u64,
    names: &'c [&'c str],
    second_weight: u16,
    polynomial: &'c [u8],
    roots: &'c [(u64, u32)],
    to: u32,
    text: &'c str,
}

/// Writes the block of a session, where it is known up to there; whether it went without a fault.
pub fn write_known_block<V: BlockView>(
    sink: &mut MemorySink,
    session: &V,
    d: u32,
) -> Result<bool, Fail> {
    match session.known() {
        Some(known) if d <= known => Ok(write_block(sink, session, d).is_ok()),
        _ => Err("not known")?,
    }
}

/// Writes a degree of a session's stream, where it is known; whether it went without a fault.
fn write_known_degree(
    sink: &mut MemorySink,
    session: &Session<OwnRow<StageItem>>,
    r: u32,
) -> Result<bool, Fail> {
    match BlockView::known(session) {
        Some(known) if r <= known => Ok(write_degree(sink, session, r).is_ok()),
        _ => Err("not known")?,
    }
}

/// A session of the case's job, raised to its precision.
fn session_of(alloc: Global, case: &Case<'_>) -> Result<Session<OwnRow<StageItem>>, Fail> {
    let job = job_of(
        alloc,
        case.modulus,
        case.names,
        case.second_weight,
        case.polynomial,
        case.roots,
    )?;
    let mut session = Session::open(alloc, job)?;
    let mut tally = Tally::new();
    let done = raised(&mut session, case.to, &mut tally);
    let _steps = tally.finish();
    done?;
    Ok(session)
}

/// The session of the case has this block.
fn assert_block(rt: &impl Abort, alloc: Global, case: &Case<'_>) -> Result<(), Fail> {
    let session = session_of(alloc, case)?;
    let mut sink = MemorySink::new(alloc, 4096, 7)?;
    assert!(rt; write_known_block(&mut sink, &session, case.to)?);
    assert!(rt;
        sink.bytes() == case.text.as_bytes(),
        "of degree {}",
        case.to
    );
    Ok(())
}

#[test]
fn a_block_of_two_factors(rt: HostRuntime) -> Result<(), Fail> {
    let case = Case {
        modulus: 101,
        names: &["x"],
        second_weight: 1,
        polynomial: b"Y^2 + x*Y + 1",
        roots: &[(10, 1), (91, 1)],
        to: 2,
        text: "precision 2\nfactor 1 root 10 times 1\nY^1: 1\nY^0: 91 + 51*x + 77*x^2\nfactor 2 root 91 times 1\nY^1: 1\nY^0: 10 + 51*x + 24*x^2\n",
    };
    assert_block(&rt, rt.alloc(), &case)
}

#[test]
fn a_block_of_one_factor(rt: HostRuntime) -> Result<(), Fail> {
    let case = Case {
        modulus: 5,
        names: &["x"],
        second_weight: 1,
        polynomial: b"Y^2 + x",
        roots: &[(0, 2)],
        to: 3,
        text: "precision 3\nfactor 1 root 0 times 2\nY^2: 1\nY^1: 0\nY^0: 1*x\n",
    };
    assert_block(&rt, rt.alloc(), &case)
}

#[test]
fn a_block_with_a_lead(rt: HostRuntime) -> Result<(), Fail> {
    let case = Case {
        modulus: 7,
        names: &["x"],
        second_weight: 1,
        polynomial: b"(2+x)*Y^2 + x",
        roots: &[(0, 2)],
        to: 2,
        text: "precision 2\nlead: 2 + 1*x\nfactor 1 root 0 times 2\nY^2: 1\nY^1: 0\nY^0: 4*x + 5*x^2\n",
    };
    assert_block(&rt, rt.alloc(), &case)
}

#[test]
fn a_block_by_weights(rt: HostRuntime) -> Result<(), Fail> {
    let case = Case {
        modulus: 101,
        names: &["x", "y"],
        second_weight: 3,
        polynomial: b"Y + y + x^3 + x",
        roots: &[(0, 1)],
        to: 3,
        text: "precision 3\nfactor 1 root 0 times 1\nY^1: 1\nY^0: 1*x + 1*x^3 + 1*y\n",
    };
    assert_block(&rt, rt.alloc(), &case)
}

/// The session of the case has these degrees of its stream, up to its precision.
fn assert_degrees(rt: &impl Abort, alloc: Global, case: &Case<'_>) -> Result<(), Fail> {
    let session = session_of(alloc, case)?;
    let mut sink = MemorySink::new(alloc, 4096, 7)?;
    for r in 0..=case.to {
        assert!(rt; write_known_degree(&mut sink, &session, r)?);
    }
    assert!(rt; sink.bytes() == case.text.as_bytes());
    Ok(())
}

#[test]
fn degrees_of_two_factors(rt: HostRuntime) -> Result<(), Fail> {
    let case = Case {
        modulus: 101,
        names: &["x"],
        second_weight: 1,
        polynomial: b"Y^2 + x*Y + 1",
        roots: &[(10, 1), (91, 1)],
        to: 1,
        text: "degree 0\n1 Y^1: 1\n1 Y^0: 91\n2 Y^1: 1\n2 Y^0: 10\ndegree 1\n1 Y^0: 51*x\n2 Y^0: 51*x\n",
    };
    assert_degrees(&rt, rt.alloc(), &case)
}

#[test]
fn degrees_with_a_lead(rt: HostRuntime) -> Result<(), Fail> {
    let case = Case {
        modulus: 7,
        names: &["x"],
        second_weight: 1,
        polynomial: b"(2+x)*Y^2 + x",
        roots: &[(0, 2)],
        to: 2,
        text: "degree 0\nlead: 2\n1 Y^2: 1\ndegree 1\nlead: 1*x\n1 Y^0: 4*x\ndegree 2\n1 Y^0: 5*x^2\n",
    };
    assert_degrees(&rt, rt.alloc(), &case)
}

// Y + x^2 + x modulo 7, known to 2: its blocks of 2 and of 1, and one byte too little room.
#[test]
fn blocks_up_to_what_is_known(rt: HostRuntime) -> Result<(), Fail> {
    let alloc = rt.alloc();
    let case = Case {
        modulus: 7,
        names: &["x"],
        second_weight: 1,
        polynomial: b"Y + x^2 + x",
        roots: &[(0, 1)],
        to: 2,
        text: "precision 1\nfactor 1 root 0 times 1\nY^1: 1\nY^0: 1*x\n",
    };
    let session = session_of(alloc, &case)?;
    let mut sink = MemorySink::new(alloc, 4096, 64)?;
    assert!(rt; write_known_block(&mut sink, &session, 1)?);
    assert!(rt; sink.bytes() == case.text.as_bytes());
    let mut short = MemorySink::new(alloc, 49, 64)?;
    assert!(rt; !write_known_block(&mut short, &session, 1)?);
    assert!(rt;
        short.bytes() == b"precision 1\nfactor 1 root 0 times 1\nY^1: 1\nY^0: 1".as_slice()
    );
    Ok(())
}
