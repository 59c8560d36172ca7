//! Blocks that are read: texts by hand, in x and y modulo 101.
ghost use Rattle.std.specs.Prelude.{◌≡◌, ◌≤◌, length};

use crate::made::names_of;
use parts::Ring;
use printer::{Block, BlockError, read_block};
use ps_model::{PlainPoly, PlainTerm, Root};
use residue::Modulus;
use std::alloc::Global;
use std::process::Abort;
use std::test::Fail;

/// Reads a text as the block of one factor, with this root.
fn read(
    alloc: Global,
    lead: bool,
    root: Root,
    text: &[u8],
) -> Result<Result<Block, BlockError>, Fail> {
    let names = names_of(alloc, &["x", "y"])?;
    if names.len() == 0 || text.len() > 4096 {
        return Err("no text")?;
    }
    let ring = Ring::new(Modulus::new(101)?, names.len());
    Ok(read_block(alloc, &names, ring, lead, &[root], text))
}

/// A simple root at 0.
fn origin() -> Root {
    Root { value: 0, times: 1 }
}

/// How often the first terms of `Y^y` in x and y are there.
fn at(p: &PlainPoly, x: u16, y: u16, main: u32) -> u64 {
    p.coefficient(&PlainTerm {
        powers: [x, y, 0, 0, 0, 0, 0, 0],
        y: main,
        coefficient: 0,
    })
}

/// The text is refused in this way.
fn assert_refused(
    rt: &impl Abort,
    alloc: Global,
    lead: bool,
    text: &[u8],
    refusal: BlockError,
) -> Result<(), Fail> {
    match read(alloc, lead, origin(), text)? {
        Ok(_) => Err("read")?,
        Err(e) => assert!(rt; e == refusal),
    }
    Ok(())
}

// of Y + x + 2*y + 3*x^2, with terms of one degree
#[test]
fn a_block_is_read(rt: HostRuntime) -> Result<(), Fail> {
    let text = b"precision 2\nfactor 1 root 0 times 1\nY^1: 1\nY^0: 1*x + 2*y + 3*x^2\n";
    let block = match read(rt.alloc(), false, origin(), text)? {
        Ok(block) => block,
        Err(_) => return Err("refused")?,
    };
    assert!(&rt; block.precision == 2 && block.lead.is_none());
    if let [factor] = block.factors.as_slice() {
        assert!(&rt; factor.terms().len() == 4 && at(factor, 0, 0, 1) == 1);
        assert!(&rt; at(factor, 1, 0, 0) == 1 && at(factor, 0, 1, 0) == 2);
        assert!(&rt; at(factor, 2, 0, 0) == 3);
    } else {
        return Err("not one factor")?;
    }
    Ok(())
}

#[test]
fn a_lead_is_read(rt: HostRuntime) -> Result<(), Fail> {
    let text = b"precision 1\nlead: 2 + 5*x\nfactor 1 root 0 times 1\nY^1: 1\nY^0: 0\n";
    let block = match read(rt.alloc(), true, origin(), text)? {
        Ok(block) => block,
        Err(_) => return Err("refused")?,
    };
    if let Some(lead) = &block.lead {
        assert!(&rt; lead.terms().len() == 2);
        assert!(&rt; at(lead, 0, 0, 0) == 2 && at(lead, 1, 0, 0) == 5);
    } else {
        return Err("no lead")?;
    }
    Ok(())
}

#[test]
fn leading_zeros_are_refused(rt: HostRuntime) -> Result<(), Fail> {
    let text = b"precision 1\nfactor 1 root 0 times 1\nY^1: 1\nY^0: 077*x\n";
    assert_refused(
        &rt,
        rt.alloc(),
        false,
        text,
        BlockError::NotABlock { line: 4 },
    )
}

#[test]
fn a_line_too_many_is_refused(rt: HostRuntime) -> Result<(), Fail> {
    let text = b"precision 0\nfactor 1 root 0 times 1\nY^1: 1\nY^0: 0\n\n";
    assert_refused(
        &rt,
        rt.alloc(),
        false,
        text,
        BlockError::NotABlock { line: 5 },
    )
}

// a line without its newline, and a text that ends behind one
#[test]
fn an_early_end_is_refused(rt: HostRuntime) -> Result<(), Fail> {
    let alloc = rt.alloc();
    let refusal = BlockError::NotABlock { line: 3 };
    let text = b"precision 0\nfactor 1 root 0 times 1\nY^1: 1";
    assert_refused(&rt, alloc, false, text, refusal)?;
    let text = b"precision 0\nfactor 1 root 0 times 1\n";
    assert_refused(&rt, alloc, false, text, refusal)?;
    assert_refused(&rt, alloc, false, b"", BlockError::NotABlock { line: 1 })
}

// with its newline and without, however long, and not with leading zeros
#[test]
fn a_precision_that_is_not_permitted(rt: HostRuntime) -> Result<(), Fail> {
    let alloc = rt.alloc();
    let above = BlockError::NotPermitted { precision: 4096 };
    assert_refused(&rt, alloc, false, b"precision 4096", above)?;
    assert_refused(
        &rt,
        alloc,
        false,
        b"precision 18446744073709551617\nand more",
        above,
    )?;
    assert_refused(
        &rt,
        alloc,
        false,
        b"precision 300\n",
        BlockError::NotPermitted { precision: 300 },
    )?;
    assert_refused(
        &rt,
        alloc,
        false,
        b"precision 04096\n",
        BlockError::NotABlock { line: 1 },
    )
}

#[test]
fn a_lead_is_expected_where_it_is_shown(rt: HostRuntime) -> Result<(), Fail> {
    let alloc = rt.alloc();
    let second = BlockError::NotABlock { line: 2 };
    let text = b"precision 0\nfactor 1 root 0 times 1\nY^1: 1\nY^0: 0\n";
    assert_refused(&rt, alloc, true, text, second)?;
    let text = b"precision 0\nlead: 2\nfactor 1 root 0 times 1\nY^1: 1\nY^0: 0\n";
    assert_refused(&rt, alloc, false, text, second)
}
