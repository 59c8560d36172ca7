//! A block, written or read many times.
ghost use Rattle.std.specs.Prelude.{◌≤◌, length};
ghost use Rattle.printer.specs.View.{HasUpTo};

use anyhow::{Result, bail, ensure};
use ports::MemorySink;
use printer::{BlockError, BlockView, read_block, write_block};
use ps_model::Root;
use std::alloc::Global;

/// The most bytes of a text that is read as a block.
const LONGEST_TEXT: usize = 1_048_577;

/// What is done with a block.
#[derive(Clone, Copy)]
pub enum Way {
    /// It is written into memory.
    Write,
    /// Its text is read.
    Read,
}

/// How long a block is.
#[derive(Clone, Copy)]
pub struct Extent {
    pub terms: usize,
    pub bytes: usize,
}

/// Writes the block of a view into memory, so many times; the most bytes that it took.
///
/// What is written into a sink that keeps nothing is left out by the compiler of the program.
fn write_often<V: BlockView>(alloc: Global, view: &V, d: u32, times: u32) -> Result<usize>
    requires { HasUpTo (V.value view.now) d }
{
    let mut most = 0usize;
    for _ in 0..times {
        let mut sink = MemorySink::new(alloc, LONGEST_TEXT as u64, u32::MAX)?;
        write_block(&mut sink, view, d)?;
        most = most.max(sink.bytes().len());
    }
    Ok(most)
}

/// The number of terms of what is read of a text.
fn read_terms<V: BlockView>(
    alloc: Global,
    view: &V,
    roots: &[Root],
    text: &[u8],
) -> Result<usize, BlockError>
    requires { length text.now ≤ 1048577 }
{
    let block = read_block(alloc, view, view.ring(), view.has_lead(), roots, text)?;
    let mut terms = 0usize;
    for factor in &block.factors {
        terms = terms.saturating_add(factor.terms().len());
    }
    Ok(terms)
}

/// Reads a text, so many times.
fn read_often<V: BlockView>(
    alloc: Global,
    view: &V,
    roots: &[Root],
    text: &[u8],
    times: u32,
) -> Result<(), BlockError>
    requires { length text.now ≤ 1048577 }
{
    for _ in 0..times {
        read_terms(alloc, view, roots, text)?;
    }
    Ok(())
}

/// How long the block of precision d of a view with these roots is. It is written, or read, so many
/// times.
fn timed_known<V: BlockView>(
    alloc: Global,
    way: Way,
    view: &V,
    roots: &[Root],
    d: u32,
    times: u32,
) -> Result<Extent>
    requires { HasUpTo (V.value view.now) d }
{
    let mut sink = MemorySink::new(alloc, LONGEST_TEXT as u64, u32::MAX)?;
    write_block(&mut sink, view, d)?;
    let text = sink.bytes();
    ensure!(text.len() <= LONGEST_TEXT, "too long a block");
    let terms = read_terms(alloc, view, roots, text)?;
    let bytes = match way {
        Way::Write => write_often(alloc, view, d, times)?,
        Way::Read => {
            read_often(alloc, view, roots, text, times)?;
            text.len()
        }
    };
    Ok(Extent { terms, bytes })
}

/// The same, where the view is known up to d.
pub fn timed<V: BlockView>(
    alloc: Global,
    way: Way,
    view: &V,
    roots: &[Root],
    d: u32,
    times: u32,
) -> Result<Extent> {
    match view.known() {
        Some(known) if d <= known => timed_known(alloc, way, view, roots, d, times),
        _ => bail!("not known"),
    }
}
