//! The lines of a whole block.
ghost use Rattle.std.specs.Prelude.{◌≡◌, ◌≤◌, ◌++◌, ℕ, List, length, map};
ghost use Rattle.std.specs.Prelude.{IfOk, IfErr, IfSome, IfNone};
ghost use Rattle.ps_model.specs.Plain.{entry_of};
ghost use Rattle.parts.specs.Rings.{variables_of};
ghost use Rattle.printer.specs.ReadBlock.{variable_names, lead_forms, Form, IsFirstUnlawful};
ghost use Rattle.printer.specs.ReadWhole.{HasLead, HasBlock, IsStopped};

use crate::block_error::BlockError;
use crate::read_factors::read_factors;
use crate::read_lines::read_lead_line;
use crate::read_pieces::strip;
use crate::read_precision::read_precision;
use parts::{Ring, permitted};
use ps_model::{NameView, OutOfMemory, PlainTerm, Root};
use std::alloc::Global;

/// The precision of a block that was read, and the terms of its lead and of each factor, in the
/// order in which they are printed.
#[derive(Drop)]
pub struct BlockLines {
    pub precision: u32,
    pub lead: Vec<PlainTerm>,
    pub factors: Vec<Vec<PlainTerm>>,
}

/// Reads the line of the lead, where one is shown, and adds its terms to a list. Where the text
/// begins with no such line it is None.
fn read_lead<'a, N: NameView>(
    names: &N,
    ring: Ring,
    d: u32,
    lead: bool,
    text: &'a [u8],
    terms: &mut Vec<PlainTerm>,
) -> Result<Option<&'a [u8]>, OutOfMemory>
    requires named { variables_of ring ≤ length (N.names names.now) }
    requires low { d ≤ 4095 }
    ensures read { IfOk result (λ o. IfSome o (λ rest.
        HasLead ring (variable_names ring (N.names names.now)) d lead text.now
        (map entry_of terms.old.items) (map entry_of terms.new.items) rest.now)) }
    ensures none { IfOk result (λ o. IfNone o ((later : List Form) (i : ℕ) →
        IsFirstUnlawful ring (variable_names ring (N.names names.now)) d (lead_forms lead ++ later)
        text.now i i)) }
{
    if lead {
        read_lead_line(names, ring, d, text, terms)
    } else {
        Ok(Some(text))
    }
}

/// Reads the lines of a block with these roots, with a line of the lead where one is shown.
pub fn read_block_lines<N: NameView>(
    alloc: Global,
    names: &N,
    ring: Ring,
    roots: &[Root],
    lead: bool,
    text: &[u8],
) -> Result<BlockLines, BlockError>
    requires named { variables_of ring ≤ length (N.names names.now) }
    requires short { length text.now ≤ 1048577 }
    ensures read { IfOk result (λ b.
        HasBlock ring (variable_names ring (N.names names.now)) roots.now lead text.now b.precision
        (map entry_of b.lead.items) (map (λ f. map entry_of f.items) b.factors.items)) }
    ensures refused { IfErr result
        (IsStopped ring (variable_names ring (N.names names.now)) roots.now lead text.now) }
{
    let Some((precision, rest)) = read_precision(text) else {
        return Err(BlockError::NotABlock { line: 1 });
    };
    if !permitted(ring, precision) {
        return Err(BlockError::NotPermitted {
            precision: precision.min(4096),
        });
    }
    let Some(behind) = strip(rest, b"\n") else {
        return Err(BlockError::NotABlock { line: 1 });
    };
    let mut lead_terms = Vec::new(alloc);
    let Some(rest) = read_lead(names, ring, precision, lead, behind, &mut lead_terms)? else {
        return Err(BlockError::NotABlock { line: 2 });
    };
    let first = if lead { 3 } else { 2 };
    match read_factors(alloc, names, ring, precision, roots, rest)? {
        Ok(factors) => Ok(BlockLines {
            precision,
            lead: lead_terms,
            factors,
        }),
        Err(before) => Err(BlockError::NotABlock {
            line: first + before,
        }),
    }
}
