//! Blocks, read.
ghost use Rattle.std.specs.Prelude.{◌≡◌, ◌≤◌, ℕ, List, Option, length, map, is_some};
ghost use Rattle.std.specs.Prelude.{IfOk, IfErr, IfSome, MatchResult};
ghost use Rattle.ps_model.specs.Plain.{entry_of};
ghost use Rattle.parts.specs.Rings.{variables_of};
ghost use Rattle.printer.specs.ReadBlock.{variable_names};
ghost use Rattle.printer.specs.ReadTermLists.{IsTermList, HasTerms};
ghost use Rattle.printer.specs.ReadText.{Coefficients, IsBlock, IsRefused};
ghost use Rattle.printer.specs.declared.block_error.BlockError.TheVariants.{OutOfMemory as NoMemory};

use crate::block_error::BlockError;
use crate::read_polynomials::{polynomial, polynomials};
use crate::read_whole::read_block_lines;
use parts::Ring;
use ps_model::{NameView, OutOfMemory, PlainPoly, PlainTerm, Root};
use std::alloc::Global;

/// A block that was read.
#[derive(Drop)]
pub struct Block {
    /// The greatest degree of which it tells terms.
    pub precision: u32,
    /// The lead, where it is shown: a polynomial without Y.
    pub lead: Option<PlainPoly>,
    /// The factors, one for each root, in the roots' order.
    pub factors: Vec<PlainPoly>,
}

/// The lead with these terms, where it is shown.
fn shown_lead(
    alloc: Global,
    lead: bool,
    terms: &[PlainTerm],
) -> Result<Option<PlainPoly>, OutOfMemory>
    requires { IsTermList (map entry_of terms.now) }
    ensures shown { IfOk result (λ o. is_some o ≡ lead) }
    ensures terms { IfOk result (λ o. IfSome o (λ p. HasTerms p (map entry_of terms.now))) }
{
    if lead {
        Ok(Some(polynomial(alloc, terms)?))
    } else {
        Ok(None)
    }
}

/// Reads the text of a block of factors with these roots, in the ring's variables by their names:
/// the text that `write_block` writes. It has a line of the lead exactly where `lead` is true.
///
/// Numbers have no leading zeros, each coefficient is a residue other than 0, and terms stand in
/// the order in which they are written. The time grows with the text's length, and as that of a
/// sort with the number of terms of a factor; nothing is read twice.
pub fn read_block<N: NameView>(
    alloc: Global,
    names: &N,
    ring: Ring,
    lead: bool,
    roots: &[Root],
    text: &[u8],
) -> Result<Block, BlockError>
    requires named { variables_of ring ≤ length (N.names names.now) }
    requires short { length text.now ≤ 1048577 }
    ensures block { IfOk result (λ b. IsBlock ring (variable_names ring (N.names names.now))
        roots.now lead text.now b.precision b.lead b.factors.items) }
    ensures only { (D : ℕ) (l : Option Coefficients) (fs : List Coefficients)
        → IsBlock ring (variable_names ring (N.names names.now)) roots.now lead text.now D l fs
        → MatchResult result (λ b. (b.precision ≡ D) × (b.lead ≡ l) × (b.factors.items ≡ fs))
        (λ e. e ≡ NoMemory) }
    ensures refused { IfErr result
        (IsRefused ring (variable_names ring (N.names names.now)) roots.now lead text.now) }
{
    let lines = match read_block_lines(alloc, names, ring, roots, lead, text) {
        Ok(lines) => lines,
        Err(refusal) => return Err(refusal),
    };
    let shown = shown_lead(alloc, lead, &lines.lead)?;
    let factors = polynomials(alloc, &lines.factors)?;
    Ok(Block {
        precision: lines.precision,
        lead: shown,
        factors,
    })
}
