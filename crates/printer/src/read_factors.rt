//! The lines of the factors.
ghost use Rattle.std.specs.Prelude.{◌≡◌, ◌≤◌, ◌<◌, ◌+◌, ℕ, length, map, IfOk, IfErr};
ghost use Rattle.ps_model.specs.Plain.{entry_of};
ghost use Rattle.parts.specs.Rings.{variables_of};
ghost use Rattle.printer.specs.ReadBlock.{variable_names, factor_forms, IsFirstUnlawful};
ghost use Rattle.printer.specs.ReadFactors.{factor_form, StopsIn, HasFactor, HasFactors};

use crate::read_lines::{read_power_lines, strip_head};
use parts::Ring;
use ps_model::{NameView, OutOfMemory, PlainTerm, Root};
use std::alloc::Global;

/// Reads the lines of the factor with this number, and adds its terms to a list. Where one is
/// unlawful it is an error: how many lawful ones are before it.
fn read_factor<'a, N: NameView>(
    names: &N,
    ring: Ring,
    d: u32,
    number: u64,
    root: Root,
    text: &'a [u8],
    terms: &mut Vec<PlainTerm>,
) -> Result<Result<&'a [u8], u32>, OutOfMemory>
    requires named { variables_of ring ≤ length (N.names names.now) }
    requires low { d ≤ 4095 }
    requires short { length text.now ≤ 1048577 }
    ensures read { IfOk result (λ r. IfOk r (λ rest.
        HasFactor ring (variable_names ring (N.names names.now)) d number root text.now
        (map entry_of terms.old.items) (map entry_of terms.new.items) rest.now)) }
    ensures stopped { IfOk result (λ r. IfErr r (λ k.
        StopsIn ring (variable_names ring (N.names names.now)) d (factor_form number root)
        text.now k)) }
    ensures long { IfOk result (λ r. IfOk r (λ rest.
        root.times + 1 + length rest.now < length text.now)) }
    ensures few { IfOk result (λ r. IfErr r (λ k. k ≤ length text.now)) }
{
    let Some(behind) = strip_head(text, number, root) else {
        return Ok(Err(0));
    };
    match read_power_lines(names, ring, d, root.times, behind, terms)? {
        Ok(rest) => Ok(Ok(rest)),
        Err(before) => Ok(Err(before + 1)),
    }
}

/// Reads the lines of all factors, up to the end of the text: the terms of each. Where one is
/// unlawful it is an error: how many lawful ones are before it.
pub fn read_factors<N: NameView>(
    alloc: Global,
    names: &N,
    ring: Ring,
    d: u32,
    roots: &[Root],
    text: &[u8],
) -> Result<Result<Vec<Vec<PlainTerm>>, u32>, OutOfMemory>
    requires named { variables_of ring ≤ length (N.names names.now) }
    requires low { d ≤ 4095 }
    requires short { length text.now ≤ 1048577 }
    ensures read { IfOk result (λ r. IfOk r (λ fs.
        HasFactors ring (variable_names ring (N.names names.now)) d 1 roots.now text.now
        (map (λ f. map entry_of f.items) fs.items))) }
    ensures stopped { IfOk result (λ r. IfErr r (λ k. (i : ℕ) →
        IsFirstUnlawful ring (variable_names ring (N.names names.now)) d (factor_forms 1 roots.now)
        text.now i (i + k))) }
    ensures few { IfOk result (λ r. IfErr r (λ k. k ≤ length text.now)) }
{
    let mut factors = Vec::new(alloc);
    let mut rest = text;
    let mut lines = 0u32;
    for i in 0..roots.len() {
        let root = roots[i];
        let mut terms = Vec::new(alloc);
        match read_factor(names, ring, d, i as u64 + 1, root, rest, &mut terms)? {
            Ok(behind) => rest = behind,
            Err(before) => return Ok(Err(lines + before)),
        }
        factors.push(terms)?;
        lines += root.times + 2;
    }
    if !rest.is_empty() {
        return Ok(Err(lines));
    }
    Ok(Ok(factors))
}
