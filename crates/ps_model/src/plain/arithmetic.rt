//! Sum, product and cut.
ghost use Rattle.std.specs.Prelude.{◌≡◌, ℕ, ◌<◌, nat_le, filter, IfOk, OnOk, All};
ghost use Rattle.std.specs.FinMap.{entries};
ghost use Rattle.ps_model.specs.Keys.{key_compare, add_keys};
ghost use Rattle.ps_model.specs.FiniteMaps.{sum_maps, product_maps};
ghost use Rattle.ps_model.specs.Plain.{entry_of, key_of};
ghost use Rattle.ps_model.specs.PlainLists.{HasProductsInRange, IsInRange, added, multiplied};
ghost use Rattle.ps_model.specs.PlainLists.{cut_map, plain_degree};

use crate::OutOfMemory;
use crate::plain::terms::product_key;
use crate::plain::{PlainPoly, PlainTerm};
use std::alloc::{AllocError, Global};

/// The sum of two polynomials modulo m. The time is quadratic in the terms.
pub fn plain_sum(
    alloc: Global,
    m: u64,
    a: &PlainPoly,
    b: &PlainPoly,
) -> Result<PlainPoly, OutOfMemory>
    requires { 0 < m }
    ensures { IfOk result (λ p. p ≡ sum_maps (key_compare 8) m a.now b.now) }
{
    let mut sum = PlainPoly::new(alloc);
    add_all(&mut sum, m, b)?;
    add_all(&mut sum, m, a)?;
    Ok(sum)
}

/// The product of two polynomials modulo m. The time is quadratic in the number of pairs of terms.
pub fn plain_product(
    alloc: Global,
    m: u64,
    a: &PlainPoly,
    b: &PlainPoly,
) -> Result<PlainPoly, OutOfMemory>
    requires modulus { 0 < m }
    requires in_range { HasProductsInRange (entries a.now) (entries b.now) }
    ensures { IfOk result (λ p. p ≡ product_maps (key_compare 8) (add_keys 8) m a.now b.now) }
{
    let mut product = PlainPoly::new(alloc);
    let rows = a.terms();
    for i in (0..rows.len()).rev() {
        add_multiple(&mut product, m, &rows[i], b)?;
    }
    Ok(product)
}

/// Adds a polynomial, modulo m.
fn add_all(sum: &mut PlainPoly, m: u64, p: &PlainPoly) -> Result<(), OutOfMemory>
    requires { 0 < m }
    ensures { OnOk result (sum.new ≡ added m (entries p.now) sum.old) }
{
    let terms = p.terms();
    for i in (0..terms.len()).rev() {
        let term = &terms[i];
        sum.add(m, term.coefficient as u128, term)?;
    }
    Ok(())
}

/// Adds a polynomial times a term, modulo m.
fn add_multiple(
    sum: &mut PlainPoly,
    m: u64,
    by: &PlainTerm,
    p: &PlainPoly,
) -> Result<(), OutOfMemory>
    requires modulus { 0 < m }
    requires in_range { All (λ e. IsInRange (add_keys 8 (key_of by.now) e.0)) (entries p.now) }
    ensures { OnOk result
        (sum.new ≡ added m (multiplied (entry_of by.now) (entries p.now)) sum.old) }
{
    let terms = p.terms();
    for i in (0..terms.len()).rev() {
        let term = &terms[i];
        let amount = by.coefficient as u128 * term.coefficient as u128;
        sum.add(m, amount, &product_key(by, term))?;
    }
    Ok(())
}

/// The sum of weight times power over the variables; a weight 0 counts as 1.
fn degree(weights: &[u16; 8], term: &PlainTerm) -> u64
    ensures { result ≡ plain_degree weights.now (key_of term.now) }
{
    let mut degree = 0;
    for i in 0..8 {
        degree += u64::from(weights[i].max(1)) * u64::from(term.powers[i]);
    }
    degree
}

/// The terms of degree at most d.
fn low_terms(
    alloc: Global,
    weights: &[u16; 8],
    terms: &[PlainTerm],
    d: u32,
) -> Result<Vec<PlainTerm>, AllocError>
    ensures { IfOk result
        (λ v. v.items ≡ filter (λ t. nat_le (plain_degree weights.now (key_of t)) d) terms.now) }
{
    terms
        .iter()
        .filter(|t| degree(weights, t) <= u64::from(d))
        .copied()
        .collect(alloc)
}

/// The entries of degree at most d by these weights; a weight 0 counts as 1.
pub fn plain_cut(
    alloc: Global,
    weights: &[u16; 8],
    a: &PlainPoly,
    d: u32,
) -> Result<PlainPoly, OutOfMemory>
    ensures { IfOk result (λ p. p ≡ cut_map weights.now d a.now) }
{
    let terms = low_terms(alloc, weights, a.terms(), d)?;
    Ok(PlainPoly { terms })
}
