//! Monomials, terms, and the places of monomials among cells.
ghost use Rattle.std.specs.Prelude.{◌≡◌, ℕ, ◌+◌, ◌-◌, ◌*◌, ◌%◌, ◌^◌, ◌<◌, ◌≤◌, length, take, All};
ghost use Rattle.std.specs.Prelude.{IfOk, OnErr};
ghost use Rattle.std.specs.Prelude.{IfSome, IsNone, IsTrue, slice_index, slice_index_or};
ghost use Rattle.std.specs.Prelude.{List, ◌∷◌, ◌↔◌, map as map_list, Some, None};
ghost use Rattle.std.specs.Prelude.{if◌then◌else◌, []};
ghost use Rattle.std.specs.Prelude.{replicate};
ghost use Rattle.parts.specs.Places.{dot, size, multipliers, powers_at, monomials_at};
ghost use Rattle.parts.specs.Places.{IsDense};
ghost use Rattle.residue.specs.Residues.{number_of};
ghost use Rattle.parts.specs.Terms.{entry_of, finished, key_at, placed_term, GainsRows};

use crate::cells::{Fold, Placed, add_row};
use crate::counting::add_variable;
use crate::terms::{Monomial, Term};
use ps_model::OutOfMemory;
use residue::Modulus;
use std::alloc::Global;

/// Up to so many cells a sum is kept in cells however few of them have a monomial.
const FEW_CELLS: usize = 1 << 20;

/// More cells than this are refused.
const MOST_CELLS: usize = 1 << 24;

/// What a place counts for each power, and the number of places; None where there are too many.
pub fn make_sizes(degree: u32, weights: &[u16], sizes: &mut [usize]) -> Option<usize>
    requires as_many { length weights.now ≡ length sizes.old }
    requires positive { All (λ w. 0 < w) weights.now }
    ensures count { IfSome result (λ count. count ≡ size degree weights.now) }
    ensures few { IfSome result (λ count. count ≤ 2 ^ 24) }
    ensures many { IsNone result → 2 ^ 24 < size degree weights.now }
    ensures sizes { IfSome result (λ _. sizes.new ≡ multipliers degree weights.now) }
{
    let n = weights.len();
    let mut count: usize = 0;
    for k in 0..n {
        let j = n - 1 - k;
        sizes[j] = count;
        if k == 0 {
            count = 1;
        } else {
            let powers = (degree / u32::from(weights[j])) as usize + 1;
            count *= powers;
            if count > MOST_CELLS {
                return None;
            }
        }
    }
    Some(count)
}

/// How many monomials have a degree.
fn monomials_of_degree(weights: &[u16], degree: u32) -> u128
    requires positive { All (λ w. 0 < w) weights.now }
    requires low { degree ≤ 4095 }
    requires few { size degree weights.now ≤ 2 ^ 24 }
    ensures count { result ≡ monomials_at weights.now degree }
    ensures small { result ≤ 2 ^ 36 }
{
    let n = weights.len();
    let mut counts = [0; 4096];
    counts[0] = 1;
    for k in 0..n {
        add_variable(&mut counts, weights[n - 1 - k], degree);
    }
    counts[degree as usize]
}

/// Whether sums of a degree are kept in cells, and not as sorted terms.
pub fn is_dense(weights: &[u16], degree: u32) -> bool
    requires few { length weights.now ≤ 8 }
    requires positive { All (λ w. 0 < w) weights.now }
    requires low { degree ≤ 4095 }
    ensures { IsTrue result ↔ IsDense weights.now degree }
{
    let mut sizes = [0; 8];
    let Some(cells) = make_sizes(degree, weights, &mut sizes[..weights.len()]) else {
        return false;
    };
    cells <= FEW_CELLS || cells as u128 <= 8 * monomials_of_degree(weights, degree)
}

/// The place of a monomial.
pub fn place(sizes: &[usize], monomial: &Monomial) -> usize
    requires few { length sizes.now ≤ 8 }
    requires fits { dot sizes.now monomial.now.powers < 2 ^ 63 }
    ensures { result ≡ dot sizes.now monomial.now.powers }
{
    monomial.are_powers();
    let mut place = 0;
    for j in 0..sizes.len() {
        place += sizes[j] * monomial.power(j as u32) as usize;
    }
    place
}

/// Writes the powers at a place; false where no monomial has it.
pub fn fill_powers(
    powers: &mut [u16],
    weights: &[u16],
    sizes: &[usize],
    degree: u32,
    at: usize,
) -> bool
    requires as_many { length powers.old ≡ length weights.now }
    requires all_sizes { length sizes.now ≡ length weights.now }
    requires some { 0 < length weights.now }
    requires sizes { sizes.now ≡ multipliers degree weights.now }
    requires positive { All (λ w. 0 < w) weights.now }
    requires low { degree < 4096 }
    ensures { powers_at degree weights.now degree at ≡ (if result then Some powers.new else None) }
{
    let last = weights.len() - 1;
    let mut left = degree;
    let mut rest = at;
    for j in 0..last {
        let power = rest / sizes[j];
        let w = u32::from(weights[j]);
        if power > (left / w) as usize {
            return false;
        }
        rest %= sizes[j];
        left -= w * power as u32;
        powers[j] = power as u16;
    }
    let w = u32::from(weights[last]);
    powers[last] = (left / w) as u16;
    left % w == 0
}

/// Places terms as a row.
// Inlined, since that saves a quarter of a product of parts with one term each.
#[inline(always)]
pub fn place_terms(
    row: &mut Vec<Placed>,
    sizes: &[usize],
    terms: &[Term],
) -> Result<(), OutOfMemory>
    requires few { length sizes.now ≤ 8 }
    requires fits { All (λ t. dot sizes.now t.monomial.powers < 2 ^ 63) terms.now }
    ensures { IfOk result (λ _. row.new.items ≡ map_list (placed_term sizes.now) terms.now) }
{
    row.clear();
    for t in terms {
        let placed = Placed {
            place: place(sizes, &t.monomial),
            coefficient: t.coefficient,
        };
        if row.push(placed).is_err() {
            return Err(OutOfMemory);
        }
    }
    Ok(())
}

/// Adds the products of all terms and a row, or subtracts them.
pub fn add_rows(
    cells: &mut [u128],
    sizes: &[usize],
    terms: &[Term],
    row: &[Placed],
    minus: bool,
    modulus: Modulus,
    fold: &Fold,
)
    requires of_modulus { number_of fold.now.modulus ≡ number_of modulus }
    requires few { length sizes.now ≤ 8 }
    requires fits { All (λ t. dot sizes.now t.monomial.powers < 2 ^ 63) terms.now }
    requires below { All (λ t. t.coefficient < number_of modulus) terms.now }
    requires row_below { All (λ p. p.coefficient < 2 ^ 63) row.now }
    requires inside { All (λ t. All (λ p. dot sizes.now t.monomial.powers + p.place
        < length cells.old) row.now) terms.now }
    requires low { All (λ x. x < 2 ^ 127) cells.old }
    ensures low { All (λ x. x < 2 ^ 127) cells.new }
    ensures totals { GainsRows (number_of modulus) minus sizes.now terms.now row.now
        cells.old cells.new }
{
    for t in terms {
        let c = if minus {
            modulus.neg(t.coefficient)
        } else {
            t.coefficient
        };
        add_row(cells, place(sizes, &t.monomial), c, row, fold);
    }
}

/// The terms that cells hold.
pub fn collect_terms(
    alloc: Global,
    cells: &[u128],
    weights: &[u16],
    sizes: &[usize],
    degree: u32,
    modulus: Modulus,
) -> Result<Vec<Term>, OutOfMemory>
    requires all_sizes { length sizes.now ≡ length weights.now }
    requires some { 0 < length weights.now }
    requires few { length weights.now ≤ 8 }
    requires sizes { sizes.now ≡ multipliers degree weights.now }
    requires positive { All (λ w. 0 < w) weights.now }
    requires low { degree < 4096 }
    ensures { IfOk result (λ terms. map_list entry_of terms.items
        ≡ finished (number_of modulus) (key_at degree weights.now) 0 cells.now) }
{
    let n = weights.len();
    let mut terms = Vec::new(alloc);
    for k in 0..cells.len() {
        let at = cells.len() - 1 - k;
        let coefficient = modulus.reduce_wide(cells[at]);
        if coefficient != 0 {
            let mut powers = [0; 8];
            if fill_powers(&mut powers[..n], weights, sizes, degree, at) {
                let term = Term {
                    monomial: Monomial::of_powers(powers),
                    coefficient,
                };
                if terms.push(term).is_err() {
                    return Err(OutOfMemory);
                }
            }
        }
    }
    Ok(terms)
}

/// Makes the cells of a degree, all 0, where there are none.
pub fn make_cells(
    cells: &mut Vec<u128>,
    sizes: &mut [usize],
    weights: &[u16],
    degree: u32,
) -> Result<(), OutOfMemory>
    requires all_sizes { length sizes.old ≡ length weights.now }
    requires positive { All (λ w. 0 < w) weights.now }
    requires empty { cells.old.items ≡ [] }
    ensures cells { IfOk result (λ _. cells.new.items ≡ replicate (size degree weights.now) 0) }
    ensures sizes { IfOk result (λ _. sizes.new ≡ multipliers degree weights.now) }
    ensures few { IfOk result (λ _. size degree weights.now ≤ 2 ^ 24) }
    ensures err { OnErr result (cells.new.items ≡ []) }
{
    let Some(count) = make_sizes(degree, weights, sizes) else {
        return Err(OutOfMemory);
    };
    if cells.resize(count, 0).is_err() {
        return Err(OutOfMemory);
    }
    Ok(())
}
