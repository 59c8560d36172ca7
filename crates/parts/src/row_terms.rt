//! The terms of a part in rows of coefficients.
ghost use Rattle.std.specs.Prelude.{◌≡◌, ℕ, ◌+◌, ◌<◌, All, IfOk, slice_index, map as map_list};
ghost use Rattle.ps_model.specs.Sums.{total};
ghost use Rattle.parts.specs.SeriesRows.{rows_in, entry, pair_key, indicator, SameEntries};
ghost use Rattle.parts.specs.SeriesRows.{HasPlaceOf, IsPairTerm, IsHeld};
ghost use Rattle.parts.specs.Terms.{entry_of, TermsInOrder};

use crate::contiguous::{make_place, put};
use crate::terms::{Monomial, Term};
use ps_model::OutOfMemory;
use std::alloc::Global;

/// The row of a monomial in two variables.
fn row_of(monomial: &Monomial) -> usize
    ensures { result ≡ slice_index monomial.now.powers 1 }
{
    monomial.power(1) as usize
}

/// Its place in the row.
fn place_of(monomial: &Monomial) -> usize
    ensures { result ≡ slice_index monomial.now.powers 0 }
{
    monomial.power(0) as usize
}

/// Sees that there is a place for each term. No number changes, also where memory runs out.
pub fn make_places(
    alloc: Global,
    rows: &mut Vec<Vec<u64>>,
    terms: &[Term],
) -> Result<(), OutOfMemory>
    ensures same { SameEntries (rows_in rows.old.items) (rows_in rows.new.items) }
    ensures places { IfOk result (λ _. All (HasPlaceOf (rows_in rows.new.items)) terms.now) }
{
    for t in terms {
        make_place(alloc, rows, row_of(&t.monomial), place_of(&t.monomial))?;
    }
    Ok(())
}

/// Puts the terms' coefficients at their places, where 0 stands.
pub fn put_terms(rows: &mut Vec<Vec<u64>>, terms: &[Term])
    requires places { All (HasPlaceOf (rows_in rows.old.items)) terms.now }
    requires pairs { All IsPairTerm terms.now }
    requires order { TermsInOrder terms.now }
    requires empty { All (IsHeld (rows_in rows.old.items) (λ t. 0)) terms.now }
    ensures coefficients { (f p : ℕ) → entry (rows_in rows.new.items) f p
        ≡ entry (rows_in rows.old.items) f p
        + total (indicator (pair_key p f)) (map_list entry_of terms.now) }
    ensures low { (m : ℕ) → All (λ t. t.coefficient < m) terms.now
        → ((f p : ℕ) → entry (rows_in rows.old.items) f p < m)
        → (f p : ℕ) → entry (rows_in rows.new.items) f p < m }
{
    for t in terms {
        put(
            rows,
            row_of(&t.monomial),
            place_of(&t.monomial),
            t.coefficient,
        );
    }
}

/// Puts 0 in place of the terms' coefficients.
pub fn clear_terms(rows: &mut Vec<Vec<u64>>, terms: &[Term])
    requires places { All (HasPlaceOf (rows_in rows.old.items)) terms.now }
    requires pairs { All IsPairTerm terms.now }
    requires order { TermsInOrder terms.now }
    requires held { All (IsHeld (rows_in rows.old.items) (λ t. t.coefficient)) terms.now }
    ensures { (f p : ℕ) → entry (rows_in rows.old.items) f p
        ≡ entry (rows_in rows.new.items) f p
        + total (indicator (pair_key p f)) (map_list entry_of terms.now) }
{
    for t in terms {
        put(rows, row_of(&t.monomial), place_of(&t.monomial), 0);
    }
}
