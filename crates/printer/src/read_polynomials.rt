//! Polynomials of the terms that were read.
ghost use Rattle.std.specs.Prelude.{◌≡◌, ℕ, List, map, IfOk};
ghost use Rattle.std.specs.List.{All};
ghost use Rattle.ps_model.specs.Plain.{entry_of};
ghost use Rattle.ps_model.specs.PlainLists.{key_order};
ghost use Rattle.printer.specs.ReadTermLists.{IsTermList, IsSortingOf, HasTerms, HaveTerms};

use ps_model::{OutOfMemory, PlainPoly, PlainTerm};
use std::alloc::Global;
use std::cmp::Ordering;

/// The order of two terms in a polynomial.
fn by_key(t: &PlainTerm, u: &PlainTerm) -> Ordering
    ensures { result ≡ key_order t.now u.now }
{
    u.y.cmp(&t.y).then(u.powers.cmp(&t.powers))
}

/// The terms, in the order of their keys.
fn sorted(alloc: Global, terms: &[PlainTerm]) -> Result<Vec<PlainTerm>, OutOfMemory>
    requires { IsTermList (map entry_of terms.now) }
    ensures { IfOk result (λ v. IsSortingOf (map entry_of terms.now) (map entry_of v.items)) }
{
    let mut sorted = Vec::from_slice(alloc, terms)?;
    sorted.sort_by(by_key)?;
    Ok(sorted)
}

/// The polynomial with these terms.
pub fn polynomial(alloc: Global, terms: &[PlainTerm]) -> Result<PlainPoly, OutOfMemory>
    requires { IsTermList (map entry_of terms.now) }
    ensures { IfOk result (λ p. HasTerms p (map entry_of terms.now)) }
{
    let sorted = sorted(alloc, terms)?;
    let mut polynomial = PlainPoly::new(alloc);
    for i in 0..sorted.len() {
        polynomial.push(sorted[i])?;
    }
    Ok(polynomial)
}

/// The polynomials with these lists of terms.
pub fn polynomials(alloc: Global, lists: &[Vec<PlainTerm>]) -> Result<Vec<PlainPoly>, OutOfMemory>
    requires { All IsTermList (map (λ f. map entry_of f.items) lists.now) }
    ensures { IfOk result (λ v. HaveTerms v.items (map (λ f. map entry_of f.items) lists.now)) }
{
    let mut polynomials = Vec::new(alloc);
    for i in 0..lists.len() {
        polynomials.push(polynomial(alloc, &lists[i])?)?;
    }
    Ok(polynomials)
}
