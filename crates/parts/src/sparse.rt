//! Sums of products as sorted terms: less memory than cells where few places have a monomial.
ghost use Rattle.std.specs.Prelude.{◌+◌, ◌≤◌, [], ◌∷◌, ◌++◌, IfOk};
ghost use Rattle.std.specs.Prelude.{map as map_list};
ghost use Rattle.ps_model.specs.Keys.{add_keys};
ghost use Rattle.ps_model.specs.Sums.{multiples, products};
ghost use Rattle.parts.specs.Rings.{modulus_of};
ghost use Rattle.parts.specs.Terms.{entry_of, key_of, sign};
ghost use Rattle.parts.specs.TermLists.{AreTermsOf, IsTotal, row_of};

use crate::merging::{merged, push_nonzero, scaled_terms};
use crate::rings::Ring;
use crate::terms::Term;
use ps_model::OutOfMemory;
use std::alloc::Global;

/// The products of a monomial and a number with each term of a list.
fn row_terms(
    alloc: Global,
    ring: Ring,
    left: u32,
    right: u32,
    x: &Term,
    c: u64,
    terms: &[Term],
) -> Result<Vec<Term>, OutOfMemory>
    requires low { left + right ≤ 4095 }
    requires x_terms { AreTermsOf ring left (x.now ∷ []) }
    requires terms { AreTermsOf ring right terms.now }
    ensures { IfOk result (λ row. IsTotal ring (left + right)
        (row_of (key_of x.now.monomial) c terms.now) row.items) }
{
    let modulus = ring.modulus();
    let mut row = Vec::new(alloc);
    for t in terms {
        let coefficient = modulus.reduce_wide(u128::from(c) * u128::from(t.coefficient));
        let term = Term {
            monomial: x.monomial.times(&t.monomial),
            coefficient,
        };
        push_nonzero(&mut row, term)?;
    }
    Ok(row)
}

/// A list of terms with the product of two others added, or subtracted.
pub fn with_products(
    alloc: Global,
    ring: Ring,
    left: u32,
    right: u32,
    sum: &[Term],
    a: &[Term],
    b: &[Term],
    minus: bool,
) -> Result<Vec<Term>, OutOfMemory>
    requires low { left + right ≤ 4095 }
    requires sum_terms { AreTermsOf ring (left + right) sum.now }
    requires a_terms { AreTermsOf ring left a.now }
    requires b_terms { AreTermsOf ring right b.now }
    ensures { IfOk result (λ terms. IsTotal ring (left + right)
        (map_list entry_of sum.now ++ multiples (sign (modulus_of ring) minus)
        (products (add_keys 8) (map_list entry_of a.now) (map_list entry_of b.now)))
        terms.items) }
{
    let modulus = ring.modulus();
    let Ok(mut terms) = sum.to_vec(alloc) else {
        return Err(OutOfMemory);
    };
    for x in a {
        let c = if minus {
            modulus.neg(x.coefficient)
        } else {
            x.coefficient
        };
        let row = row_terms(alloc, ring, left, right, x, c, b)?;
        terms = merged(alloc, ring, left + right, &terms, &row)?;
    }
    Ok(terms)
}

/// A list of terms with c times another added.
pub fn with_multiple_of(
    alloc: Global,
    ring: Ring,
    degree: u32,
    sum: &[Term],
    a: &[Term],
    c: u64,
) -> Result<Vec<Term>, OutOfMemory>
    requires sum_terms { AreTermsOf ring degree sum.now }
    requires a_terms { AreTermsOf ring degree a.now }
    ensures { IfOk result (λ terms. IsTotal ring degree
        (map_list entry_of sum.now ++ multiples c (map_list entry_of a.now)) terms.items) }
{
    let row = scaled_terms(alloc, ring, degree, a, c)?;
    let terms = merged(alloc, ring, degree, sum, &row)?;
    Ok(terms)
}
