//! Sorted lists of terms: sums and multiples.
ghost use Rattle.std.specs.Prelude.{◌≡◌, ◌+◌, ◌*◌, ◌<◌, ◌≤◌, ◌++◌, length, drop, IfOk, OnOk};
ghost use Rattle.std.specs.Prelude.{map as map_list};
ghost use Rattle.std.specs.Prelude.{unwrap_or};
ghost use Rattle.std.specs.FinMap.{find};
ghost use Rattle.ps_model.specs.Keys.{key_compare};
ghost use Rattle.ps_model.specs.Sums.{multiples};
ghost use Rattle.parts.specs.Terms.{entry_of, key_of, TermsInOrder};
ghost use Rattle.parts.specs.TermLists.{AreTermsOf, IsNext, IsTotal, unless_zero};

use crate::rings::Ring;
use crate::terms::{Monomial, Term};
use ps_model::OutOfMemory;
use std::alloc::Global;
use std::cmp::Ordering;

/// Puts a term behind the others, unless its coefficient is 0.
pub fn push_nonzero(terms: &mut Vec<Term>, term: Term) -> Result<(), OutOfMemory>
    ensures { OnOk result (terms.new.items ≡ terms.old.items ++ unless_zero term) }
{
    if term.coefficient != 0 && terms.push(term).is_err() {
        return Err(OutOfMemory);
    }
    Ok(())
}

/// The next term of a sum, and how many terms of each list are done with it.
#[derive(Clone, Copy)]
struct Next {
    term: Term,
    left: usize,
    right: usize,
}

/// The next term of the sum of what two lists have from two places on.
fn next_term(ring: Ring, degree: u32, a: &[Term], b: &[Term], left: usize, right: usize) -> Next
    requires some { left + right < length a.now + length b.now }
    requires left_inside { left ≤ length a.now }
    requires right_inside { right ≤ length b.now }
    requires a_terms { AreTermsOf ring degree (drop left a.now) }
    requires b_terms { AreTermsOf ring degree (drop right b.now) }
    ensures further { left + right < result.left + result.right }
    ensures left_inside { result.left ≤ length a.now }
    ensures right_inside { result.right ≤ length b.now }
    ensures next { IsNext ring degree (drop left a.now) (drop right b.now)
        result.term (drop result.left a.now) (drop result.right b.now) }
{
    if left == a.len() {
        return Next {
            term: b[right],
            left,
            right: right + 1,
        };
    }
    if right == b.len() {
        return Next {
            term: a[left],
            left: left + 1,
            right,
        };
    }
    let x = a[left];
    let y = b[right];
    match x.monomial.order(&y.monomial) {
        Ordering::Less => Next {
            term: x,
            left: left + 1,
            right,
        },
        Ordering::Greater => Next {
            term: y,
            left,
            right: right + 1,
        },
        Ordering::Equal => Next {
            term: Term {
                monomial: x.monomial,
                coefficient: ring.modulus().add(x.coefficient, y.coefficient),
            },
            left: left + 1,
            right: right + 1,
        },
    }
}

/// The sum of two lists of terms, by merging them.
pub fn merged(
    alloc: Global,
    ring: Ring,
    degree: u32,
    a: &[Term],
    b: &[Term],
) -> Result<Vec<Term>, OutOfMemory>
    requires a_terms { AreTermsOf ring degree a.now }
    requires b_terms { AreTermsOf ring degree b.now }
    ensures { IfOk result (λ terms. IsTotal ring degree
        (map_list entry_of a.now ++ map_list entry_of b.now) terms.items) }
{
    let mut terms = Vec::new(alloc);
    let mut left = 0;
    let mut right = 0;
    while left < a.len() || right < b.len() {
        let next = next_term(ring, degree, a, b, left, right);
        push_nonzero(&mut terms, next.term)?;
        left = next.left;
        right = next.right;
    }
    Ok(terms)
}

/// c times a list of terms.
pub fn scaled_terms(
    alloc: Global,
    ring: Ring,
    degree: u32,
    a: &[Term],
    c: u64,
) -> Result<Vec<Term>, OutOfMemory>
    requires a_terms { AreTermsOf ring degree a.now }
    ensures { IfOk result (λ terms. IsTotal ring degree
        (multiples c (map_list entry_of a.now)) terms.items) }
{
    let modulus = ring.modulus();
    let mut terms = Vec::new(alloc);
    for t in a {
        let coefficient = modulus.reduce_wide(u128::from(c) * u128::from(t.coefficient));
        let term = Term {
            monomial: t.monomial,
            coefficient,
        };
        push_nonzero(&mut terms, term)?;
    }
    Ok(terms)
}

/// The coefficient at a monomial, 0 where it is absent.
pub fn find_coefficient(terms: &[Term], at: &Monomial) -> u64
    requires { TermsInOrder terms.now }
    ensures { result
        ≡ unwrap_or (find (key_compare 8) (key_of at.now) (map_list entry_of terms.now)) 0 }
{
    let mut low = 0;
    let mut high = terms.len();
    while low < high {
        let middle = low + (high - low) / 2;
        let term = terms[middle];
        match term.monomial.order(at) {
            Ordering::Less => low = middle + 1,
            Ordering::Greater => high = middle,
            Ordering::Equal => return term.coefficient,
        }
    }
    0
}
