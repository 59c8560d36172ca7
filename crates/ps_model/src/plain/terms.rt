//! Lists of terms in order: where a key stands, and a term put there.
ghost use Rattle.std.specs.Prelude.{◌≡◌, ℕ, ◌<◌, ◌≤◌, ◌==◌, if◌then◌else◌, OnOk, OnErr};
ghost use Rattle.std.specs.Prelude.{insert, remove, slice_set, vec_len};
ghost use Rattle.ps_model.specs.Keys.{key_compare, add_keys};
ghost use Rattle.ps_model.specs.FiniteMaps.{put};
ghost use Rattle.ps_model.specs.Plain.{key_of, entry_of, TermsInOrder};
ghost use Rattle.ps_model.specs.PlainLists.{map_of, key_order, IsPlaceOf, IsInRange};

use crate::OutOfMemory;
use crate::plain::PlainTerm;
use std::cmp::Ordering;

/// The order of two keys.
pub fn compare(a: &PlainTerm, b: &PlainTerm) -> Ordering
    ensures { result ≡ key_order a.now b.now }
{
    b.y.cmp(&a.y).then(b.powers.cmp(&a.powers))
}

/// Where a key stands, as `Ok`, or where it would, as `Err`. The time is linear.
pub fn place(terms: &[PlainTerm], key: &PlainTerm) -> Result<usize, usize>
    ensures { IsPlaceOf terms.now key.now result }
{
    for (i, term) in terms.iter().enumerate() {
        match compare(term, key) {
            Ordering::Less => {}
            Ordering::Equal => return Ok(i),
            Ordering::Greater => return Err(i),
        }
    }
    Err(terms.len())
}

/// Inserts a term at a place, unless its coefficient is 0. Where memory is refused, all stays as it
/// was.
fn insert_unless_zero(
    terms: &mut Vec<PlainTerm>,
    i: usize,
    term: PlainTerm,
) -> Result<(), OutOfMemory>
    requires { i ≤ vec_len terms.old }
    ensures ok { OnOk result (terms.new.items
        ≡ (if term.coefficient == 0 then terms.old.items else insert terms.old.items i term)) }
    ensures err { OnErr result (terms.new.items ≡ terms.old.items) }
{
    if term.coefficient == 0 {
        return Ok(());
    }
    match terms.insert(i, term) {
        Ok(()) => Ok(()),
        Err(_) => Err(OutOfMemory),
    }
}

/// Makes a term the one at a place; with coefficient 0 it takes away the one there.
fn replace(terms: &mut Vec<PlainTerm>, i: usize, term: PlainTerm)
    requires { i < vec_len terms.old }
    ensures { terms.new.items
        ≡ (if term.coefficient == 0 then remove terms.old.items i
        else slice_set terms.old.items i term) }
{
    if term.coefficient == 0 {
        terms.remove(i);
    } else {
        terms[i] = term;
    }
}

/// Makes a term's coefficient the one at its key; 0 takes the key away. Where memory is refused,
/// all stays as it was. The time is linear.
pub fn put_term(terms: &mut Vec<PlainTerm>, term: PlainTerm) -> Result<(), OutOfMemory>
    requires { TermsInOrder terms.old.items }
    ensures in_order { TermsInOrder terms.new.items }
    ensures ok { OnOk result (map_of terms.new.items
        ≡ put (key_compare 8) (map_of terms.old.items) (key_of term) term.coefficient) }
    ensures err { OnErr result (terms.new.items ≡ terms.old.items) }
{
    match place(terms, &term) {
        Ok(i) => {
            replace(terms, i, term);
            Ok(())
        }
        Err(i) => insert_unless_zero(terms, i, term),
    }
}

/// The key of a product of terms, with coefficient 0.
pub fn product_key(a: &PlainTerm, b: &PlainTerm) -> PlainTerm
    requires { IsInRange (add_keys 8 (key_of a.now) (key_of b.now)) }
    ensures { key_of result ≡ add_keys 8 (key_of a.now) (key_of b.now) }
{
    let mut powers = a.powers;
    for i in 0..8 {
        powers[i] += b.powers[i];
    }
    PlainTerm {
        powers,
        y: a.y + b.y,
        coefficient: 0,
    }
}
