//! The terms of a block's polynomial at one power of Y, by degree, beside the parts of a view.
ghost use Rattle.std.specs.Prelude.{◌≡◌, ◌≤◌, ◌<◌, ◌↔◌, ℕ, suc, [], ◌∷◌, ◌++◌, map, length};
ghost use Rattle.std.specs.Prelude.{slice_index, slice_index_or, slice_set, vec_len, replicate};
ghost use Rattle.std.specs.Prelude.{IfOk, IfSome, IfNone, OnOk, IsTrue};
ghost use Rattle.std.specs.List.{All};
ghost use Rattle.ps_model.specs.Plain.{key_of, entry_of};
ghost use Rattle.ps_model.specs.PlainLists.{plain_degree, without_y};
ghost use Rattle.parts.specs.Rings.{eight_weights};
ghost use Rattle.parts.specs.Terms.{entry_of as part_entry};
ghost use Rattle.printer.specs.Rows.{terms_in};
ghost use Rattle.comparison.specs.Compared.{Has, AreByDegree, IsSameAt};

use crate::coefficients::{Compared, part_at};
use parts::{Part, Ring, Term};
use printer::BlockView;
use ps_model::{OutOfMemory, PlainTerm};
use std::alloc::Global;

/// The weight of variable i, 1 past the ring's variables.
fn weight(ring: Ring, i: u32) -> u32
    requires { i < 8 }
    ensures weight { result ≡ slice_index (eight_weights ring) i }
    ensures few { result ≤ 64 }
{
    if i < ring.n() { ring.weight(i) } else { 1 }
}

/// The sum of weight times power over the variables.
fn degree(ring: Ring, term: &PlainTerm) -> u32
    ensures { result ≡ plain_degree (eight_weights ring) (key_of term.now) }
{
    let mut degree = 0;
    for i in 0..8_u32 {
        degree += weight(ring, i) * u32::from(term.powers[i as usize]);
    }
    degree
}

/// An empty list for each degree from 0 to d.
fn empty_lists(alloc: Global, d: u32) -> Result<Vec<Vec<PlainTerm>>, OutOfMemory>
    requires { d ≤ 4095 }
    ensures { IfOk result (λ v. map (λ list. list.items) v.items ≡ replicate (suc d) []) }
{
    let mut lists = Vec::new(alloc);
    for _r in 0..d + 1 {
        lists.push(Vec::new(alloc))?;
    }
    Ok(lists)
}

/// Puts a term behind those of the list at place r.
fn add(lists: &mut Vec<Vec<PlainTerm>>, r: usize, term: PlainTerm) -> Result<(), OutOfMemory>
    requires { r < vec_len lists.old }
    ensures { OnOk result (map (λ list. list.items) lists.new.items
        ≡ slice_set (map (λ list. list.items) lists.old.items) r
        (slice_index_or (map (λ list. list.items) lists.old.items) r [] ++ term ∷ [])) }
{
    lists[r].push(term)?;
    Ok(())
}

/// The terms with `Y^power` among terms of degree at most d: a list for each degree from 0 to d.
pub fn by_degree(
    alloc: Global,
    ring: Ring,
    terms: &[PlainTerm],
    power: u32,
    d: u32,
) -> Result<Vec<Vec<PlainTerm>>, OutOfMemory>
    requires permitted { d ≤ 4095 }
    requires low { All (λ t. plain_degree (eight_weights ring) (key_of t) ≤ d) terms.now }
    ensures { IfOk result
        (λ v. AreByDegree ring power d terms.now (map (λ list. list.items) v.items)) }
{
    let mut lists = empty_lists(alloc, d)?;
    for term in terms {
        if term.y == power {
            add(&mut lists, degree(ring, term) as usize, *term)?;
        }
    }
    Ok(lists)
}

/// Whether two terms have the same powers of the variables and the same coefficient.
fn same_term(t: &PlainTerm, u: &Term) -> bool
    ensures { IsTrue result ↔ (without_y (entry_of t.now) ≡ part_entry u.now) }
{
    for i in 0..8_u32 {
        if u32::from(t.powers[i as usize]) != u.monomial.power(i) {
            return false;
        }
    }
    t.coefficient == u.coefficient
}

/// Whether terms, without their power of Y, are those of a part.
fn same_terms(list: &[PlainTerm], part: &Part) -> bool
    ensures { IsTrue result ↔ (map (λ t. without_y (entry_of t)) list.now ≡ terms_in part.now) }
{
    let terms = part.terms();
    if list.len() != terms.len() {
        return false;
    }
    for (i, t) in list.iter().enumerate() {
        if !same_term(t, &terms[i]) {
            return false;
        }
    }
    true
}

/// The least degree at which the terms differ from the view's part at `Y^power`.
pub fn first_degree<V: BlockView>(
    view: &V,
    of: Compared,
    power: u32,
    lists: &[Vec<PlainTerm>],
) -> Option<u32>
    requires few { length lists.now ≤ 4096 }
    requires there { (r : ℕ) → r < length lists.now → Has (V.value view.now) of power r }
    ensures none { IfNone result ((r : ℕ) → r < length lists.now
        → IsSameAt (V.value view.now) of power (map (λ list. list.items) lists.now) r) }
    ensures some { IfSome result (λ r. (r < length lists.now)
        × (IsSameAt (V.value view.now) of power (map (λ list. list.items) lists.now) r → ⊥)
        × ((s : ℕ) → s < r
        → IsSameAt (V.value view.now) of power (map (λ list. list.items) lists.now) s)) }
{
    for r in 0..lists.len() as u32 {
        if !same_terms(&lists[r as usize], part_at(view, of, power, r)) {
            return Some(r);
        }
    }
    None
}
