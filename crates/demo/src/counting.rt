//! Terms of a factor, counted.
ghost use Rattle.std.specs.Prelude.{◌≡◌, ◌+◌, ◌%◌, ◌^◌, ◌<◌, ◌≤◌, length, map, sum, slice_index_or};
ghost use Rattle.ps_model.specs.declared.job.Root.{Root as RootOf};
ghost use Rattle.ps_model.specs.Notation.{terms};
ghost use Rattle.residue.specs.Residues.{number_of};
ghost use Rattle.parts.specs.Rings.{modulus_of};
ghost use Rattle.parts.specs.Terms.{entry_of};
ghost use Rattle.printer.specs.Texts.{factor_to};
ghost use Rattle.printer.specs.View.{HasUpTo};
ghost use Rattle.demo.specs.Counts.{number_in, numbers_at, total_in, totals_at};

use crate::raising::PRECISION;
use parts::{Part, Term};
use printer::BlockView;
use residue::Modulus;

/// How many terms there are, and the sum of their coefficients modulo a number.
///
/// The types alone leave room for more terms than a `u64` counts.
#[derive(Clone, Copy, Debug)]
pub(crate) struct Summary {
    pub terms: u128,
    pub sum: u64,
}

/// The sum of a residue and of the coefficients of terms.
fn with_coefficients(modulus: Modulus, start: u64, terms: &[Term]) -> u64
    requires { start < number_of modulus }
    ensures sum { result ≡ (start + sum (map (λ t. t.1) (map entry_of terms.now))) % number_of modulus }
    ensures residue { result < number_of modulus }
{
    let _modulus = modulus.value();
    let mut sum = start;
    for term in terms {
        sum = modulus.add(sum, modulus.reduce(term.coefficient));
    }
    sum
}

/// What is told with one part more.
fn with_part(modulus: Modulus, summary: Summary, part: &Part) -> Summary
    requires few { summary.terms ≤ 2 ^ 126 }
    requires residue { summary.sum < number_of modulus }
    ensures terms { result.terms ≡ summary.terms + number_in part.now }
    ensures few { result.terms ≤ summary.terms + 2 ^ 64 }
    ensures sum { result.sum ≡ (summary.sum + total_in part.now) % number_of modulus }
    ensures residue { result.sum < number_of modulus }
{
    let terms = part.terms();
    Summary {
        terms: summary.terms + terms.len() as u128,
        sum: with_coefficients(modulus, summary.sum, terms),
    }
}

/// What is told with the coefficient of `Y^power` of the factor at place i, up to degree 40.
fn with_power<V: BlockView>(view: &V, i: u32, power: u32, summary: Summary) -> Summary
    requires factor { i < length (V.value view.now).roots }
    requires power { (root : RootOf) →
        power ≤ (slice_index_or (V.value view.now).roots i root).times }
    requires known { HasUpTo (V.value view.now) 40 }
    requires few { summary.terms ≤ 2 ^ 125 }
    requires residue { summary.sum < modulus_of (V.value view.now).ring }
    ensures terms { result.terms ≡ summary.terms + numbers_at (V.value view.now) i power }
    ensures few { result.terms ≤ summary.terms + 2 ^ 70 }
    ensures sum { result.sum ≡ (summary.sum + totals_at (V.value view.now) i power)
        % modulus_of (V.value view.now).ring }
    ensures residue { result.sum < modulus_of (V.value view.now).ring }
{
    let modulus = view.ring().modulus();
    let mut now = summary;
    for r in 0..PRECISION + 1 {
        now = with_part(modulus, now, view.part(i, power, r));
    }
    now
}

/// What is told of the factor at place i, up to degree 40.
pub(crate) fn summary_of<V: BlockView>(view: &V, i: u32) -> Summary
    requires factor { i < length (V.value view.now).roots }
    requires known { HasUpTo (V.value view.now) 40 }
    ensures terms { result.terms ≡ length (terms (factor_to (V.value view.now) 40 i)) }
    ensures sum { result.sum ≡ sum (map (λ t. t.1) (terms (factor_to (V.value view.now) 40 i)))
        % modulus_of (V.value view.now).ring }
{
    let times = view.root(i).times;
    let _modulus = view.ring().modulus().value();
    let mut now = Summary { terms: 0, sum: 0 };
    for power in 0..=times {
        now = with_power(view, i, power, now);
    }
    now
}
