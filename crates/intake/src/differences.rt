//! Where an input at the origin differs from what the roots of a job give there.
ghost use Rattle.std.specs.Prelude.{◌≡◌, ℕ, ◌+◌, ◌*◌, ◌%◌, ◌<◌, ◌≤◌, ◌∷◌, List, length, IfOk, vec_len};
ghost use Rattle.std.specs.Prelude.{slice_index};
ghost use Rattle.std.specs.List.{All};
ghost use Rattle.ps_model.specs.Factors.{root_power, total_times};
ghost use Rattle.ps_model.specs.Job.{series_ring};
ghost use Rattle.ps_model.specs.Notation.{product};
ghost use Rattle.ps_model.specs.SeriesRing.{Poly};
ghost use Rattle.residue.specs.Residues.{number_of, IsResidue};
ghost use Rattle.intake.specs.Differences.{roots_at, AreCoefficients, IsFirstDifference};

use ps_model::{OutOfMemory, Root};
use residue::Modulus;
use std::alloc::Global;

/// A power of Y at which the input and what the roots give have two coefficients.
#[derive(Clone, Copy, Debug, PartialEq, Eq)]
pub struct Difference {
    pub power: u32,
    /// The coefficient of the input.
    pub input: u64,
    /// That of the leading number times the product of the root powers.
    pub roots: u64,
}

/// The least power of Y at which the input and `lead` times the product of the root powers differ.
/// `input[p]` is the input's coefficient of Y^p at the origin.
pub fn first_difference(
    alloc: Global,
    modulus: Modulus,
    input: &[u64],
    lead: u64,
    roots: &[Root],
) -> Result<Option<Difference>, OutOfMemory>
    requires lead { IsResidue modulus lead }
    requires residues { All (λ r. IsResidue modulus r.value) roots.now }
    requires degree { length input.now ≡ total_times roots.now + 1 }
    requires few { length input.now ≤ 33 }
    ensures { IfOk result (λ found. (ws : List ℕ)
        → IsFirstDifference (number_of modulus) ws input.now lead roots.now found) }
{
    let product = root_row(alloc, modulus, roots)?;
    for power in 0..input.len() {
        let difference = Difference {
            power: power as u32,
            input: input[power],
            roots: modulus.mul(lead, product[power]),
        };
        if difference.input != difference.roots {
            return Ok(Some(difference));
        }
    }
    Ok(None)
}

/// The coefficients of the product of the root powers, by rising power of Y.
fn root_row(alloc: Global, modulus: Modulus, roots: &[Root]) -> Result<Vec<u64>, OutOfMemory>
    requires { All (λ r. IsResidue modulus r.value) roots.now }
    ensures length { IfOk result (λ row. vec_len row ≡ total_times roots.now + 1) }
    ensures numbers { IfOk result (λ row. (ws : List ℕ) (p : ℕ)
        → slice_index row.items p ≡ roots_at (number_of modulus) ws roots.now p) }
{
    let mut row = Vec::new(alloc);
    row.push(1)?;
    for root in roots {
        row = times_root(alloc, modulus, *root, row)?;
    }
    Ok(row)
}

/// The row of the root's power times f from that of f.
fn times_root(
    alloc: Global,
    modulus: Modulus,
    root: Root,
    mut row: Vec<u64>,
) -> Result<Vec<u64>, OutOfMemory>
    requires residue { IsResidue modulus root.value }
    requires residues { (p : ℕ) → slice_index row.items p < number_of modulus }
    ensures length { IfOk result (λ next. vec_len next ≡ vec_len row + root.times) }
    ensures numbers { IfOk result (λ next. (ws : List ℕ) (f : Poly (series_ring (number_of modulus) ws))
        → AreCoefficients (number_of modulus) ws row.items f
        → AreCoefficients (number_of modulus) ws next.items (product (root_power root) f)) }
{
    let constant = modulus.neg(root.value);
    for _ in 0..root.times {
        row = next_row(alloc, modulus, constant, &row)?;
    }
    Ok(row)
}

/// The row of (Y + constant) * f from that of f: the number at p is
/// row[p - 1] + constant * row[p].
fn next_row(
    alloc: Global,
    modulus: Modulus,
    constant: u64,
    row: &[u64],
) -> Result<Vec<u64>, OutOfMemory>
    requires residue { IsResidue modulus constant }
    requires residues { (p : ℕ) → slice_index row.now p < number_of modulus }
    ensures length { IfOk result (λ next. vec_len next ≡ length row.now + 1) }
    ensures numbers { IfOk result (λ next. (p : ℕ) → slice_index next.items p
        ≡ (slice_index (0 ∷ row.now) p + constant * slice_index row.now p) % number_of modulus) }
{
    let mut next = Vec::new(alloc);
    let mut below = 0;
    for number in row {
        let share = modulus.mul(constant, *number);
        next.push(modulus.add(below, share))?;
        below = *number;
    }
    next.push(below)?;
    Ok(next)
}
