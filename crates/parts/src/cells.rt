//! Sums of products, in cells that are reduced late.
ghost use Rattle.std.specs.Prelude.{◌≡◌, ℕ, ◌+◌, ◌-◌, ◌*◌, ◌%◌, ◌^◌, ◌<◌, ◌≤◌, length, All};
ghost use Rattle.residue.specs.Residues.{number_of};
ghost use Rattle.parts.specs.Cells.{GainsRow};

use residue::Modulus;

/// A place among the cells, and a coefficient.
#[derive(Clone, Copy)]
pub struct Placed {
    pub place: usize,
    pub coefficient: u64,
}

/// The greatest multiple of a modulus that is at most 2^127.
#[derive(Clone, Copy)]
pub struct Fold {
    pub modulus: Modulus,
    multiple: u128,
    pub ghost whole: { multiple % number_of modulus ≡ 0 },
    pub ghost low: { 2 ^ 127 < multiple + 2 ^ 63 },
    pub ghost high: { multiple ≤ 2 ^ 127 },
}

impl Fold {
    pub fn new(modulus: Modulus) -> Fold
        ensures { number_of result.modulus ≡ number_of modulus }
    {
        let _low = modulus.value();
        let m = u128::from(modulus.value());
        let top: u128 = 1 << 127;
        Fold {
            modulus,
            multiple: top - top % m,
        }
    }
}

/// Adds c times the row to the cells from a start on.
pub fn add_row(cells: &mut [u128], start: usize, c: u64, row: &[Placed], fold: &Fold)
    requires c_below { c < 2 ^ 63 }
    requires row_below { All (λ p. p.coefficient < 2 ^ 63) row.now }
    requires inside { All (λ p. start + p.place < length cells.old) row.now }
    requires low { All (λ x. x < 2 ^ 127) cells.old }
    ensures low { All (λ x. x < 2 ^ 127) cells.new }
    ensures totals { GainsRow (number_of fold.now.modulus) start c row.now cells.old cells.new }
{
    for p in row {
        let at = start + p.place;
        let sum = cells[at] + u128::from(c) * u128::from(p.coefficient);
        cells[at] = if sum >= 1 << 127 {
            sum - fold.multiple
        } else {
            sum
        };
    }
}
