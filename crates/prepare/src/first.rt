//! The rows of degree 0.
ghost use Rattle.std.specs.Prelude.{◌≡◌, ◌<◌, ◌≤◌, length, IfOk};
ghost use Rattle.std.specs.Prelude.{MatchOption};
ghost use Rattle.parts.specs.Rings.{modulus_of};
ghost use Rattle.parts.specs.RowsOfParts.{parts_of};
ghost use Rattle.parts.specs.Series.{constant_of};
ghost use Rattle.prepare.specs.Calls.{IsLowest, HasNoneBelow, IsPowerOfY};

use parts::{Monomial, Part, Ring};
use ps_model::OutOfMemory;
use std::alloc::Global;
use std::sync::Arc;

/// The least place below k of a part that isn't zero.
pub fn lowest_below(row: &[Arc<Part>], k: u32) -> Option<u32>
    requires { k ≤ length row.now }
    ensures { MatchOption result (HasNoneBelow k (parts_of row.now))
        (IsLowest k (parts_of row.now)) }
{
    for power in 0..k {
        if !row[power as usize].is_zero() {
            return Some(power);
        }
    }
    None
}

/// The constant term of a part, as w_0(0) of that of G at Y^k.
pub fn constant_term(ring: Ring, part: &Part) -> u64
    ensures constant { result ≡ constant_of ring part.now }
    ensures residue { result < modulus_of ring }
{
    let origin = Monomial::of(ring, [0; 8]);
    ring.modulus().reduce(part.coefficient(&origin))
}

/// The row of degree 0 of Y^k: a_i(0) = 0 for i below k, and 1 at Y^k.
pub fn power_of_y(alloc: Global, ring: Ring, k: u32) -> Result<Vec<Arc<Part>>, OutOfMemory>
    requires { k ≤ 32 }
    ensures { IfOk result (λ row. IsPowerOfY ring k (parts_of row.items)) }
{
    let mut row = Vec::new(alloc);
    for _ in 0..k {
        row.push(Arc::new(alloc, Part::zero(alloc, 0))?)?;
    }
    row.push(Arc::new(alloc, Part::constant(alloc, ring, 1)?)?)?;
    Ok(row)
}
