//! Shifts of rows of parts.
ghost use Rattle.std.specs.Prelude.{◌≡◌, ℕ, ◌+◌, ◌<◌, ◌≤◌, length, IfOk};
ghost use Rattle.parts.specs.Rings.{modulus_of};
ghost use Rattle.parts.specs.RowsOfParts.{parts_of, IsRowOfParts};
ghost use Rattle.taylor.specs.Shifts.{AreRowParts, IsPartOfShift, IsShiftedRow};

use crate::binomials::Binomials;
use parts::{Accumulator, Part, Ring, share};
use ps_model::OutOfMemory;
use std::alloc::Global;
use std::sync::Arc;

/// The row of the polynomial with Y + c in place of Y:
/// shifted[i] = sum over j >= i of C(j, i) * c^(j - i) * row[j].
///
/// `row[j]` belongs to Y^j; all are of one degree, and so is the answer, of the same length. A row
/// of n parts takes n (n + 1) / 2 multiples of parts; where c is 0 its parts are shared.
pub fn shift(
    alloc: Global,
    ring: Ring,
    table: &Binomials,
    c: u64,
    row: &[Arc<Part>],
) -> Result<Vec<Arc<Part>>, OutOfMemory>
    requires short { length row.now ≤ table.now.size + 1 }
    requires same { table.now.modulus ≡ modulus_of ring }
    requires residue { c < modulus_of ring }
    requires parts { AreRowParts ring (parts_of row.now) }
    ensures length { IfOk result (λ out. length out.items ≡ length row.now) }
    ensures parts { IfOk result (λ out. (K r : ℕ) → IsRowOfParts ring K r (parts_of row.now)
        → IsRowOfParts ring K r (parts_of out.items)) }
    ensures shifted { IfOk result (λ out. (K r : ℕ) → IsRowOfParts ring K r (parts_of row.now)
        → IsShiftedRow ring c K r (parts_of row.now) (parts_of out.items)) }
{
    if c == 0 {
        return share(alloc, row);
    }
    let mut shifted = Vec::new(alloc);
    for i in 0..row.len() {
        let part = shifted_part(alloc, ring, table, c, row, i)?;
        shifted.push(Arc::new(alloc, part)?)?;
    }
    Ok(shifted)
}

/// The part of Y^i in a shifted row: sum over j >= i of C(j, i) * c^(j - i) * row[j].
fn shifted_part(
    alloc: Global,
    ring: Ring,
    table: &Binomials,
    c: u64,
    row: &[Arc<Part>],
    i: usize,
) -> Result<Part, OutOfMemory>
    requires place { i < length row.now }
    requires short { length row.now ≤ table.now.size + 1 }
    requires same { table.now.modulus ≡ modulus_of ring }
    requires residue { c < modulus_of ring }
    requires parts { AreRowParts ring (parts_of row.now) }
    ensures { IfOk result (IsPartOfShift ring c (parts_of row.now) i) }
{
    let modulus = ring.modulus();
    let mut sum = Accumulator::new(alloc, ring, row[i].degree());
    let mut power = 1;
    for j in i..row.len() {
        // power is c^(j - i)
        let factor = modulus.mul(table.number(j, i), power);
        sum.add_scaled(&row[j], factor)?;
        power = modulus.mul(power, c);
    }
    sum.finish()
}
