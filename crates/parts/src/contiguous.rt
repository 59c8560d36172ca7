//! Rows of coefficients, each along the first variable: place p of row f belongs to the product of
//! the powers p of the first variable and f of the second. What is past an end is 0.
ghost use Rattle.std.specs.Prelude.{◌≡◌, ℕ, suc, ◌+◌, ◌-◌, ◌*◌, ◌<◌, ◌≤◌, length, slice_index};
ghost use Rattle.std.specs.Prelude.{All, IfOk, slice_set};
ghost use Rattle.parts.specs.SeriesRows.{rows_in, entry, HasPlace, SameEntries, KeepsPlaces, Puts};
ghost use Rattle.parts.specs.SeriesRows.{crossed_entry, Overlap};
ghost use Rattle.residue.specs.Products.{sum_below};
ghost use Rattle.residue.specs.ProductSums.{Gains};

use ps_model::OutOfMemory;
use residue::ProductSum;
use std::alloc::Global;

/// Sees that a row has a place, by 0 at its end.
fn lengthen(row: &mut Vec<u64>, p: usize) -> Result<(), OutOfMemory>
    ensures same { (j : ℕ) → slice_index row.new.items j ≡ slice_index row.old.items j }
    ensures longer { length row.old.items ≤ length row.new.items }
    ensures place { IfOk result (λ _. p < length row.new.items) }
{
    while row.len() <= p {
        row.push(0)?;
    }
    Ok(())
}

/// Sees that there is a row f, by empty rows at the end.
fn add_rows(alloc: Global, rows: &mut Vec<Vec<u64>>, f: usize) -> Result<(), OutOfMemory>
    ensures same { SameEntries (rows_in rows.old.items) (rows_in rows.new.items) }
    ensures kept { KeepsPlaces (rows_in rows.old.items) (rows_in rows.new.items) }
    ensures row { IfOk result (λ _. f < length rows.new.items) }
{
    while rows.len() <= f {
        rows.push(Vec::new(alloc))?;
    }
    Ok(())
}

/// Sees that there is place p of row f. No number changes, also where memory runs out.
pub fn make_place(
    alloc: Global,
    rows: &mut Vec<Vec<u64>>,
    f: usize,
    p: usize,
) -> Result<(), OutOfMemory>
    ensures same { SameEntries (rows_in rows.old.items) (rows_in rows.new.items) }
    ensures kept { KeepsPlaces (rows_in rows.old.items) (rows_in rows.new.items) }
    ensures place { IfOk result (λ _. HasPlace (rows_in rows.new.items) f p) }
{
    add_rows(alloc, rows, f)?;
    lengthen(&mut rows[f], p)
}

/// Puts c at place p of a row.
fn put_number(row: &mut Vec<u64>, p: usize, c: u64)
    requires { p < length row.old.items }
    ensures { row.new.items ≡ slice_set row.old.items p c }
{
    row[p] = c;
}

/// Puts c at place p of row f.
pub fn put(rows: &mut Vec<Vec<u64>>, f: usize, p: usize, c: u64)
    requires { HasPlace (rows_in rows.old.items) f p }
    ensures puts { Puts f p c (rows_in rows.old.items) (rows_in rows.new.items) }
    ensures kept { KeepsPlaces (rows_in rows.old.items) (rows_in rows.new.items) }
{
    put_number(&mut rows[f], p, c);
}

/// From where a list of n numbers overlaps what a list of k numbers has from place p backwards, and
/// to where.
fn overlap(n: usize, k: usize, p: usize) -> (usize, usize)
    requires { p < 4294967296 }
    ensures { Overlap n k p result.0 result.1 }
{
    let to = if p < n { p + 1 } else { n };
    let from = if p < k { 0 } else { p + 1 - k };
    (from, to)
}

/// Adds the number at place p of the product of two rows: the sum of a_i * w_(p-i).
fn add_rows_product(sum: &mut ProductSum, a: &[u64], w: &[u64], p: usize)
    requires low { p < 4294967296 }
    requires a_residues { All (λ x. x < sum.old.modulus) a.now }
    requires w_residues { All (λ x. x < sum.old.modulus) w.now }
    ensures { Gains sum.old sum.new (sum_below (suc p)
        (λ i. slice_index a.now i * slice_index w.now (p - i))) }
{
    let (from, to) = overlap(a.len(), w.len(), p);
    if from < to {
        sum.add(&a[from..to], &w[p + 1 - to..p + 1 - from]);
    }
}

/// Adds the number at place p of row f of the product of two lists of rows.
pub fn add_crossed(sum: &mut ProductSum, a: &[Vec<u64>], w: &[Vec<u64>], f: usize, p: usize)
    requires low { (f < 4294967296) × (p < 4294967296) }
    requires a_residues { (i j : ℕ) → entry (rows_in a.now) i j < sum.old.modulus }
    requires w_residues { (i j : ℕ) → entry (rows_in w.now) i j < sum.old.modulus }
    ensures { Gains sum.old sum.new (crossed_entry (rows_in a.now) (rows_in w.now) f p) }
{
    let (from, to) = overlap(a.len(), w.len(), f);
    for i in from..to {
        add_rows_product(sum, &a[i], &w[f - i], p);
    }
}
