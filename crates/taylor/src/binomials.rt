//! Tables of binomial numbers.
ghost use Rattle.std.specs.Prelude.{◌≡◌, ◌+◌, ◌-◌, ◌%◌, ◌<◌, ◌≤◌, length, map, IfOk};
ghost use Rattle.residue.specs.Residues.{number_of};
ghost use Rattle.ps_model.specs.Shift.{binomial};
ghost use Rattle.taylor.specs.Binomials.{BinomialsValue, binomials_code, IsBinomialRow};
ghost use Rattle.taylor.specs.Binomials.{AreBinomials};

use ps_model::OutOfMemory;
use residue::Modulus;
use std::alloc::Global;
use std::marker::Model;

/// The binomial numbers C(j, i) modulo a number, for i up to j and j up to a size.
///
/// They stand as Pascal's triangle, one row for each j.
#[derive(Drop)]
pub struct Binomials {
    modulus: Modulus,
    size: u32,
    rows: Vec<Vec<u64>>,
}

impl Model for Binomials {
    ghost Value = { BinomialsValue };

    ghost coded = { binomials_code };

    ghost view = { λ t. record { modulus = number_of t.modulus; size = t.size } };

    ghost invariant = { λ t.
        AreBinomials (number_of t.modulus) (t.size + 1) (map (λ r. r.items) t.rows.items) };
}

impl Binomials {
    /// The table up to `size`: (size + 1) (size + 2) / 2 numbers, each by one addition.
    pub fn new(alloc: Global, modulus: Modulus, size: u32) -> Result<Binomials, OutOfMemory>
        requires { size ≤ 32 }
        ensures modulus { IfOk result (λ table. table.modulus ≡ number_of modulus) }
        ensures size { IfOk result (λ table. table.size ≡ size) }
    {
        let mut row = vec![in alloc; 1; 1]?;
        let mut rows = Vec::new(alloc);
        for _j in 0..size {
            let next = next_row(alloc, modulus, &row)?;
            rows.push(row)?;
            row = next;
        }
        rows.push(row)?;
        Ok(Binomials {
            modulus,
            size,
            rows,
        })
    }

    /// The number modulo which the table is.
    pub fn modulus(&self) -> Modulus
        ensures { number_of result ≡ self.now.modulus }
    {
        self.modulus
    }

    /// The greatest j of the table.
    pub fn size(&self) -> u32
        ensures { result ≡ self.now.size }
    {
        self.size
    }

    /// C(j, i), the number of ways to choose i of j, modulo the table's number.
    pub fn number(&self, j: usize, i: usize) -> u64
        requires row { j ≤ self.now.size }
        requires place { i ≤ j }
        ensures { result ≡ binomial j i % self.now.modulus }
    {
        self.rows[j][i]
    }
}

/// The row of Pascal's triangle below a row: C(j + 1, i) = C(j, i - 1) + C(j, i), and 1 at both ends.
fn next_row(alloc: Global, modulus: Modulus, row: &[u64]) -> Result<Vec<u64>, OutOfMemory>
    requires some { 0 < length row.now }
    requires row { IsBinomialRow (number_of modulus) (length row.now - 1) row.now }
    ensures { IfOk result (λ next.
        IsBinomialRow (number_of modulus) (length row.now) next.items) }
{
    let mut next = vec![in alloc; 1; 1]?;
    for i in 1..row.len() {
        next.push(modulus.add(row[i - 1], row[i]))?;
    }
    next.push(1)?;
    Ok(next)
}
