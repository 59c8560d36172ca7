//! The factors of a preparation: their parts by degree, and the same parts by power of Y.
ghost use Rattle.std.specs.Prelude.{◌≡◌, ℕ, ◌<◌, ◌≤◌, [], ◌∷◌, length, slice_index_or, IfOk};
ghost use Rattle.parts.specs.RowsOfParts.{parts_of, AreParts};
ghost use Rattle.parts.specs.SeriesParts.{SeriesValue};
ghost use Rattle.prepare.specs.Columns.{AreColumns, cut_to};

use parts::{Part, Ring, Series};
use ps_model::OutOfMemory;
use std::alloc::Global;
use std::sync::Arc;

/// The parts of a polynomial in Y over series, so far as its degrees are there.
#[derive(Drop)]
pub struct Factor {
    /// Place j of row r: the part of degree r of the coefficient of Y^j.
    pub rows: Vec<Vec<Arc<Part>>>,
    /// The coefficient of Y^j as a series, where one is kept.
    pub series: Vec<Series>,
}

/// The series that have the first parts of a row of degree 0.
pub fn begun(
    alloc: Global,
    ring: Ring,
    row: &[Arc<Part>],
    n: usize,
) -> Result<Vec<Series>, OutOfMemory>
    requires places { n ≤ length row.now }
    requires parts { AreParts ring 0 (parts_of row.now) }
    ensures { IfOk result (λ series. AreColumns ring n (parts_of row.now ∷ []) series.items) }
{
    let mut all = Vec::new(alloc);
    for i in 0..n {
        let mut series = Series::new(alloc, ring);
        series.push(&row[i])?;
        all.push(series)?;
    }
    Ok(all)
}

/// Takes the last part away from each series that is longer than r.
pub fn cut_back(series: &mut [Series], r: u32)
    requires { r ≤ 4095 }
    ensures { (i : ℕ) (x : SeriesValue) → i < length series.old
        → slice_index_or series.new i x ≡ cut_to r (slice_index_or series.old i x) }
{
    for i in 0..series.len() {
        if series[i].len() > r {
            series[i].pop();
        }
    }
}
