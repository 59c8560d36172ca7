//! The parts of one polynomial in Y: a factor, a lead, an input.
ghost use Rattle.std.specs.Prelude.{◌≡◌, ℕ, ◌<◌, ◌≤◌, length, slice_index_or};
ghost use Rattle.ps_model.specs.declared.job.Root.{Root as RootOf};
ghost use Rattle.parts.specs.PartValue.{PartValue};
ghost use Rattle.parts.specs.RowsOfParts.{part_in, parts_in};
ghost use Rattle.printer.specs.Rows.{row_in, listed_part};
ghost use Rattle.printer.specs.View.{HasUpTo, part_at};

use crate::view::BlockView;
use parts::Part;
use std::sync::Arc;

/// The parts of the coefficients of a polynomial in Y.
pub(crate) trait Coefficients {
    // the part of the coefficient at a power of Y, of a degree
    ghost part_of: { Self → ℕ → ℕ → PartValue };

    // whether that part is there
    ghost Has: { Self → ℕ → ℕ → Type 0 };

    /// The part of degree r of the coefficient of `Y^power`.
    fn part(&self, power: u32, r: u32) -> &Part
        requires { Has self.now power r }
        ensures { result.now ≡ part_of self.now power r };
}

/// One factor of a view.
#[derive(Drop)]
pub(crate) struct FactorParts<'v, V: BlockView> {
    pub view: &'v V,
    pub factor: u32,
}

impl<'v, V: BlockView> Coefficients for FactorParts<'v, V> {
    ghost part_of = { λ f. part_at (V.value f.view.now) f.factor };

    ghost Has = { λ f power r. (f.factor < length (V.value f.view.now).roots)
        × ((root : RootOf) →
        power ≤ (slice_index_or (V.value f.view.now).roots f.factor root).times)
        × HasUpTo (V.value f.view.now) r };

    fn part(&self, power: u32, r: u32) -> &Part {
        self.view.part(self.factor, power, r)
    }
}

/// The lead of a view, which has no Y.
#[derive(Drop)]
pub(crate) struct LeadParts<'v, V: BlockView> {
    pub view: &'v V,
}

impl<'v, V: BlockView> Coefficients for LeadParts<'v, V> {
    ghost part_of = { λ l _ r. part_in (V.value l.view.now).lead r };

    ghost Has = { λ l _ r. HasUpTo (V.value l.view.now) r };

    fn part(&self, _power: u32, r: u32) -> &Part {
        self.view.lead_part(r)
    }
}

/// Rows that are in memory, one for each degree.
#[derive(Drop)]
pub(crate) struct ListedParts<'r> {
    pub rows: &'r [Vec<Arc<Part>>],
}

impl<'r> Coefficients for ListedParts<'r> {
    ghost part_of = { λ l. listed_part (parts_in l.rows.now) };

    ghost Has = { λ l power r. (r < length l.rows.now)
        × (power < length (row_in (parts_in l.rows.now) r)) };

    fn part(&self, power: u32, r: u32) -> &Part {
        &self.rows[r as usize][power as usize]
    }
}
