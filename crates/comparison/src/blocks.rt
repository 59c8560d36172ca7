//! The first place where a block that was read differs from what a view tells.
ghost use Rattle.std.specs.Prelude.{◌≡◌, ℕ, ◌<◌, length, map, IfOk};
ghost use Rattle.parts.specs.Series.{series, polynomial_in};
ghost use Rattle.printer.specs.Texts.{factors_to};
ghost use Rattle.printer.specs.View.{HasUpTo};
ghost use Rattle.comparison.specs.Blocks.{IsRead, DifferFrom};
ghost use Rattle.comparison.specs.Compared.{AreWithin, IsFirstFactor};

use crate::coefficients::Compared;
use crate::place::Place;
use crate::polynomials::first_slice;
use printer::{Block, BlockView};
use ps_model::{OutOfMemory, PlainPoly};
use std::alloc::Global;

/// The first place where the factors differ, None where they are the same.
fn first_in_factors<V: BlockView>(
    alloc: Global,
    view: &V,
    factors: &[PlainPoly],
    d: u32,
) -> Result<Option<Place>, OutOfMemory>
    requires known { HasUpTo (V.value view.now) d }
    requires within { AreWithin (V.value view.now) d factors.now }
    ensures { IfOk result (IsFirstFactor (series (V.value view.now).ring)
        (factors_to (V.value view.now) d)
        (map (polynomial_in (V.value view.now).ring) factors.now)) }
{
    for i in 0..view.factors() {
        let times = view.root(i).times;
        let factor = &factors[i as usize];
        if let Some(slice) = first_slice(alloc, view, Compared::Factor(i), times, factor, d)? {
            return Ok(Some(Place::Factor {
                number: i + 1,
                power: slice.power,
                degree: slice.degree,
            }));
        }
    }
    Ok(None)
}

/// The first place where a block that was read differs from what the view tells up to the block's
/// precision, None where it is the same. The lead comes first; then the factors, in their order,
/// each by falling power of Y and then by rising degree.
///
/// The time grows with the number of terms and parts that are compared, up to the place. Memory is
/// taken for the terms of one power of Y at a time.
pub fn first_difference<V: BlockView>(
    alloc: Global,
    view: &V,
    block: &Block,
) -> Result<Option<Place>, OutOfMemory>
    requires known { HasUpTo (V.value view.now) block.now.precision }
    requires read { IsRead (V.value view.now) block.now.precision block.now.lead
        block.now.factors.items }
    ensures { IfOk result (DifferFrom (V.value view.now) block.now.precision block.now.lead
        block.now.factors.items) }
{
    if let Some(lead) = &block.lead {
        if let Some(slice) = first_slice(alloc, view, Compared::Lead, 0, lead, block.precision)? {
            return Ok(Some(Place::Lead {
                degree: slice.degree,
            }));
        }
    }
    first_in_factors(alloc, view, &block.factors, block.precision)
}
