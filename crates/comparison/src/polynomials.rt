//! The first slice in which a polynomial of a view differs from one of a block.
ghost use Rattle.std.specs.Prelude.{◌≡◌, ◌≤◌, IfOk, IfSome, IfNone};
ghost use Rattle.parts.specs.Series.{series, polynomial_in};
ghost use Rattle.printer.specs.View.{HasUpTo};
ghost use Rattle.comparison.specs.Compared.{IsOf, IsWithin, compared_to};
ghost use Rattle.comparison.specs.Differences.{IsFirstIn};

use crate::coefficients::Compared;
use crate::slices::{by_degree, first_degree};
use printer::BlockView;
use ps_model::{OutOfMemory, PlainPoly};
use std::alloc::Global;

/// The homogeneous part of this degree of the coefficient of this power of Y.
#[derive(Clone, Copy)]
pub struct Slice {
    pub power: u32,
    pub degree: u32,
}

/// The first slice, by falling power of Y and then by rising degree, in which a polynomial of a view
/// differs up to degree d from another.
pub fn first_slice<V: BlockView>(
    alloc: Global,
    view: &V,
    of: Compared,
    times: u32,
    other: &PlainPoly,
    d: u32,
) -> Result<Option<Slice>, OutOfMemory>
    requires of { IsOf (V.value view.now) of times }
    requires known { HasUpTo (V.value view.now) d }
    requires within { IsWithin (V.value view.now).ring times d other.now }
    ensures none { IfOk result (λ o. IfNone o (compared_to (V.value view.now) d of
        ≡ polynomial_in (V.value view.now).ring other.now)) }
    ensures some { IfOk result (λ o. IfSome o (λ s. (s.power ≤ times)
        × IsFirstIn (series (V.value view.now).ring) (compared_to (V.value view.now) d of)
        (polynomial_in (V.value view.now).ring other.now) s.power s.degree)) }
{
    for power in (0..=times).rev() {
        let lists = by_degree(alloc, view.ring(), other.terms(), power, d)?;
        if let Some(degree) = first_degree(view, of, power, &lists) {
            return Ok(Some(Slice { power, degree }));
        }
    }
    Ok(None)
}
