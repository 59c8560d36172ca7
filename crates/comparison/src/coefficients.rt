//! The parts of one polynomial in Y of a view: a factor, or the lead.
ghost use Rattle.std.specs.Prelude.{◌≡◌};
ghost use Rattle.printer.specs.Rows.{listed_part};
ghost use Rattle.comparison.specs.Compared.{Has, rows_in};

use parts::Part;
use printer::BlockView;

/// A polynomial of a view.
#[derive(Clone, Copy)]
pub enum Compared {
    Lead,
    /// The factor at this place, from 0.
    Factor(u32),
}

/// The part of degree r of the coefficient of `Y^power`; the lead has no Y.
pub fn part_at<V: BlockView>(view: &V, of: Compared, power: u32, r: u32) -> &Part
    requires { Has (V.value view.now) of power r }
    ensures { result.now ≡ listed_part (rows_in (V.value view.now) of) power r }
{
    match of {
        Compared::Lead => view.lead_part(r),
        Compared::Factor(i) => view.part(i, power, r),
    }
}
