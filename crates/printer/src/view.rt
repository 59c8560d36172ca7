//! Where the parts of factors and of a lead come from.
ghost use Rattle.std.specs.Prelude.{◌≡◌, ℕ, ◌<◌, ◌≤◌, ◌↔◌, IsTrue, length, slice_get, slice_index_or, Some};
ghost use Rattle.ps_model.specs.declared.job.Root.{Root as RootOf};
ghost use Rattle.parts.specs.Rings.{variables_of as variables_in};
ghost use Rattle.parts.specs.RowsOfParts.{part_in};
ghost use Rattle.printer.specs.View.{BlockValue, IsBlockValue, HasUpTo, Reaches, part_at};

use crate::terms::Variables;
use parts::{Part, Ring};
use ps_model::{NameView, Root};

/// Factors, one for each root, and a lead, as far as they are known, with the names of their
/// variables.
pub trait BlockView: NameView {
    ghost value: { Self → BlockValue };

    /// The ring of the parts.
    fn ring(&self) -> Ring
        ensures { result ≡ (value self.now).ring };

    /// How many factors there are.
    fn factors(&self) -> u32
        ensures { result ≡ length (value self.now).roots };

    /// The greatest degree that is there for every factor and the lead, None where one of these has
    /// no degree yet.
    fn known(&self) -> Option<u32>
        ensures { (d : ℕ) → Reaches result d ↔ HasUpTo (value self.now) d };

    /// The root of the factor at place i, from 0.
    fn root(&self, i: u32) -> Root
        requires { i < length (value self.now).roots }
        ensures { slice_get (value self.now).roots i ≡ Some result };

    /// The part of degree r of the coefficient of `Y^power` in the factor at place i.
    fn part(&self, i: u32, power: u32, r: u32) -> &Part
        requires factor { i < length (value self.now).roots }
        requires power { (root : RootOf) → power ≤ (slice_index_or (value self.now).roots i root).times }
        requires known { HasUpTo (value self.now) r }
        ensures { result.now ≡ part_at (value self.now) i power r };

    /// Whether the lead is written.
    fn has_lead(&self) -> bool
        ensures { result ≡ (value self.now).shows_lead };

    /// The part of degree r of the lead.
    fn lead_part(&self, r: u32) -> &Part
        requires { HasUpTo (value self.now) r }
        ensures { result.now ≡ part_in (value self.now).lead r };

    ghost lawful: { (view : Self) → IsBlockValue (Self.NameView.names view) (value view) };
}

/// The variables of a view.
pub(crate) fn variables_of<V: BlockView>(view: &V) -> Variables<'_, V>
    ensures names { result.names.now ≡ view.now }
    ensures count { result.count ≡ variables_in (V.value view.now).ring }
{
    Variables {
        names: view,
        count: view.ring().n(),
    }
}
