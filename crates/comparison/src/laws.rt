//! Laws over the definitions alone. Each function's contract is its law.
ghost use Rattle.std.specs.Prelude.{◌≡◌, List, Option, IfSome, length, is_some};
ghost use Rattle.ps_model.specs.Bounds.{ExactlyOne, HasNoPowerAbove};
ghost use Rattle.ps_model.specs.SeriesRing.{SeriesRing, Poly};
ghost use Rattle.comparison.specs.Differences.{IsFirstDifference};
ghost use Rattle.comparison.specs.declared.place.Place.{Place as PlaceOf};

/// Of any two leads without Y and any two lists of as many factors one place is the first difference,
/// or None is: both leads are there, or neither is.
pub fn difference_laws()
    ensures { (S : SeriesRing) (l k : Option (Poly S)) (fs gs : List (Poly S)) →
        is_some l ≡ is_some k → IfSome l (HasNoPowerAbove 0) → IfSome k (HasNoPowerAbove 0) →
        length fs ≡ length gs →
        ExactlyOne {A = Option PlaceOf} (IsFirstDifference S l fs k gs) }
{}
