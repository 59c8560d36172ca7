//! Laws over the definitions alone. Each function's contract is its law.
ghost use Rattle.std.specs.Prelude.{◌≡◌, ℕ, ◌≤◌, ◌^◌, List, Option};
ghost use Rattle.ps_model.specs.declared.job.Root.{Root as RootOf};
ghost use Rattle.ps_model.specs.Names.{AreNames};
ghost use Rattle.ps_model.specs.SeriesRing.{SeriesRing, Poly};
ghost use Rattle.printer.specs.ReadLaw.{IsBlockText};

/// A text is the block of one lead and one list of factors at most, where nothing of them is left
/// out: with these names, of these roots and of this precision.
pub fn l6()
    ensures { (S : SeriesRing) (names : List (List ℕ)) (D : ℕ) (roots : List RootOf)
        (lead lead' : Option (Poly S)) (fs gs : List (Poly S)) (text : List ℕ) → AreNames names
        → S.modulus ≤ 2 ^ 64 → D ≤ 4095 → IsBlockText S names D roots lead fs text
        → IsBlockText S names D roots lead' gs text → (fs ≡ gs) × (lead ≡ lead') }
{}
