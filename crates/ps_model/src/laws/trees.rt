//! The values of trees, where names stand for given series.
ghost use Rattle.std.specs.Prelude.{◌≡◌, ℕ, ◌<◌, ◌≤◌, ◌≢◌};
ghost use Rattle.ps_model.specs.Keys.{Key, y_key};
ghost use Rattle.ps_model.specs.SeriesRing.{SeriesRing, Poly};
ghost use Rattle.ps_model.specs.Notation.{coefficient, truncated};
ghost use Rattle.ps_model.specs.Bounds.{HasNoPowerAbove, HasNoDegreeAbove, ExactlyOne};
ghost use Rattle.ps_model.specs.declared.expr.Expr.{Expr};
ghost use Rattle.ps_model.specs.Value.{HasLead, variable, IsValueWith, AreWithoutY};
ghost use Rattle.ps_model.specs.Tree.{formal_degree, IsValidTree};
ghost use Rattle.ps_model.specs.Divisions.{DividesByUnits};

/// Values of well-formed trees, where the name at place i has the value `values i`. There is exactly
/// one up to each degree D where the tree divides by units, and truncated at d it is the value
/// there. Where no name's value has Y, there is none elsewhere, and it has no power of Y above the
/// formal degree. Where besides the leading number is known by the tree's form, it is the
/// coefficient of Y ^ formal_degree, at every degree in the variables. The variables, for which a
/// job's names stand, have no Y.
pub fn l1()
    ensures truncated { (S : SeriesRing) (values : ℕ → Poly S) (d D : ℕ) (e : Expr) (p : Poly S) →
        d ≤ D → IsValueWith S D values e p → IsValueWith S d values e (truncated d p) }
    ensures value { (S : SeriesRing) (values : ℕ → Poly S) (names D : ℕ) (e : Expr) →
        IsValidTree names e → DividesByUnits S values e → ExactlyOne (IsValueWith S D values e) }
    ensures divides { (S : SeriesRing) (values : ℕ → Poly S) (names D : ℕ) (e : Expr)
        (p : Poly S) → AreWithoutY S names values → IsValidTree names e →
        IsValueWith S D values e p → DividesByUnits S values e }
    ensures no_power_above { (S : SeriesRing) (values : ℕ → Poly S) (names D : ℕ) (e : Expr)
        (p : Poly S) → AreWithoutY S names values → IsValidTree names e →
        IsValueWith S D values e p → HasNoPowerAbove (formal_degree e) p }
    ensures lead { (S : SeriesRing) (values : ℕ → Poly S) (names D l : ℕ) (e : Expr)
        (p : Poly S) → AreWithoutY S names values → IsValidTree names e → HasLead S e l →
        IsValueWith S D values e p → coefficient p (y_key S.variables (formal_degree e)) ≡ l }
    ensures lead_alone { (S : SeriesRing) (values : ℕ → Poly S) (names D l : ℕ) (e : Expr)
        (p : Poly S) → AreWithoutY S names values → IsValidTree names e → HasLead S e l →
        IsValueWith S D values e p → (k : Key S.variables) → k.y ≡ formal_degree e →
        k ≢ y_key S.variables (formal_degree e) → coefficient p k ≡ 0 }
    ensures variables { (S : SeriesRing) (names : ℕ) → AreWithoutY S names (variable S) }
{}

/// Values of trees, well-formed or not: up to each degree one at most where no name's value has Y,
/// and no entry above the degree. Only the names that a well-formed tree may have count, and their
/// values up to the degree.
pub fn value_laws()
    ensures only { (S : SeriesRing) (values : ℕ → Poly S) (D : ℕ) (e : Expr) (p q : Poly S) →
        ((i : ℕ) → HasNoPowerAbove 0 (values i)) →
        IsValueWith S D values e p → IsValueWith S D values e q → p ≡ q }
    ensures within { (S : SeriesRing) (values : ℕ → Poly S) (D : ℕ) (e : Expr) (p : Poly S) →
        IsValueWith S D values e p → HasNoDegreeAbove D p }
    ensures names { (S : SeriesRing) (f g : ℕ → Poly S) (names D : ℕ) (e : Expr) (p : Poly S) →
        IsValidTree names e →
        ((i : ℕ) → i < names → truncated D (f i) ≡ truncated D (g i)) →
        IsValueWith S D f e p → IsValueWith S D g e p }
{}
