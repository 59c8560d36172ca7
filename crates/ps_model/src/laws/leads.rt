//! Inputs without roots that have no fault, their leads and their monic inputs.
ghost use Rattle.std.specs.Prelude.{ℕ, ◌≤◌, ◌↔◌};
ghost use Rattle.ps_model.specs.SeriesRing.{SeriesRing, Poly};
ghost use Rattle.ps_model.specs.Notation.{constant_term, truncated};
ghost use Rattle.ps_model.specs.Bounds.{HasNoPowerAbove, HasNoDegreeAbove, IsMonic, IsUnit};
ghost use Rattle.ps_model.specs.Bounds.{ExactlyOne};
ghost use Rattle.ps_model.specs.declared.expr.Expr.{Expr};
ghost use Rattle.ps_model.specs.Tree.{formal_degree, node_count, IsValidTree};
ghost use Rattle.ps_model.specs.Value.{variable, IsValue, HasLead};
ghost use Rattle.ps_model.specs.Divisions.{DividesByUnits};
ghost use Rattle.ps_model.specs.Lead.{IsLead, IsMonicInput};
ghost use Rattle.ps_model.specs.Input.{IsValidInput};

/// Inputs without a fault: at most 4,096 nodes, a formal degree of at most 32, and divisions by units
/// alone. A well-formed tree then has exactly one value and one lead at each degree.
pub fn input_laws()
    ensures small { (S : SeriesRing) (e : Expr) → IsValidInput S e →
        (node_count e ≤ 4096) × (formal_degree e ≤ 32) }
    ensures divides { (S : SeriesRing) (e : Expr) → IsValidInput S e →
        DividesByUnits S (variable S) e }
    ensures value { (S : SeriesRing) (names D : ℕ) (e : Expr) → IsValidTree names e →
        IsValidInput S e → ExactlyOne (IsValue S D e) }
    ensures lead { (S : SeriesRing) (names D : ℕ) (e : Expr) → IsValidTree names e →
        IsValidInput S e → ExactlyOne (IsLead S D e) }
{}

/// Leads have no Y and no entry above the degree, and truncated they are those at the lower degree;
/// so are the monic inputs. Where the lead's constant term is a unit, an input without a fault has
/// exactly one monic input at each degree, and it is monic. Where the leading number is known to be
/// 1, it is the value.
pub fn lead_laws()
    ensures flat { (S : SeriesRing) (D : ℕ) (e : Expr) (l : Poly S) → IsLead S D e l →
        HasNoPowerAbove 0 l × HasNoDegreeAbove D l }
    ensures truncated { (S : SeriesRing) (d D : ℕ) (e : Expr) (l : Poly S) → d ≤ D →
        IsLead S D e l → IsLead S d e (truncated d l) }
    ensures truncated_input { (S : SeriesRing) (d D : ℕ) (e : Expr) (q : Poly S) → d ≤ D →
        IsMonicInput S D e q → IsMonicInput S d e (truncated d q) }
    ensures monic_input { (S : SeriesRing) (names D : ℕ) (e : Expr) → IsValidTree names e →
        IsValidInput S e → ((l : Poly S) → IsLead S 0 e l → IsUnit S.modulus (constant_term l)) →
        ExactlyOne (IsMonicInput S D e) }
    ensures monic { (S : SeriesRing) (names D : ℕ) (e : Expr) (q : Poly S) →
        IsValidTree names e →
        ((l : Poly S) → IsLead S 0 e l → IsUnit S.modulus (constant_term l)) →
        IsMonicInput S D e q → IsMonic (formal_degree e) q }
    ensures known { (S : SeriesRing) (names D : ℕ) (e : Expr) (q : Poly S) →
        IsValidTree names e → HasLead S e 1 → (IsMonicInput S D e q ↔ IsValue S D e q) }
{}
