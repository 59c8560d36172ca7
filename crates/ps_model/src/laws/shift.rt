//! The shift, Y + c in place of Y, and its formula by binomials.
ghost use Rattle.std.specs.Prelude.{◌≡◌, ℕ, suc, ◌+◌, ◌-◌, ◌*◌, ◌^◌, ◌%◌, ◌≤◌};
ghost use Rattle.ps_model.specs.Keys.{Powers};
ghost use Rattle.ps_model.specs.SeriesRing.{SeriesRing, ring, Poly, Row};
ghost use Rattle.ps_model.specs.Notation.{scaled, product, sum_between, coefficient, truncated};
ghost use Rattle.ps_model.specs.Notation.{slice_at, shifted};
ghost use Rattle.ps_model.specs.Shift.{binomial, numbers_to};
ghost use Rattle.ps_model.specs.Bounds.{HasNoPowerAbove};
ghost use Rattle.ps_model.specs.Rows.{part_of, polynomial_of_row, IsRow, IsRowOf};

/// The shift, Y + c in place of Y: the shift by -c takes it back, it keeps products, and it
/// commutes with truncation.
pub fn l7()
    ensures inverse { (S : SeriesRing) (c b : ℕ) (p : Poly S) → (c + b) % S.modulus ≡ 0 →
        shifted b (shifted c p) ≡ p }
    ensures product { (S : SeriesRing) (c : ℕ) (p q : Poly S) →
        shifted c (product p q) ≡ product (shifted c p) (shifted c q) }
    ensures truncated { (S : SeriesRing) (c D : ℕ) (p : Poly S) →
        truncated D (shifted c p) ≡ shifted c (truncated D p) }
{}

/// The shift by binomials (Taylor): of coefficients, of slices and of rows.
pub fn taylor_laws()
    ensures coefficients { (S : SeriesRing) (c K : ℕ) (p : Poly S) → HasNoPowerAbove K p →
        (e : Powers S.variables) (i : ℕ) →
        coefficient (shifted c p) (record { powers = e; y = i })
        ≡ numbers_to K (λ j. (binomial j i * c ^ (j - i))
        * coefficient p (record { powers = e; y = j })) % S.modulus }
    ensures slices { (S : SeriesRing) (c K r i : ℕ) (p : Poly S) → HasNoPowerAbove K p →
        slice_at r i (shifted c p)
        ≡ sum_between i (suc K) (λ j. scaled (binomial j i * c ^ (j - i)) (slice_at r j p)) }
    ensures row { (S : SeriesRing) (c K r : ℕ) (row out : Row S) →
        IsRow (ring S) K r row → IsRow (ring S) K r out →
        ((i : ℕ) → i ≤ K → part_of (ring S) out i ≡ sum_between i (suc K)
        (λ j. scaled (binomial j i * c ^ (j - i)) (part_of (ring S) row j))) →
        polynomial_of_row (ring S) 0 out ≡ shifted c (polynomial_of_row (ring S) 0 row) }
    ensures row_of { (S : SeriesRing) (c K r : ℕ) (p : Poly S) (row out : Row S) →
        HasNoPowerAbove K p → IsRowOf K r p row → IsRow (ring S) K r out →
        polynomial_of_row (ring S) 0 out ≡ shifted c (polynomial_of_row (ring S) 0 row) →
        IsRowOf K r (shifted c p) out }
{}
