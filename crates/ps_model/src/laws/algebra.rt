//! Polynomials modulo m: their coefficients, sums, products, truncations and quotients.
ghost use Rattle.std.specs.Prelude.{◌≡◌, ℕ, ◌+◌, ◌-◌, ◌%◌, ◌<◌, ◌≤◌, ◌==◌, ◌↔◌, min, nat_le};
ghost use Rattle.std.specs.Prelude.{if◌then◌else◌};
ghost use Rattle.std.specs.Ordering.{eq_by_cmp};
ghost use Rattle.ps_model.specs.Sums.{total};
ghost use Rattle.ps_model.specs.Keys.{Key, key_compare, add_keys};
ghost use Rattle.ps_model.specs.SeriesRing.{SeriesRing, degree, Poly};
ghost use Rattle.ps_model.specs.Notation.{zero, one, sum, negative, product, power, sum_to};
ghost use Rattle.ps_model.specs.Notation.{terms, coefficient, constant_term, truncated};
ghost use Rattle.ps_model.specs.Notation.{homogeneous_part};
ghost use Rattle.ps_model.specs.Bounds.{HasNoPowerAbove, HasNoDegreeAbove, IsUnit, ExactlyOne};
ghost use Rattle.ps_model.specs.Prepared.{IsQuotient};

/// Coefficients are residues, and fix a polynomial. What those of a sum, a product, a truncation
/// and a homogeneous part are, and what the two bounds say of them.
pub fn coefficient_laws()
    ensures residues { (S : SeriesRing) (p : Poly S) (k : Key S.variables) →
        coefficient p k < S.modulus }
    ensures same { (S : SeriesRing) (p q : Poly S) →
        ((k : Key S.variables) → coefficient p k ≡ coefficient q k) → p ≡ q }
    ensures of_sum { (S : SeriesRing) (p q : Poly S) (k : Key S.variables) →
        coefficient (sum p q) k ≡ (coefficient p k + coefficient q k) % S.modulus }
    // The sum over all pairs of entries whose keys add to k.
    ensures of_product { (S : SeriesRing) (p q : Poly S) (k : Key S.variables) →
        coefficient (product p q) k
        ≡ total (λ x. total (λ z.
        (if eq_by_cmp (key_compare S.variables) k (add_keys S.variables x z) then 1 else 0))
        (terms q)) (terms p) % S.modulus }
    ensures of_truncated { (S : SeriesRing) (D : ℕ) (p : Poly S) (k : Key S.variables) →
        coefficient (truncated D p) k ≡ (if nat_le (degree S k) D then coefficient p k else 0) }
    ensures of_homogeneous_part { (S : SeriesRing) (r : ℕ) (p : Poly S) (k : Key S.variables) →
        coefficient (homogeneous_part r p) k
        ≡ (if degree S k == r then coefficient p k else 0) }
    ensures no_power_above { (S : SeriesRing) (K : ℕ) (p : Poly S) →
        HasNoPowerAbove K p ↔ ((k : Key S.variables) → K < k.y → coefficient p k ≡ 0) }
    ensures no_degree_above { (S : SeriesRing) (D : ℕ) (p : Poly S) →
        HasNoDegreeAbove D p ↔ ((k : Key S.variables) → D < degree S k → coefficient p k ≡ 0) }
{}

/// Polynomials are a commutative ring, and powers multiply.
pub fn ring_laws()
    ensures sum_commutes { (S : SeriesRing) (p q : Poly S) → sum p q ≡ sum q p }
    ensures sum_associates { (S : SeriesRing) (p q r : Poly S) →
        sum (sum p q) r ≡ sum p (sum q r) }
    ensures zero_sum { (S : SeriesRing) (p : Poly S) → sum zero p ≡ p }
    ensures negative_sum { (S : SeriesRing) (p : Poly S) → sum (negative p) p ≡ zero }
    ensures product_commutes { (S : SeriesRing) (p q : Poly S) → product p q ≡ product q p }
    ensures product_associates { (S : SeriesRing) (p q r : Poly S) →
        product (product p q) r ≡ product p (product q r) }
    ensures one_product { (S : SeriesRing) (p : Poly S) → product one p ≡ p }
    ensures distributes { (S : SeriesRing) (p q r : Poly S) →
        product p (sum q r) ≡ sum (product p q) (product p r) }
    ensures power_sum { (S : SeriesRing) (p : Poly S) (d e : ℕ) →
        power p (d + e) ≡ product (power p d) (power p e) }
    ensures power_product { (S : SeriesRing) (p q : Poly S) (e : ℕ) →
        power (product p q) e ≡ product (power p e) (power q e) }
{}

/// Truncations and homogeneous parts of sums and products. Polynomials with the same parts up to
/// D agree up to D.
pub fn truncation_laws()
    ensures truncated_sum { (S : SeriesRing) (D : ℕ) (p q : Poly S) →
        truncated D (sum p q) ≡ sum (truncated D p) (truncated D q) }
    ensures truncated_product { (S : SeriesRing) (D : ℕ) (p q : Poly S) →
        truncated D (product p q) ≡ truncated D (product (truncated D p) (truncated D q)) }
    ensures truncated_truncated { (S : SeriesRing) (D E : ℕ) (p : Poly S) →
        truncated D (truncated E p) ≡ truncated (min D E) p }
    ensures homogeneous_part_product { (S : SeriesRing) (r : ℕ) (p q : Poly S) →
        homogeneous_part r (product p q)
        ≡ sum_to r (λ s. product (homogeneous_part s p) (homogeneous_part (r - s) q)) }
    ensures same_parts { (S : SeriesRing) (D : ℕ) (p q : Poly S) →
        ((r : ℕ) → r ≤ D → homogeneous_part r p ≡ homogeneous_part r q) →
        truncated D p ≡ truncated D q }
{}

/// Division by a polynomial without Y whose constant term is a unit: exactly one quotient at each
/// D, and truncated at d it is the quotient there.
pub fn quotient_laws()
    ensures quotient { (S : SeriesRing) (D : ℕ) (a b : Poly S) →
        HasNoPowerAbove 0 b → IsUnit S.modulus (constant_term b) → HasNoDegreeAbove D a →
        ExactlyOne (IsQuotient D a b) }
    ensures truncated { (S : SeriesRing) (d D : ℕ) (a b q : Poly S) → d ≤ D →
        IsQuotient D a b q → IsQuotient d (truncated d a) b (truncated d q) }
{}
