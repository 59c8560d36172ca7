//! Weierstrass preparation, its recurrences from degree to degree, and polynomials as slices and
//! rows.
ghost use Rattle.std.specs.Prelude.{◌≡◌, ℕ, suc, ◌+◌, ◌-◌, ◌*◌, ◌%◌, ◌<◌, ◌≤◌, List, [], ◌∷◌};
ghost use Rattle.std.specs.Prelude.{◌++◌, length};
ghost use Rattle.ps_model.specs.FiniteMaps.{sum_maps, scale_map, product_maps};
ghost use Rattle.ps_model.specs.Residues.{HasResidues};
ghost use Rattle.ps_model.specs.Keys.{Powers, weighted, key_compare, add_keys, y_key};
ghost use Rattle.ps_model.specs.SeriesRing.{SeriesRing, ring, Poly, PartMap, Row};
ghost use Rattle.ps_model.specs.Notation.{zero, one, monomial, of_map, sum, scaled, product};
ghost use Rattle.ps_model.specs.Notation.{sum_to, coefficient, constant_term, truncated};
ghost use Rattle.ps_model.specs.Notation.{homogeneous_part, y_coefficient, slice_at};
ghost use Rattle.ps_model.specs.Bounds.{HasNoPowerAbove, HasNoDegreeAbove, IsMonic, IsUnit};
ghost use Rattle.ps_model.specs.Bounds.{ExactlyOne};
ghost use Rattle.ps_model.specs.Prepared.{IsPreparable, IsPrepared};
ghost use Rattle.ps_model.specs.Recurrences.{FollowsRecurrences};
ghost use Rattle.ps_model.specs.Rows.{part_of, part_at, polynomial_of_row, polynomial_of_rows};
ghost use Rattle.ps_model.specs.Rows.{IsRow, AreRows, IsRowOf};

/// Weierstrass preparation: up to each degree D, exactly one product of a polynomial that is
/// monic of degree k in Y and a unit with no power of Y above q.
pub fn l2()
    ensures { (S : SeriesRing) (k q D : ℕ) (G : Poly S) → IsPreparable G k q →
        ExactlyOne {A = Poly S × Poly S} (λ pair. IsPrepared G k q D pair.0 pair.1) }
{}

/// A prepared pair at D, truncated at d, is a prepared pair at d. What makes a pair the one of
/// degree 0, and the one of the next degree: its slices there follow from the earlier ones by the
/// formulas.
pub fn preparation_laws()
    ensures truncated { (S : SeriesRing) (G : Poly S) (k q d D : ℕ) (p u : Poly S) → d ≤ D →
        IsPrepared G k q D p u → IsPrepared G k q d (truncated d p) (truncated d u) }
    ensures first { (S : SeriesRing) (G : Poly S) (k q : ℕ) (p u : Poly S) →
        HasNoPowerAbove (k + q) G → p ≡ monomial 1 (y_key S.variables k) →
        HasNoPowerAbove q u → HasNoDegreeAbove 0 u → IsUnit S.modulus (constant_term u) →
        ((l : ℕ) → l < k → slice_at 0 l G ≡ zero) →
        ((j : ℕ) → j ≤ q → slice_at 0 j u ≡ slice_at 0 (k + j) G) →
        IsPrepared G k q 0 p u }
    ensures next { (S : SeriesRing) (G : Poly S) (k q d e : ℕ) (p u : Poly S) →
        HasNoPowerAbove (k + q) G → IsMonic k p → HasNoPowerAbove q u →
        HasNoDegreeAbove (suc d) p → HasNoDegreeAbove (suc d) u →
        IsPrepared G k q d (truncated d p) (truncated d u) →
        (constant_term u * e) % S.modulus ≡ 1 →
        FollowsRecurrences k q (suc d) e
        (λ l. slice_at (suc d) l G) (λ s i. slice_at s i p) (λ s j. slice_at s j u) →
        IsPrepared G k q (suc d) p u }
{}

/// The same of rows, a list of slices for each degree: the first rows of a prepared pair, and the
/// next.
pub fn prepared_row_laws()
    ensures first { (S : SeriesRing) (G : Poly S) (k q : ℕ) (row_p row_u row_G : Row S) →
        HasNoPowerAbove (k + q) G → IsRowOf (k + q) 0 G row_G →
        IsRow (ring S) k 0 row_p → IsRow (ring S) q 0 row_u →
        ((i : ℕ) → i < k → part_of (ring S) row_G i ≡ zero) →
        IsUnit S.modulus (constant_term (part_of (ring S) row_G k)) →
        ((i : ℕ) → i < k → part_of (ring S) row_p i ≡ zero) →
        part_of (ring S) row_p k ≡ one →
        ((j : ℕ) → j ≤ q → part_of (ring S) row_u j ≡ part_of (ring S) row_G (k + j)) →
        IsPrepared G k q 0 (polynomial_of_rows (ring S) (row_p ∷ []))
        (polynomial_of_rows (ring S) (row_u ∷ [])) }
    ensures next { (S : SeriesRing) (G : Poly S) (k q d e : ℕ)
        (rows_p rows_u : List (Row S)) (row_p row_u row_G : Row S) →
        HasNoPowerAbove (k + q) G → IsRowOf (k + q) (suc d) G row_G →
        AreRows (ring S) k rows_p → AreRows (ring S) q rows_u →
        length rows_p ≡ suc d → length rows_u ≡ suc d →
        length row_p ≡ suc k → length row_u ≡ suc q →
        part_of (ring S) row_p k ≡ zero →
        (constant_term (part_at (ring S) rows_u 0 0) * e) % S.modulus ≡ 1 →
        IsPrepared G k q d (polynomial_of_rows (ring S) rows_p)
        (polynomial_of_rows (ring S) rows_u) →
        FollowsRecurrences k q (suc d) e (part_of (ring S) row_G)
        (part_at (ring S) (rows_p ++ row_p ∷ [])) (part_at (ring S) (rows_u ++ row_u ∷ [])) →
        IsRow (ring S) k (suc d) row_p × IsRow (ring S) q (suc d) row_u
        × IsPrepared G k q (suc d) (polynomial_of_rows (ring S) (rows_p ++ row_p ∷ []))
        (polynomial_of_rows (ring S) (rows_u ++ row_u ∷ [])) }
{}

/// Slices of a product, coefficients of a slice, slices of the coefficient of a power of Y, and that
/// slices fix a polynomial up to a degree.
pub fn slice_laws()
    ensures of_product { (S : SeriesRing) (r j : ℕ) (p q : Poly S) →
        slice_at r j (product p q)
        ≡ sum_to r (λ s. sum_to j (λ i. product (slice_at s i p) (slice_at (r - s) (j - i) q))) }
    ensures coefficients { (S : SeriesRing) (r j : ℕ) (p : Poly S) (e : Powers S.variables) →
        weighted S.variables S.weights e ≡ r →
        coefficient (slice_at r j p) (record { powers = e; y = 0 })
        ≡ coefficient p (record { powers = e; y = j }) }
    ensures of_coefficient { (S : SeriesRing) (r j : ℕ) (p : Poly S) →
        slice_at r 0 (y_coefficient j p) ≡ slice_at r j p }
    ensures same { (S : SeriesRing) (D K : ℕ) (p q : Poly S) →
        HasNoPowerAbove K p → HasNoPowerAbove K q →
        ((r j : ℕ) → r ≤ D → j ≤ K → slice_at r j p ≡ slice_at r j q) →
        truncated D p ≡ truncated D q }
{}

/// Rows put together: their slices, bounds and truncation. Polynomials and finite maps: the sum,
/// the multiple and the product of maps are those of their polynomials.
pub fn row_laws()
    ensures slices { (S : SeriesRing) (K r j : ℕ) (rows : List (Row S)) → AreRows (ring S) K rows →
        slice_at r j (polynomial_of_rows (ring S) rows) ≡ part_at (ring S) rows r j }
    ensures no_power_above { (S : SeriesRing) (K : ℕ) (rows : List (Row S)) →
        AreRows (ring S) K rows → HasNoPowerAbove K (polynomial_of_rows (ring S) rows) }
    ensures no_degree_above { (S : SeriesRing) (K D : ℕ) (rows : List (Row S)) →
        AreRows (ring S) K rows → length rows ≤ suc D →
        HasNoDegreeAbove D (polynomial_of_rows (ring S) rows) }
    ensures truncated { (S : SeriesRing) (K d : ℕ) (rows : List (Row S)) (row : Row S) →
        AreRows (ring S) K rows → length rows ≡ suc d → IsRow (ring S) K (suc d) row →
        truncated d (polynomial_of_rows (ring S) (rows ++ row ∷ []))
        ≡ polynomial_of_rows (ring S) rows }
    ensures row_of { (S : SeriesRing) (K r : ℕ) (p : Poly S) (row : Row S) →
        HasNoPowerAbove K p → IsRowOf K r p row →
        IsRow (ring S) K r row × (polynomial_of_row (ring S) 0 row ≡ homogeneous_part r p) }
    ensures row_from { (S : SeriesRing) (K r : ℕ) (p : Poly S) (row : Row S) →
        IsRow (ring S) K r row → polynomial_of_row (ring S) 0 row ≡ homogeneous_part r p →
        IsRowOf K r p row }
    ensures of_map { (S : SeriesRing) (p : Poly S) → of_map p.map ≡ p }
    ensures map_of { (S : SeriesRing) (m : PartMap S) → HasResidues (ring S) m →
        (of_map {R = ring S} m).map ≡ m }
    ensures sum { (S : SeriesRing) (a b : PartMap S) →
        of_map {R = ring S} (sum_maps (key_compare S.variables) S.modulus a b)
        ≡ sum (of_map a) (of_map b) }
    ensures scale { (S : SeriesRing) (c : ℕ) (a : PartMap S) →
        of_map {R = ring S} (scale_map (key_compare S.variables) S.modulus c a)
        ≡ scaled c (of_map a) }
    ensures product { (S : SeriesRing) (a b : PartMap S) →
        of_map {R = ring S}
        (product_maps (key_compare S.variables) (add_keys S.variables) S.modulus a b)
        ≡ product (of_map a) (of_map b) }
{}
