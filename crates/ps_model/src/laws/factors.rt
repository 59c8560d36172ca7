//! Hensel's lemma: lists of factors, of jobs and of polynomials, and the stages that split them off.
ghost use Rattle.std.specs.Prelude.{◌≡◌, ℕ, suc, ◌-◌, ◌<◌, ◌≤◌, ◌↔◌, List, ◌∷◌, length, drop};
ghost use Rattle.std.specs.Prelude.{slice_index_or};
ghost use Rattle.ps_model.specs.SeriesRing.{SeriesRing, Poly};
ghost use Rattle.ps_model.specs.Notation.{zero, constant_term, truncated, shifted};
ghost use Rattle.ps_model.specs.Bounds.{IsUnit, ExactlyOne};
ghost use Rattle.ps_model.specs.Prepared.{IsPreparable, IsPrepared};
ghost use Rattle.ps_model.specs.declared.job.Root.{Root};
ghost use Rattle.ps_model.specs.Factors.{total_times, product_from, each_truncated, IsFactorable};
ghost use Rattle.ps_model.specs.Factors.{IsFactorList};
ghost use Rattle.ps_model.specs.Lead.{IsLead, IsMonicInput};
ghost use Rattle.ps_model.specs.Input.{IsValidInput};
ghost use Rattle.ps_model.specs.declared.job.JobData.{JobData};
ghost use Rattle.ps_model.specs.Tree.{formal_degree};
ghost use Rattle.ps_model.specs.Job.{job_ring, IsFactors};
ghost use Rattle.ps_model.specs.AcceptedJob.{IsAccepted, IsLawfulJob};

/// Hensel's lemma. A lawful job has, up to each degree D, exactly one list of factors. Its core, of
/// any polynomial that is factorable by roots: exactly one list of monic factors, one for each root
/// at the origin.
pub fn l3()
    ensures job { (job : JobData) (D : ℕ) → IsLawfulJob job → ExactlyOne (IsFactors job D) }
    ensures polynomial { (S : SeriesRing) (D : ℕ) (roots : List Root) (F : Poly S) →
        IsFactorable F roots → ExactlyOne (IsFactorList D F roots) }
{}

/// A job's list of factors at D, each truncated at d, is a list at d; of a lawful job it is the list
/// there. The same of any polynomial's.
pub fn l4()
    ensures job { (job : JobData) (d D : ℕ) (fs : List (Poly (job_ring job))) → d ≤ D →
        IsFactors job D fs → IsFactors job d (each_truncated d fs) }
    ensures only { (job : JobData) (d D : ℕ) (fs gs : List (Poly (job_ring job))) → d ≤ D →
        IsLawfulJob job → IsFactors job D fs → IsFactors job d gs → gs ≡ each_truncated d fs }
    ensures polynomial { (S : SeriesRing) (d D : ℕ) → d ≤ D →
        (roots : List Root) (F : Poly S) (fs : List (Poly S)) →
        IsFactorList D F roots fs → IsFactorList d F roots (each_truncated d fs) }
{}

/// Stages. Before stage s stands the product of the factors from place s on. Shifted by the
/// stage's root it has as prepared pair the shifted factor and the shifted product of the later
/// ones, and no other; the shift by the root's negative brings both back.
pub fn stage_laws()
    ensures preparable { (S : SeriesRing) (D s : ℕ) (d : Root) (roots : List Root)
        (F : Poly S) (fs : List (Poly S)) →
        IsFactorable F roots → IsFactorList D F roots fs → s < length roots →
        let r : Root = slice_index_or roots s d in
        IsPreparable (shifted r.value (product_from D s fs)) r.times
        (total_times (drop (suc s) roots)) }
    ensures prepared { (S : SeriesRing) (D s : ℕ) (d : Root) (roots : List Root)
        (F : Poly S) (fs : List (Poly S)) →
        IsFactorable F roots → IsFactorList D F roots fs → s < length roots →
        let r : Root = slice_index_or roots s d in
        IsPrepared (shifted r.value (product_from D s fs)) r.times
        (total_times (drop (suc s) roots)) D
        (shifted r.value (slice_index_or fs s zero))
        (shifted r.value (product_from D (suc s) fs)) }
    ensures back { (S : SeriesRing) (D s : ℕ) (d : Root) (roots : List Root)
        (F : Poly S) (fs : List (Poly S)) →
        IsFactorable F roots → IsFactorList D F roots fs → s < length roots → (p u : Poly S) →
        let r : Root = slice_index_or roots s d in
        IsPrepared (shifted r.value (product_from D s fs)) r.times
        (total_times (drop (suc s) roots)) D p u →
        (p ≡ shifted r.value (slice_index_or fs s zero))
        × (u ≡ shifted r.value (product_from D (suc s) fs))
        × (shifted (S.modulus - r.value) p ≡ slice_index_or fs s zero)
        × (shifted (S.modulus - r.value) u ≡ product_from D (suc s) fs) }
    ensures later { (S : SeriesRing) (D : ℕ) (r : Root) (roots : List Root)
        (F f : Poly S) (fs : List (Poly S)) →
        IsFactorable F (r ∷ roots) → IsFactorList D F (r ∷ roots) (f ∷ fs) →
        IsFactorable (product_from D 1 (f ∷ fs)) roots
        × IsFactorList D (product_from D 1 (f ∷ fs)) roots fs }
    ensures truncated { (S : SeriesRing) (e D s : ℕ) (fs : List (Poly S)) → e ≤ D →
        product_from e s (each_truncated e fs) ≡ truncated e (product_from D s fs) }
    ensures same { (S : SeriesRing) (G H : Poly S) (k q D : ℕ) (p u : Poly S) →
        truncated D G ≡ truncated D H → IsPrepared G k q D p u → IsPrepared H k q D p u }
{}

/// Lawful jobs. The formal degree is the sum of the multiplicities, at most 32, and the lead's
/// constant term is a unit. There is exactly one monic input at each degree; it is factorable by the
/// roots, and its lists of factors are the job's. An accepted job is lawful.
pub fn job_laws()
    ensures degree { (job : JobData) → IsLawfulJob job →
        (total_times job.roots ≡ formal_degree job.expr) × (formal_degree job.expr ≤ 32) }
    ensures input { (job : JobData) → IsLawfulJob job → IsValidInput (job_ring job) job.expr }
    ensures lead { (job : JobData) (D : ℕ) (l : Poly (job_ring job)) → IsLawfulJob job →
        IsLead (job_ring job) D job.expr l →
        IsUnit (job_ring job).modulus (constant_term l) }
    ensures monic_input { (job : JobData) (D : ℕ) → IsLawfulJob job →
        ExactlyOne (IsMonicInput (job_ring job) D job.expr) }
    ensures factorable { (job : JobData) (D : ℕ) (q : Poly (job_ring job)) → IsLawfulJob job →
        IsMonicInput (job_ring job) D job.expr q → IsFactorable q job.roots }
    ensures lists { (job : JobData) (D : ℕ) (q : Poly (job_ring job))
        (fs : List (Poly (job_ring job))) → IsLawfulJob job →
        IsMonicInput (job_ring job) D job.expr q →
        (IsFactors job D fs ↔ IsFactorList D q job.roots fs) }
    ensures accepted { (job : JobData) → IsAccepted job → IsLawfulJob job }
{}
