//! Worked examples of the definitions of jobs. Each function's contract is a group of them;
//! `specs/Examples.antt` has the trees.
ghost use Rattle.std.specs.Prelude.{◌≡◌, ℕ, List, [], ◌∷◌, ◌++◌, false, true, codes};
ghost use Rattle.std.specs.Prelude.{Some, None};
ghost use Rattle.ps_model.specs.Tree.{formal_degree, node_count, has_y, divisors, IsValidTree};
ghost use Rattle.ps_model.specs.Value.{HasLead, IsValue};
ghost use Rattle.ps_model.specs.SeriesRing.{Poly};
ghost use Rattle.ps_model.specs.Notation.{zero, one, shifted, truncated};
ghost use Rattle.ps_model.specs.BlockText.{power_line, block_text};
ghost use Rattle.ps_model.specs.Job.{series_ring, job_ring, IsFactors, IsFirstFault};
ghost use Rattle.ps_model.specs.Job.{IsValidJob, OfInput, LeadNotAUnit};
ghost use Rattle.ps_model.specs.Job.{DegreeMismatch, NotApart, RootsMismatch};
ghost use Rattle.ps_model.specs.Input.{DividesByY, TooManyNodes, DegreeTooLarge, NotAUnit};
ghost use Rattle.ps_model.specs.Lead.{IsLead, IsLeadShown};
ghost use Rattle.ps_model.specs.Examples.{three_y_plus_x, two_y_plus_one, two_job, two_factors};
ghost use Rattle.ps_model.specs.Examples.{series_times_square, square_job, two_and_x, square_factors};
ghost use Rattle.ps_model.specs.Examples.{quotient_job, three_ones, quotient_factors};
ghost use Rattle.ps_model.specs.Examples.{ring_modulo, job, root};
ghost use Rattle.ps_model.specs.Examples.{x, y, number, divided, raised, quadratic, y_plus_one};
ghost use Rattle.ps_model.specs.Examples.{tower, halved_cube, y_over_series, double_division};
ghost use Rattle.ps_model.specs.Examples.{lone_summand, lone_minus, lone_factor, divided_first};
ghost use Rattle.ps_model.specs.Examples.{two_y_squared, vanishing_cube, halved};
ghost use Rattle.ps_model.specs.Examples.{one_over_y, one_over_x, one_over_two_plus_x};
ghost use Rattle.ps_model.specs.Examples.{over_x_and_y, power_zero_of_quotient};
ghost use Rattle.ps_model.specs.Examples.{fourth_power_plus_x, square_plus_x, minus_one};
ghost use Rattle.ps_model.specs.Examples.{square_plus_one, square_plus_y, split_job};
ghost use Rattle.ps_model.specs.Examples.{written, two_x_three_x, geometric, split_factors};
ghost use Rattle.ps_model.specs.Examples.{double_root_job, double_root_factors};
ghost use Rattle.ps_model.specs.Examples.{double_root_start, two_variables};
ghost use Rattle.ps_model.specs.Examples.{quadratic_job, quadratic_factors, split_factors_to_4};
ghost use Rattle.ps_model.specs.Examples.{cubic_job, cubic_factors, three_roots_job};
ghost use Rattle.ps_model.specs.Examples.{three_roots_factors, geometric_job, geometric_factors};
ghost use Rattle.ps_model.specs.Examples.{halved_job, halved_factors, degree_of};
ghost use Rattle.ps_model.specs.Examples.{four_terms, two_of_four, weighted_job, weighted_factors};

/// Formal degrees: a divisor leaves the degree, and what cancels still counts.
pub fn degrees()
    ensures quadratic { formal_degree quadratic ≡ 2 }
    ensures power { formal_degree (raised y_plus_one 40) ≡ 40 }
    ensures divisor { formal_degree y_over_series ≡ 1 }
    ensures products { formal_degree halved_cube ≡ 3 }
    ensures tower { formal_degree tower ≡ 4228250625 }
{}

/// Node counts: of sums, of products with and without divisors, and of powers.
pub fn nodes()
    ensures quadratic { node_count quadratic ≡ 14 }
    ensures sum { node_count y_plus_one ≡ 5 }
    ensures power_40 { node_count (raised y_plus_one 40) ≡ 863 }
    ensures power_100 { node_count (raised y_plus_one 100) ≡ 5153 }
    ensures power_255 { node_count (raised y 255) ≡ 32895 }
    // 2 of Y, 3 of 1 - x and 2 of the quotient, which has Y's degree.
    ensures divisor { node_count y_over_series ≡ 7 }
    ensures products { node_count halved_cube ≡ 17 }
{}

/// Divisors stand from left to right, an outer one before those within it.
pub fn divisors_in_order()
    ensures double { divisors double_division ≡ divided (number 1) x ∷ x ∷ [] }
    ensures none { divisors quadratic ≡ [] }
    ensures with_y { has_y double_division ≡ true }
    ensures without_y { has_y (divided (number 1) x) ≡ false }
{}

/// Trees at the edge of what an expression has, and beyond.
pub fn valid_trees()
    ensures quadratic { IsValidTree 1 quadratic }
    ensures lone_minus { IsValidTree 1 lone_minus }
    ensures lone_summand { IsValidTree 1 lone_summand → ⊥ }
    ensures lone_factor { IsValidTree 1 lone_factor → ⊥ }
    ensures divided_first { IsValidTree 1 divided_first → ⊥ }
    ensures exponent { IsValidTree 1 (raised y 255) }
    ensures large_exponent { IsValidTree 1 (raised y 256) → ⊥ }
    ensures number { IsValidTree 1 (number 18446744073709551615) }
    ensures large_number { IsValidTree 1 (number 18446744073709551616) → ⊥ }
    ensures unnamed { IsValidTree 0 x → ⊥ }
{}

/// Leading numbers modulo 7, which the form of a tree tells: what cancels leaves 0, a divisor that
/// is a number counts by its inverse, and one with a variable leaves it unknown.
pub fn leading_numbers()
    ensures quadratic { HasLead (ring_modulo 7) quadratic 1 }
    ensures two { HasLead (ring_modulo 7) two_y_squared 2 }
    ensures not_one { HasLead (ring_modulo 7) two_y_squared 1 → ⊥ }
    ensures vanishing { HasLead (ring_modulo 7) vanishing_cube 0 }
    ensures vanishes { HasLead (ring_modulo 7) vanishing_cube 1 → ⊥ }
    ensures unknown { (l : ℕ) → HasLead (ring_modulo 7) y_over_series l → ⊥ }
    ensures halved { HasLead (ring_modulo 7) halved 1 }
{}

/// Faults that the form of a tree has, each the first of its job.
pub fn faults_of_form()
    ensures by_y { IsFirstFault (job 7 one_over_y (root 0 1 ∷ [])) (OfInput (DividesByY 1)) }
    ensures nodes { IsFirstFault (job 7 (raised y_plus_one 100) (root 6 100 ∷ []))
        (OfInput (TooManyNodes 5153)) }
    // More nodes than the largest count that is told.
    ensures tower { IsFirstFault (job 7 tower (root 0 1 ∷ [])) (OfInput (TooManyNodes 4294967295)) }
    ensures degree { IsFirstFault (job 7 (raised y_plus_one 40) (root 6 40 ∷ []))
        (OfInput (DegreeTooLarge 40)) }
{}

/// Leads whose constant term isn't a unit: 3 modulo 6, and 0 where the highest power cancels.
pub fn faults_of_leads()
    ensures three { IsFirstFault (job 6 three_y_plus_x (root 0 1 ∷ [])) (LeadNotAUnit 3 3) }
    ensures vanishing { IsFirstFault (job 7 vanishing_cube (root 0 1 ∷ [])) (LeadNotAUnit 0 7) }
{}

/// Divisions by x, which is 0 at the origin: the first of a job; and the second where the first
/// doesn't fail, since its divisor has no value. A divisor may be 2 at the origin, modulo 6.
pub fn faults_of_divisions()
    ensures by_x { IsFirstFault (job 7 one_over_x (root 0 1 ∷ [])) (OfInput (NotAUnit 1 0 7)) }
    ensures double { IsFirstFault (job 7 double_division (root 0 1 ∷ [])) (OfInput (NotAUnit 2 0 7)) }
    ensures two { IsFirstFault (job 6 one_over_two_plus_x (root 0 1 ∷ [])) (OfInput (NotAUnit 1 2 2)) }
{}

/// Faults of the roots: their number, two that differ by no unit, one that stands twice, and
/// coefficients at the origin that differ, at the lowest power of Y.
pub fn faults_of_roots()
    ensures degree { IsFirstFault (job 7 square_plus_x (root 0 3 ∷ [])) (DegreeMismatch 2 3) }
    ensures near { IsFirstFault (job 6 square_plus_x (root 1 1 ∷ root 4 1 ∷ []))
        (NotApart 1 2 3 3) }
    ensures twice { IsFirstFault (job 7 square_plus_x (root 3 1 ∷ root 3 1 ∷ []))
        (NotApart 1 2 0 7) }
    ensures minus { IsFirstFault (job 7 minus_one (root 1 1 ∷ root 5 1 ∷ []))
        (RootsMismatch 0 6 5) }
    ensures plus { IsFirstFault (job 7 square_plus_one (root 0 2 ∷ [])) (RootsMismatch 0 1 0) }
    ensures power { IsFirstFault (job 7 square_plus_y (root 0 1 ∷ root 3 1 ∷ []))
        (RootsMismatch 1 1 4) }
    ensures lead { IsFirstFault (job 7 two_y_plus_one (root 0 1 ∷ [])) (RootsMismatch 0 1 0) }
{}

/// The first of several: the second division is the first by Y, which comes before the first that
/// fails; a division counts under the power 0 too; and of the pairs of roots 1 and 4, 2 and 3, and
/// 3 and 4 the first is told.
pub fn first_of_several()
    ensures by_y { IsFirstFault (job 7 over_x_and_y (root 0 1 ∷ [])) (OfInput (DividesByY 2)) }
    ensures power_zero { IsFirstFault (job 7 power_zero_of_quotient (root 0 1 ∷ []))
        (OfInput (NotAUnit 1 0 7)) }
    ensures pair { IsFirstFault
        (job 6 fourth_power_plus_x (root 0 1 ∷ root 1 1 ∷ root 5 1 ∷ root 2 1 ∷ []))
        (NotApart 1 4 4 2) }
{}

/// Jobs without a fault: modulo 15, and with the leads 2 and 2 + x modulo 7.
pub fn valid_jobs()
    ensures split { IsValidJob split_job }
    ensures two { IsValidJob two_job }
    ensures square { IsValidJob square_job }
{}

/// Values up to degree 2: a product that vanishes modulo 6, the quotient 1 / (1 - x), a number as
/// its residue, and the power 0; and divisions without a value.
pub fn values()
    ensures vanishing { IsValue (ring_modulo 6) 2 two_x_three_x zero }
    ensures vanishes { (v : Poly (ring_modulo 6)) → IsValue (ring_modulo 6) 2 two_x_three_x v →
        v ≡ zero }
    ensures geometric { IsValue (ring_modulo 7) 2 geometric
        (written (ring_modulo 7) ((1, [], 0) ∷ (1, 1 ∷ [], 0) ∷ (1, 2 ∷ [], 0) ∷ [])) }
    ensures residue { IsValue (ring_modulo 7) 2 (number 8) one }
    ensures power_zero { IsValue (ring_modulo 7) 2 (raised (number 0) 0) one }
    ensures by_x { (v : Poly (ring_modulo 7)) → IsValue (ring_modulo 7) 2 (divided x x) v → ⊥ }
    ensures by_y { (v : Poly (ring_modulo 7)) → IsValue (ring_modulo 7) 2 (divided y y) v → ⊥ }
{}

/// The shift, Y + c in place of Y: of Y^2 by 3 modulo 7, and back; and of x * Y, modulo 15.
pub fn shifts()
    ensures square { shifted 3 (written (ring_modulo 7) ((1, [], 2) ∷ []))
        ≡ written (ring_modulo 7) ((2, [], 0) ∷ (6, [], 1) ∷ (1, [], 2) ∷ []) }
    ensures back { shifted 4 (written (ring_modulo 7)
        ((2, [], 0) ∷ (6, [], 1) ∷ (1, [], 2) ∷ []))
        ≡ written (ring_modulo 7) ((1, [], 2) ∷ []) }
    ensures variable { shifted 10 (written (ring_modulo 15) ((1, 1 ∷ [], 1) ∷ []))
        ≡ written (ring_modulo 15) ((10, 1 ∷ [], 0) ∷ (1, 1 ∷ [], 1) ∷ []) }
{}

/// The factors of a job modulo 15, up to degree 1, and no other list; and of one with a double
/// root, up to degree 3 and 0.
pub fn factors()
    ensures split { IsFactors split_job 1 split_factors }
    ensures only { (fs : List (Poly (job_ring split_job))) → IsFactors split_job 1 fs →
        fs ≡ split_factors }
    ensures double { IsFactors double_root_job 3 double_root_factors }
    ensures start { IsFactors double_root_job 0 double_root_start }
{}

/// Factors of more jobs: modulo 101 and 15 up to higher degrees, with a double root that x splits,
/// and with two variables and three roots.
pub fn more_factors()
    ensures quadratic { IsFactors quadratic_job 2 quadratic_factors }
    ensures split { IsFactors split_job 4 split_factors_to_4 }
    ensures cubic { IsFactors cubic_job 1 cubic_factors }
    ensures three_roots { IsFactors three_roots_job 1 three_roots_factors }
{}

/// Factors of jobs with a division: by a series, and by a number.
pub fn factors_with_divisions()
    ensures series { IsFactors geometric_job 2 geometric_factors }
    ensures number { IsFactors halved_job 1 halved_factors }
{}

/// Leads that aren't known to be 1, and the factors beside them: a number, a polynomial, and a series
/// up to degree 2.
pub fn leads()
    ensures two { IsLead (ring_modulo 7) 0 two_y_plus_one (written (ring_modulo 7) ((2, [], 0) ∷ [])) }
    ensures two_shown { IsLeadShown (ring_modulo 7) two_y_plus_one }
    ensures two_factors { IsFactors two_job 0 two_factors }
    ensures square { IsLead (ring_modulo 7) 2 series_times_square (written (ring_modulo 7) two_and_x) }
    ensures square_shown { IsLeadShown (ring_modulo 7) series_times_square }
    ensures square_factors { IsFactors square_job 2 square_factors }
    ensures quotient { IsLead (ring_modulo 7) 2 y_over_series (written (ring_modulo 7) three_ones) }
    ensures quotient_factors { IsFactors quotient_job 2 quotient_factors }
{}

/// Variables of the weights 1 and 3, or 2: degrees, where a weight 0 and a missing one count as 1; a
/// truncation, which keeps z*Y; the factors of a job up to degree 1; and the order of a line's terms.
pub fn weights()
    ensures degree { degree_of (series_ring 7 (1 ∷ 3 ∷ [])) (2 ∷ 1 ∷ []) 4 ≡ 5 }
    ensures least { degree_of (series_ring 7 (0 ∷ 3 ∷ [])) (2 ∷ 1 ∷ 4 ∷ []) 0 ≡ 9 }
    ensures truncated { truncated 3 (four_terms (series_ring 7 (1 ∷ 3 ∷ [])))
        ≡ two_of_four (series_ring 7 (1 ∷ 3 ∷ [])) }
    ensures factors { IsFactors weighted_job 1 weighted_factors }
    ensures line { power_line (series_ring 7 (1 ∷ 2 ∷ [])) (codes "x" ∷ codes "z" ∷ []) 2
        (two_variables (series_ring 7 (1 ∷ 2 ∷ []))) 0
        ≡ codes "Y^0: 5 + 3*x + 1*x^2 + 2*z\n" }
{}

/// The blocks of those factors, the last with its lead; and a line with two variables, whose terms
/// stand by degree, then by falling powers.
pub fn blocks()
    ensures split { block_text (job_ring split_job) (codes "x" ∷ []) None split_job.roots
        split_factors 1
        ≡ codes "precision 1\n"
        ++ codes "factor 1 root 0 times 1\n" ++ codes "Y^1: 1\n" ++ codes "Y^0: 14*x\n"
        ++ codes "factor 2 root 1 times 1\n" ++ codes "Y^1: 1\n" ++ codes "Y^0: 14 + 1*x\n" }
    ensures double { block_text (job_ring double_root_job) (codes "x" ∷ []) None double_root_job.roots
        double_root_factors 3
        ≡ codes "precision 3\n"
        ++ codes "factor 1 root 0 times 2\n" ++ codes "Y^2: 1\n" ++ codes "Y^1: 0\n"
        ++ codes "Y^0: 1*x\n"
        ++ codes "factor 2 root 1 times 1\n" ++ codes "Y^1: 1\n" ++ codes "Y^0: 6\n" }
    ensures start { block_text (job_ring double_root_job) (codes "x" ∷ []) None double_root_job.roots
        double_root_start 0
        ≡ codes "precision 0\n"
        ++ codes "factor 1 root 0 times 2\n" ++ codes "Y^2: 1\n" ++ codes "Y^1: 0\n"
        ++ codes "Y^0: 0\n"
        ++ codes "factor 2 root 1 times 1\n" ++ codes "Y^1: 1\n" ++ codes "Y^0: 6\n" }
    ensures quadratic { block_text (job_ring quadratic_job) (codes "x" ∷ []) None quadratic_job.roots
        quadratic_factors 2
        ≡ codes "precision 2\n"
        ++ codes "factor 1 root 10 times 1\n" ++ codes "Y^1: 1\n"
        ++ codes "Y^0: 91 + 51*x + 77*x^2\n"
        ++ codes "factor 2 root 91 times 1\n" ++ codes "Y^1: 1\n"
        ++ codes "Y^0: 10 + 51*x + 24*x^2\n" }
    ensures lead { block_text (job_ring square_job) (codes "x" ∷ [])
        (Some (written (job_ring square_job) two_and_x)) square_job.roots square_factors 2
        ≡ codes "precision 2\n" ++ codes "lead: 2 + 1*x\n"
        ++ codes "factor 1 root 0 times 2\n" ++ codes "Y^2: 1\n" ++ codes "Y^1: 0\n"
        ++ codes "Y^0: 4*x + 5*x^2\n" }
    ensures line { power_line (ring_modulo 7) (codes "x" ∷ codes "z" ∷ []) 2
        (two_variables (ring_modulo 7)) 0
        ≡ codes "Y^0: 5 + 3*x + 2*z + 1*x^2 + 4*x*z + 6*z^2\n" }
{}
