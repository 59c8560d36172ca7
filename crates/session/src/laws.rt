//! What is written from a session is what the definitions say of its job, and how many steps its
//! raises take.
ghost use Rattle.std.specs.Prelude.{◌≡◌, ℕ, ◌*◌, max, length};
ghost use Rattle.ps_model.specs.declared.job.JobData.{JobData};
ghost use Rattle.parts.specs.declared.rings.Ring.{Ring as RingOf};
ghost use Rattle.parts.specs.JobRows.{IsRingOf};
ghost use Rattle.printer.specs.View.{HasUpTo};
ghost use Rattle.intake.specs.Jobs.{JobValue};
ghost use Rattle.session.specs.Calls.{IsFresh, KeepsSession, IsRaised, IsEven, prepared_degrees};
ghost use Rattle.session.specs.Factors.{job_in, HasFactorsTo};
ghost use Rattle.session.specs.Sessions.{SessionState, IsSession, HasItems, value_of};

/// Where a session has all rows and the lead up to degree D, what a writer sees of them are the
/// job's one list of factors and its lead up to D, and the texts are those of the definitions.
pub fn factor_laws()
    ensures same_job { (ring : RingOf) (job : JobData) → IsRingOf ring job → job_in ring job ≡ job }
    ensures factors { (s : SessionState) (D : ℕ) → IsSession s → HasItems s →
        HasUpTo (value_of s) D → HasFactorsTo s D }
{}

/// Raises that aren't refused keep all rows, preparations and the lead even: behind them a session
/// that was fresh has prepared, of each root, the degrees up to the greatest that was asked for.
pub fn step_laws()
    ensures fresh { (capacity : ℕ) (job : JobValue) (s : SessionState) →
        IsFresh capacity job s → IsEven 0 s }
    ensures raised { (m n : ℕ) (old new : SessionState) → IsEven m old → KeepsSession old new →
        IsRaised n old new → IsEven (max n m) new }
    ensures steps { (n : ℕ) (s : SessionState) → IsSession s → IsEven n s →
        prepared_degrees s ≡ length s.job.job.roots * n }
{}
