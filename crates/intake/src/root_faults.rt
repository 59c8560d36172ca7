//! What is wrong with the roots of a job whose input has no fault.
ghost use Rattle.std.specs.Prelude.{◌≡◌, ◌+◌, ◌<◌, ◌≤◌, length, OnOk, IfErr};
ghost use Rattle.std.specs.List.{All};
ghost use Rattle.ps_model.specs.declared.job.JobData.{JobData as Job};
ghost use Rattle.ps_model.specs.AcceptedJob.{IsAcceptedRoot};
ghost use Rattle.ps_model.specs.Job.{IsValidJob};
ghost use Rattle.residue.specs.Residues.{number_of, IsResidue};
ghost use Rattle.intake.specs.JobErrors.{IsJobRefusal};
ghost use Rattle.intake.specs.RootFaults.{IsJobOf};

use crate::differences::first_difference;
use crate::job_error::JobError;
use crate::roots::{near_pair, total_times};
use ps_model::Root;
use residue::{Modulus, NoInverse};
use std::alloc::Global;

/// Tests the roots of a job, in the order of `JobError` behind the faults of an input. `input[j]`
/// is the input's coefficient of Y^j at the origin, from Y^0 to the formal degree.
pub fn test_roots(
    alloc: Global,
    modulus: Modulus,
    input: &[u64],
    roots: &[Root],
) -> Result<(), JobError>
    requires some { 0 < length input.now }
    requires few { length input.now ≤ 33 }
    requires residues { All (IsResidue modulus) input.now }
    requires roots { All (IsAcceptedRoot (number_of modulus)) roots.now }
    ensures ok { OnOk result ((job : Job) → IsJobOf (number_of modulus) input.now roots.now job
        → IsValidJob job) }
    ensures err { IfErr result (λ e. (job : Job) → IsJobOf (number_of modulus) input.now roots.now job
        → IsJobRefusal job e) }
{
    let last = input.len() - 1;
    let lead = input[last];
    if let Err(NoInverse { gcd }) = modulus.inverse(lead) {
        return Err(JobError::LeadNotAUnit { value: lead, gcd });
    }
    let degree = last as u32;
    let sum = total_times(roots);
    if degree != sum {
        return Err(JobError::DegreeMismatch { degree, sum });
    }
    if let Some(pair) = near_pair(modulus, roots) {
        return Err(JobError::NotApart {
            first: pair.first as u32,
            second: pair.second as u32,
            difference: pair.difference,
            gcd: pair.gcd,
        });
    }
    if let Some(difference) = first_difference(alloc, modulus, input, lead, roots)? {
        return Err(JobError::RootsMismatch {
            power: difference.power,
            input: difference.input,
            roots: difference.roots,
        });
    }
    Ok(())
}
