//! Where the parts of a job's monic input come from.
ghost use Rattle.std.specs.Prelude.{◌≡◌, take, IfOk};
ghost use Rattle.ps_model.specs.declared.job.JobData.{JobData};
ghost use Rattle.parts.specs.JobRows.{IsPermitted, IsInputRow};
ghost use Rattle.parts.specs.RowsOfParts.{parts_of};

use crate::homogeneous::Part;
use ps_model::OutOfMemory;
use std::sync::Arc;

/// The rows of a job's monic input, the polynomial that times the lead is its input, degree by
/// degree.
pub trait RowSource: Send {
    // The job whose monic input it is.
    ghost job: { Self → JobData };

    /// The parts of degree r of the monic input: `row[j]` belongs to Y^j, from Y^0 to the formal
    /// degree. The job stays, also on a refusal.
    fn row(&mut self, r: u32) -> Result<Vec<Arc<Part>>, OutOfMemory>
        requires { IsPermitted (take (job self.old).n (job self.old).weights) r }
        ensures row { IfOk result (λ row. IsInputRow (job self.old) r (parts_of row.items)) }
        ensures same_job { job self.new ≡ job self.old };
}
