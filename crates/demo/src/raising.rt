//! The factors of a number's job.
ghost use Rattle.std.specs.Prelude.{◌≡◌, ◌+◌, ◌^◌, ◌≤◌, IfOk, OnOk};
ghost use Rattle.printer.specs.View.{HasUpTo};
ghost use Rattle.session.specs.Sessions.{value_of};
ghost use Rattle.demo.specs.Generator.{demo_job, demo_names};

use crate::jobs::job_of;
use prepare::Tally;
use ps_model::OutOfMemory;
use rows::OwnRow;
use session::{Session, SessionView};
use stages::StageItem;
use std::alloc::Global;

/// The degree to which factors are found.
pub(crate) const PRECISION: u32 = 40;

/// A session of the job that a number makes, raised to degree 40: each degree ticks once, of each
/// of the four roots.
pub(crate) fn raised(
    alloc: Global,
    seed: u64,
    tally: &mut Tally,
) -> Result<Session<OwnRow<StageItem>>, OutOfMemory>
    requires { tally.old ≤ 2 ^ 61 }
    ensures job { IfOk result (λ s. (⟦<Session<OwnRow<StageItem>> as SessionView>⟧.state s).job
        ≡ record { names = demo_names; job = demo_job seed }) }
    ensures known { IfOk result (λ s.
        HasUpTo (value_of (⟦<Session<OwnRow<StageItem>> as SessionView>⟧.state s)) 40) }
    ensures steps { OnOk result (tally.new ≡ tally.old + 164) }
    ensures more { tally.old ≤ tally.new }
    ensures at_most { tally.new ≤ tally.old + 164 }
{
    let job = job_of(alloc, seed)?;
    let mut session = Session::open(alloc, job)?;
    session.raise(PRECISION, tally)?;
    Ok(session)
}
