//! That a number has one text.
ghost use Rattle.std.specs.Prelude.{ℕ};
ghost use Rattle.ps_model.specs.AcceptedJob.{IsAccepted};
ghost use Rattle.ps_model.specs.Bounds.{ExactlyOne};
ghost use Rattle.demo.specs.DemoText.{IsDemoText};
ghost use Rattle.demo.specs.Generator.{demo_job};

/// The job of each number has no fault, so that there is exactly one text of it.
pub fn demo_law()
    ensures job { (seed : ℕ) → IsAccepted (demo_job seed) }
    ensures text { (seed : ℕ) → ExactlyOne (IsDemoText seed) }
{}
