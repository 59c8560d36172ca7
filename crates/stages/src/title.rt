//! What the row of a stage is of.
ghost use Rattle.std.specs.Prelude.{◌≡◌, ◌<◌, length};

use ps_model::{JobData, Root};
use std::marker::Model;
use std::sync::Arc;

/// A stage of a job. Stages are numbered from 0, as the job's roots are.
#[derive(Drop)]
pub struct StageTitle {
    pub job: Arc<JobData>,
    pub stage: u32,
}

impl Model for StageTitle {
    ghost use Rattle.std.specs.Arc.{arc_value};
    ghost use Rattle.stages.specs.Titles.{TitleValue, title_code};

    ghost Value = { TitleValue };

    ghost coded = { title_code };

    ghost view = { λ title. record { job = arc_value title.job; stage = title.stage } };
}

impl StageTitle {
    ghost use Rattle.stages.specs.Titles.{root_at};

    /// The root of the stage.
    pub(crate) fn root(&self) -> Root
        requires { self.now.stage < length self.now.job.roots }
        ensures { result ≡ root_at self.now.job self.now.stage }
    {
        self.job.roots.as_slice()[self.stage as usize]
    }
}
