//! How the stages of a line are cut into blocks, one for each worker.
ghost use Rattle.std.specs.Prelude.{◌≡◌, ℕ, ◌≤◌, ◌<◌, ◌^◌, IfOk};
ghost use Rattle.ps_model.specs.AcceptedJob.{IsAccepted};
ghost use Rattle.ps_model.specs.Factors.{total_times};
ghost use Rattle.pipe.specs.Cuts.{IsLightest, root_weights, stage_weights};

use crate::cut::cut_blocks;
use crate::weights::weight;
use ps_model::{JobData, OutOfMemory, Root};
use std::alloc::Global;

/// The ends of at most `workers` blocks of neighbouring stages, of which the one with the most work
/// has as little as can be.
pub(crate) fn ends_of(alloc: Global, job: &JobData, workers: u32) -> Result<Vec<u32>, OutOfMemory>
    requires accepted { IsAccepted job.now }
    requires workers { 1 ≤ workers }
    ensures { IfOk result (λ ends. IsLightest workers (stage_weights job.now) ends.items) }
{
    let weights = weights_of(alloc, job.roots.as_slice())?;
    cut_blocks(alloc, &weights, workers)
}

/// The weights of the stages of these roots. A stage leaves the product of the factors of the later
/// roots.
fn weights_of(alloc: Global, roots: &[Root]) -> Result<Vec<u64>, OutOfMemory>
    requires few { total_times roots.now < 2 ^ 32 }
    ensures { IfOk result (λ weights. weights.items ≡ root_weights roots.now) }
{
    let mut left = all_times(roots);
    let mut weights = Vec::with_capacity(alloc, roots.len())?;
    for root in roots {
        left -= root.times;
        weights.push(weight(root.times, left))?;
    }
    Ok(weights)
}

/// The multiplicities of all roots together.
fn all_times(roots: &[Root]) -> u32
    requires few { total_times roots.now < 2 ^ 32 }
    ensures { result ≡ total_times roots.now }
{
    let mut times = 0;
    for root in roots {
        times += root.times;
    }
    times
}
