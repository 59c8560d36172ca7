//! Weights, cut into blocks of neighbours of which the heaviest is as light as can be.
ghost use Rattle.std.specs.Prelude.{◌≡◌, ℕ, ◌+◌, ◌^◌, ◌<◌, ◌≤◌, ◌↔◌, length, sum, All, IfOk, IsTrue};
ghost use Rattle.pipe.specs.Cuts.{IsCutWithin, HasCut, IsLightest};

use ps_model::OutOfMemory;
use std::alloc::Global;

/// The ends of at most `workers` blocks of neighbours that cover all weights, each the place behind
/// the last weight of its block. No such cut has a lighter heaviest block.
///
/// Where several cuts are as good, each block takes all that it can hold, the first one first. It goes
/// over the weights at most 67 times, and takes memory for the answer alone.
pub fn cut_blocks(alloc: Global, weights: &[u64], workers: u32) -> Result<Vec<u32>, OutOfMemory>
    requires some { 0 < length weights.now }
    requires few { length weights.now < 2 ^ 32 }
    requires total { sum weights.now < 2 ^ 64 }
    requires workers { 1 ≤ workers }
    ensures { IfOk result (λ ends. IsLightest workers weights.now ends.items) }
{
    let limit = least_limit(weights, workers);
    ends_within(alloc, weights, limit, workers)
}

/// How heavy the heaviest of at most `workers` blocks has to be. It halves what lies between the
/// greatest weight and the sum.
fn least_limit(weights: &[u64], workers: u32) -> u64
    requires some { 0 < length weights.now }
    requires total { sum weights.now < 2 ^ 64 }
    requires workers { 1 ≤ workers }
    ensures enough { HasCut workers result weights.now }
    ensures least { (limit : ℕ) → HasCut workers limit weights.now → result ≤ limit }
{
    let mut low = greatest(weights);
    let mut high = total(weights);
    while low < high {
        let middle = low + (high - low) / 2;
        if can_cut(weights, middle, workers) {
            high = middle;
        } else {
            low = middle + 1;
        }
    }
    high
}

/// All weights together.
fn total(weights: &[u64]) -> u64
    requires { sum weights.now < 2 ^ 64 }
    ensures { result ≡ sum weights.now }
{
    weights.iter().sum()
}

/// The greatest weight.
fn greatest(weights: &[u64]) -> u64
    ensures each { All (λ w. w ≤ result) weights.now }
    ensures least { (limit : ℕ) → All (λ w. w ≤ limit) weights.now → result ≤ limit }
{
    weights.iter().copied().max().unwrap_or(0)
}

/// Whether there is a cut into at most `workers` blocks, none heavier than the limit.
///
/// It counts blocks that take all that they can hold: no cut within the limit has fewer.
fn can_cut(weights: &[u64], limit: u64, workers: u32) -> bool
    requires some { 0 < length weights.now }
    requires each { All (λ w. w ≤ limit) weights.now }
    ensures { IsTrue result ↔ HasCut workers limit weights.now }
{
    let mut blocks: u64 = 1;
    let mut load = 0;
    for weight in weights {
        if *weight > limit - load {
            blocks += 1;
            load = 0;
        }
        load += *weight;
    }
    blocks <= u64::from(workers)
}

/// The ends of the blocks that `can_cut` counts.
fn ends_within(
    alloc: Global,
    weights: &[u64],
    limit: u64,
    workers: u32,
) -> Result<Vec<u32>, OutOfMemory>
    requires some { 0 < length weights.now }
    requires few { length weights.now < 2 ^ 32 }
    requires enough { HasCut workers limit weights.now }
    ensures { IfOk result (λ ends. IsCutWithin workers limit weights.now ends.items) }
{
    let mut ends = Vec::new(alloc);
    let mut load = 0;
    for (place, weight) in weights.iter().enumerate() {
        if *weight > limit - load {
            ends.push(place as u32)?;
            load = 0;
        }
        load += *weight;
    }
    ends.push(weights.len() as u32)?;
    Ok(ends)
}
