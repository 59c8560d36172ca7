//! The job of a number.
ghost use Rattle.std.specs.Prelude.{◌≡◌, ◌<◌, ℕ, true, [], ◌∷◌, ◌++◌, length, slice_get, Some, IfOk, OnOk};
ghost use Rattle.ps_model.specs.Names.{is_name};
ghost use Rattle.residue.specs.Residues.{number_of};
ghost use Rattle.demo.specs.Generator.{demo_job, demo_names, prime, roots_by};

use crate::draws::{Draws, Multiplicities};
use crate::trees::tree;
use expr_reader::{NameError, Names};
use intake::{Job, JobError};
use ps_model::{OutOfMemory, Root};
use residue::Modulus;
use std::alloc::Global;

/// The modulus of each job, a prime.
pub(crate) const PRIME: u64 = 1_000_003;

/// That modulus.
fn modulus() -> Modulus
    ensures { number_of result ≡ prime }
{
    match Modulus::new(PRIME) {
        Ok(modulus) => modulus,
        Err(_) => unreachable!(),
    }
}

/// Adds a name that isn't there yet.
fn add(names: &mut Names, name: &str) -> Result<(), OutOfMemory>
    requires few { length names.old < 8 }
    requires name { is_name name.now ≡ true }
    requires once { (i : ℕ) → slice_get names.old i ≡ Some name.now → ⊥ }
    ensures { OnOk result (names.new ≡ names.old ++ name.now ∷ []) }
{
    match names.add(name) {
        Ok(_) => Ok(()),
        Err(error) => match error {
            NameError::OutOfMemory => Err(OutOfMemory),
            _ => unreachable!(),
        },
    }
}

/// The names of the variables.
fn names(alloc: Global) -> Result<Names, OutOfMemory>
    ensures { IfOk result (λ names. names ≡ demo_names) }
{
    let mut names = Names::new(alloc);
    add(&mut names, "x")?;
    add(&mut names, "y")?;
    Ok(names)
}

/// The roots 0, 1, 2 and 3 with these multiplicities.
fn roots(alloc: Global, times: Multiplicities) -> Result<Vec<Root>, OutOfMemory>
    ensures { IfOk result (λ roots.
        roots.items ≡ roots_by times.first times.second times.third times.fourth) }
{
    let roots = [
        Root {
            value: 0,
            times: times.first,
        },
        Root {
            value: 1,
            times: times.second,
        },
        Root {
            value: 2,
            times: times.third,
        },
        Root {
            value: 3,
            times: times.fourth,
        },
    ];
    Ok(Vec::from_slice(alloc, &roots)?)
}

/// The job that a number makes. It has no fault, so that memory alone may be wanting.
pub(crate) fn job_of(alloc: Global, seed: u64) -> Result<Job, OutOfMemory>
    ensures { IfOk result (λ job. job ≡ record { names = demo_names; job = demo_job seed }) }
{
    let mut draws = Draws { state: seed };
    let times = Multiplicities::draw(&mut draws);
    let tree = tree(alloc, times, &mut draws)?;
    let roots = roots(alloc, times)?;
    let names = names(alloc)?;
    match Job::make(alloc, modulus(), names, [1; 8], tree, roots) {
        Ok(job) => Ok(job),
        Err(error) => match error {
            JobError::OutOfMemory => Err(OutOfMemory),
            _ => unreachable!(),
        },
    }
}
