//! Jobs from texts, and sessions that are raised.
ghost use Rattle.std.specs.Prelude.{◌≡◌, ◌≤◌, length, IfOk};
ghost use Rattle.std.specs.List.{All};
ghost use Rattle.ps_model.specs.AcceptedJob.{IsAccepted, IsAcceptedRoot, AreWeights};
ghost use Rattle.residue.specs.Residues.{number_of};

use expr_reader::{Names, read};
use intake::Job;
use parts::permitted;
use prepare::Tally;
use ps_model::Root;
use residue::Modulus;
use rows::OwnRow;
use session::Session;
use stages::StageItem;
use std::alloc::Global;
use std::test::Fail;

pub fn names_of(alloc: Global, texts: &[&str]) -> Result<Names, Fail> {
    let mut names = Names::new(alloc);
    for text in texts {
        names.add(text)?;
    }
    Ok(names)
}

/// A root within its limits.
fn root_of(modulus: Modulus, value: u64, times: u32) -> Result<Root, Fail>
    ensures { IfOk result (IsAcceptedRoot (number_of modulus)) }
{
    if value >= modulus.value() || times < 1 || times > 32 {
        return Err("no root")?;
    }
    Ok(Root { value, times })
}

fn roots_of(alloc: Global, modulus: Modulus, pairs: &[(u64, u32)]) -> Result<Vec<Root>, Fail>
    ensures accepted { IfOk result (λ roots. All (IsAcceptedRoot (number_of modulus)) roots.items) }
{
    let mut roots = Vec::new(alloc);
    for &(value, times) in pairs {
        roots.push(root_of(modulus, value, times)?)?;
    }
    Ok(roots)
}

/// Weights of so many variables, of which the second one weighs what is asked.
fn weights_of(names: u32, second: u16) -> Result<[u16; 8], Fail>
    requires { names ≤ 8 }
    ensures { IfOk result (AreWeights names) }
{
    if names < 2 {
        return Ok([1; 8]);
    }
    if second < 1 || second > 64 {
        return Err("no weight")?;
    }
    Ok([1, second, 1, 1, 1, 1, 1, 1])
}

/// The job of a polynomial; the second variable has this weight, and all others 1.
pub fn job_of(
    alloc: Global,
    modulus: u64,
    names: &[&str],
    second_weight: u16,
    polynomial: &[u8],
    roots: &[(u64, u32)],
) -> Result<Job, Fail>
    ensures accepted { IfOk result (λ job. IsAccepted job.job) }
    ensures names { IfOk result (λ job. length job.names ≡ job.job.n) }
{
    let modulus = Modulus::new(modulus)?;
    let names = names_of(alloc, names)?;
    let weights = weights_of(names.len(), second_weight)?;
    if polynomial.len() > 65536 {
        return Err("too long")?;
    }
    let tree = read(alloc, polynomial, &names)?;
    let roots = roots_of(alloc, modulus, roots)?;
    if names.len() == 0 || roots.is_empty() {
        return Err("no job")?;
    }
    Ok(Job::make(alloc, modulus, names, weights, tree, roots)?)
}

/// Raises a session to a degree that may be asked for.
pub fn raised(
    session: &mut Session<OwnRow<StageItem>>,
    to: u32,
    tally: &mut Tally,
) -> Result<(), Fail> {
    if !permitted(session.ring(), to) || tally.count() > 1000 {
        return Err("not to be raised")?;
    }
    session.raise(to, tally)?;
    Ok(())
}
