//! Jobs over x and y modulo 101.
ghost use Rattle.std.specs.Prelude.{IfOk};
ghost use Rattle.std.specs.List.{All};
ghost use Rattle.ps_model.specs.AcceptedJob.{IsAccepted, IsAcceptedRoot};
ghost use Rattle.residue.specs.Residues.{number_of};

use expr_reader::{Names, read};
use intake::Job;
use ps_model::Root;
use residue::Modulus;
use std::alloc::Global;
use std::test::Fail;

/// A root within its limits.
fn root_of(modulus: Modulus, value: u64, times: u32) -> Result<Root, Fail>
    ensures { IfOk result (IsAcceptedRoot (number_of modulus)) }
{
    if value >= modulus.value() || times < 1 || times > 32 {
        return Err("no root")?;
    }
    Ok(Root { value, times })
}

/// Roots with their multiplicities, all within their limits.
fn roots_of(alloc: Global, modulus: Modulus, pairs: &[(u64, u32)]) -> Result<Vec<Root>, Fail>
    ensures { IfOk result (λ roots. All (IsAcceptedRoot (number_of modulus)) roots.items) }
{
    let mut roots = Vec::new(alloc);
    for &(value, times) in pairs {
        roots.push(root_of(modulus, value, times)?)?;
    }
    Ok(roots)
}

/// The job of a polynomial whose roots at the origin are these, with their multiplicities.
fn job_of(alloc: Global, polynomial: &[u8], pairs: &[(u64, u32)]) -> Result<Job, Fail>
    ensures { IfOk result (λ job. IsAccepted job.job) }
{
    let modulus = Modulus::new(101)?;
    let mut names = Names::new(alloc);
    names.add("x")?;
    names.add("y")?;
    let roots = roots_of(alloc, modulus, pairs)?;
    if names.len() == 0 || roots.is_empty() || polynomial.len() > 65536 {
        return Err("no job")?;
    }
    let tree = read(alloc, polynomial, &names)?;
    Ok(Job::make(alloc, modulus, names, [1; 8], tree, roots)?)
}

/// The job of Y^2 + x*Y + 1, whose roots at the origin are 10 and -10.
pub fn job_of_two(alloc: Global) -> Result<Job, Fail>
    ensures { IfOk result (λ job. IsAccepted job.job) }
{
    job_of(alloc, b"Y^2 + x*Y + 1", &[(10, 1), (91, 1)])
}

/// A job with four roots at the origin, one of which is double.
pub fn job_of_four(alloc: Global) -> Result<Job, Fail>
    ensures { IfOk result (λ job. IsAccepted job.job) }
{
    let polynomial = b"Y*(Y-1)^2*(Y-2)*(Y-3) + x + y*Y + x*y*Y^3";
    job_of(alloc, polynomial, &[(0, 1), (1, 2), (2, 1), (3, 1)])
}
