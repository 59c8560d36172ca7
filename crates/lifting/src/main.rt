//! `lifting`: uses the libraries without a script. A job is made of numbers and text, its factors
//! are raised twice, and single coefficients are looked up.
#![tactic(auto)]

ghost use Rattle.std.specs.Prelude.{◌≡◌, length, IfOk};
ghost use Rattle.ps_model.specs.AcceptedJob.{IsAccepted};

use anyhow::{Result, bail};
use expr_reader::{Names, read};
use intake::Job;
use parts::{Monomial, Part, permitted};
use prepare::Tally;
use ps_model::Root;
use residue::Modulus;
use rows::OwnRow;
use session::Session;
use stages::StageItem;
use std::alloc::Global;

type Lifting = Session<OwnRow<StageItem>>;

/// Y^2 - Y + x + y modulo 1000003, with the roots 0 and 1 at the origin.
fn two_branches(alloc: Global) -> Result<Job>
    ensures accepted { IfOk result (λ job. IsAccepted job.job) }
    ensures names { IfOk result (λ job. length job.names ≡ job.job.n) }
{
    let modulus = Modulus::new(1_000_003)?;
    let mut names = Names::new(alloc);
    names.add("x")?;
    names.add("y")?;
    let tree = read(alloc, b"Y^2 - Y + x + y", &names)?;
    let mut roots = Vec::new(alloc);
    roots.push(Root { value: 0, times: 1 })?;
    roots.push(Root { value: 1, times: 1 })?;
    // both variables have the weight 1
    Ok(Job::make(alloc, modulus, names, [1; 8], tree, roots)?)
}

/// Raises the factors to a degree, and answers how many steps that took.
fn raise(session: &mut Lifting, to: u32) -> Result<u64> {
    if !permitted(session.ring(), to) {
        bail!("degree {to} has too many monomials");
    }
    let mut tally = Tally::new();
    let raised = session.raise(to, &mut tally);
    let steps = tally.finish();
    raised?;
    Ok(steps)
}

/// The part of degree r of the coefficient of `Y^power` in a factor, as far as it is there.
fn known_part(session: &Lifting, factor: u32, power: u32, r: u32) -> Option<&Part> {
    let known = session.known()?;
    let root = session.job().data().roots.as_slice().get(factor as usize)?;
    if power > root.times || r > known {
        return None;
    }
    Some(session.factor_part(factor, power, r))
}

/// The coefficient of `x^i * y^j` at `Y^0` in the factor with the root 1.
fn coefficient(session: &Lifting, i: u16, j: u16) -> Result<u64> {
    let ring = session.ring();
    if ring.n() != 2 || i > 4095 || j > 4095 {
        bail!("no such monomial");
    }
    let Some(part) = known_part(session, 1, 0, u32::from(i) + u32::from(j)) else {
        bail!("this degree isn't known");
    };
    Ok(part.coefficient(&Monomial::of(ring, [i, j, 0, 0, 0, 0, 0, 0])))
}

/// Raises the factors to a degree, and prints two coefficients.
fn tell(rt: &impl Print, session: &mut Lifting, to: u32, monomials: [(u16, u16); 2]) -> Result<()> {
    let steps = raise(session, to)?;
    println!(rt; "to {to}: {steps} steps")?;
    for (i, j) in monomials {
        let c = coefficient(session, i, j)?;
        println!(rt; "x^{i} * y^{j}: {c}")?;
    }
    Ok(())
}

fn main(rt: HostRuntime) -> Result<()> {
    let job = two_branches(rt.alloc())?;
    let mut session = Session::open(rt.alloc(), job)?;
    tell(&rt, &mut session, 2, [(1, 0), (1, 1)])?;
    tell(&rt, &mut session, 4, [(1, 2), (2, 2)])
}
