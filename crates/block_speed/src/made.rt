//! The session of a polynomial, raised to a degree.
ghost use Rattle.std.specs.Prelude.{◌≡◌, ◌^◌, ◌≤◌, length, IfOk};
ghost use Rattle.ps_model.specs.AcceptedJob.{IsAccepted, IsAcceptedRoot};
ghost use Rattle.residue.specs.Residues.{number_of};

use anyhow::{Result, bail, ensure};
use expr_reader::{Names, read};
use intake::Job;
use parts::permitted;
use prepare::Tally;
use ps_model::Root;
use residue::Modulus;
use rows::OwnRow;
use session::Session;
use stages::StageItem;
use std::alloc::Global;

/// The modulus of each job.
const MODULUS: u64 = 998_244_353;

/// The names that a text mentions, in the order in which it does.
fn names_in(alloc: Global, text: &str) -> Result<Names> {
    let mut names = Names::new(alloc);
    for word in text.split(|c: char| !c.is_ascii_alphanumeric() && c != '_') {
        let is_name = word.starts_with(|c: char| c.is_ascii_alphabetic()) && word != "Y";
        if is_name && names.find(word).is_none() {
            names.add(word)?;
        }
    }
    Ok(names)
}

/// The root 0, once.
fn root_of(modulus: Modulus) -> Root
    ensures { IsAcceptedRoot (number_of modulus) result }
{
    let _modulus = modulus.value();
    Root { value: 0, times: 1 }
}

/// The job of a polynomial with the root 0, over the names that it mentions, each of weight 1.
fn job_of(alloc: Global, polynomial: &str) -> Result<Job>
    ensures accepted { IfOk result (λ job. IsAccepted job.job) }
    ensures names { IfOk result (λ job. length job.names ≡ job.job.n) }
{
    ensure!(polynomial.len() <= 65536, "too long a polynomial");
    let modulus = Modulus::new(MODULUS)?;
    let names = names_in(alloc, polynomial)?;
    ensure!(names.len() > 0, "no names");
    let tree = read(alloc, polynomial.as_bytes(), &names)?;
    let mut roots = Vec::new(alloc);
    roots.push(root_of(modulus))?;
    Ok(Job::make(alloc, modulus, names, [1; 8], tree, roots)?)
}

/// Raises a session to a degree, where that is permitted.
fn raise(session: &mut Session<OwnRow<StageItem>>, degree: u32, tally: &mut Tally) -> Result<()>
    requires { tally.old ≤ 2 ^ 61 }
{
    if !permitted(session.ring(), degree) {
        bail!("degree {degree} not permitted");
    }
    session.raise(degree, tally)?;
    Ok(())
}

/// The session of that job, raised to a degree.
pub fn session_of(
    alloc: Global,
    polynomial: &str,
    degree: u32,
) -> Result<Session<OwnRow<StageItem>>> {
    let job = job_of(alloc, polynomial)?;
    let mut session = Session::open(alloc, job)?;
    let mut tally = Tally::new();
    let raised = raise(&mut session, degree, &mut tally);
    let _steps = tally.finish();
    raised?;
    Ok(session)
}
