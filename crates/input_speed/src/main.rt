//! `input_speed`: the rows of an expression in x, or in x and y, to be timed from outside.
#![tactic(auto)]

ghost use Rattle.std.specs.Prelude.{◌≡◌, ◌<◌, ◌≤◌, ◌∷◌, [], length, IfOk, IfSome};

use expr_reader::{Names, read};
use intake::FreeInput;
use parts::permitted;
use ps_model::OutOfMemory;
use residue::Modulus;
use std::alloc::Global;
use std::env::{self, Env};
use std::process::ExitCode;

/// What the words ask for.
#[derive(Clone, Copy)]
struct Work<'w> {
    modulus: Modulus,
    degree: u32,
    times: u32,
    text: &'w [u8],
}

/// The name x, and y behind it where the text has one.
fn names_of(alloc: Global, text: &[u8]) -> Result<Names, OutOfMemory>
    ensures some { IfOk result (λ names. 0 < length names) }
    ensures few { IfOk result (λ names. length names ≤ 2) }
{
    let mut names = Names::new(alloc);
    if names.add("x").is_err() {
        return Err(OutOfMemory);
    }
    if text.contains(&b'y') && names.add("y").is_err() {
        return Err(OutOfMemory);
    }
    if names.len() == 0 || names.len() > 2 {
        return Err(OutOfMemory);
    }
    Ok(names)
}

/// How many terms the rows of the degrees 0 to `to` have, as far as these are permitted.
fn count_terms(input: &mut FreeInput, to: u32) -> Result<u64, OutOfMemory>
    requires { to ≤ 4095 }
{
    let mut terms = 0u64;
    for r in 0..to + 1 {
        if permitted(input.ring(), r) {
            for part in &input.row(r)? {
                terms = terms.saturating_add(part.terms().len() as u64);
            }
        }
    }
    Ok(terms)
}

/// The line that tells the count, or what is wrong with the expression.
fn line_of(alloc: Global, work: &Work<'_>) -> Result<String, OutOfMemory>
    requires permitted { work.now.degree ≤ 4095 }
    requires length { length work.now.text.now ≤ 65536 }
{
    let names = names_of(alloc, work.text)?;
    let tree = match read(alloc, work.text, &names) {
        Ok(tree) => tree,
        Err(error) => return Ok(format!(in alloc; "refused: {error}")?),
    };
    let mut input = match FreeInput::make(alloc, work.modulus, names, [1; 8], tree) {
        Ok(input) => input,
        Err(error) => return Ok(format!(in alloc; "refused: {error}")?),
    };
    let terms = count_terms(&mut input, work.degree)?;
    Ok(format!(in alloc; "terms {terms}")?)
}

/// The line, the last of the times that it is found.
fn told(alloc: Global, work: &Work<'_>) -> Result<String, OutOfMemory>
    requires permitted { work.now.degree ≤ 4095 }
    requires length { length work.now.text.now ≤ 65536 }
{
    for _ in 1..work.times {
        // the line is dropped
        let _ = line_of(alloc, work);
    }
    line_of(alloc, work)
}

/// The work that the words ask for: `MODULUS DEGREE TIMES EXPRESSION`.
fn read_words(words: &[String]) -> Option<Work<'_>>
    ensures permitted { IfSome result (λ work. work.degree ≤ 4095) }
    ensures length { IfSome result (λ work. length work.text.now ≤ 65536) }
{
    let [modulus, degree, times, text] = words else {
        return None;
    };
    let modulus = Modulus::new(modulus.parse::<u64>().ok()?).ok()?;
    let degree = degree.parse::<u32>().ok()?;
    let times = times.parse::<u32>().ok()?;
    let text = text.as_bytes();
    if degree > 4095 || text.len() > 65536 {
        return None;
    }
    Some(Work {
        modulus,
        degree,
        times,
        text,
    })
}

fn main(rt: HostRuntime) -> std::io::Result<ExitCode> {
    let mut words = Vec::new(rt.alloc());
    for word in env::args(&rt)?.skip(1) {
        words.push(word)?;
    }
    let Some(work) = read_words(words.as_slice()) else {
        println!(rt; "usage: input_speed MODULUS DEGREE TIMES EXPRESSION")?;
        return Ok(ExitCode::from(2));
    };
    match told(rt.alloc(), &work) {
        Ok(line) => {
            println!(rt; "{line}")?;
            Ok(ExitCode::SUCCESS)
        }
        Err(error) => {
            println!(rt; "{error}")?;
            Ok(ExitCode::from(1))
        }
    }
}
