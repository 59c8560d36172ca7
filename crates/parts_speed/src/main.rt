//! `parts_speed`: multiplies homogeneous parts many times, to be timed from outside.
#![tactic(auto)]

ghost use Rattle.std.specs.Prelude.{◌≡◌, ◌+◌, ◌*◌, ◌<◌, ◌≤◌, IfOk, IfSome};
ghost use Rattle.parts.specs.PartValue.{IsPartOf};
ghost use Rattle.ps_model.specs.AcceptedJob.{AreWeights};
ghost use Rattle.parts.specs.Rings.{variables_of};

use parts::{Accumulator, Part, Ring, Term, product, scaled, sum};
use ps_model::OutOfMemory;
use residue::Modulus;
use std::alloc::Global;
use std::env::{self, Env};
use std::process::ExitCode;

/// What the words ask for: a form of one degree, and two powers of it.
#[derive(Drop)]
struct Work {
    is_sum: bool,
    ring: Ring,
    degree: u32,
    first: u32,
    second: u32,
    times: u32,
}

/// The power of variable i that has a degree, or 0 where none has it.
fn power_of_degree(alloc: Global, ring: Ring, i: u32, degree: u32) -> Result<Part, OutOfMemory>
    requires variable { i < variables_of ring }
    requires low { degree ≤ 4095 }
    ensures degree { IfOk result (λ p. p.degree ≡ degree) }
    ensures part { IfOk result (IsPartOf ring) }
{
    let weight = ring.weight(i);
    if degree % weight != 0 {
        return Ok(Part::zero(alloc, degree));
    }
    let variable = Part::variable(alloc, ring, i)?;
    let mut power = Part::constant(alloc, ring, 1)?;
    for k in 0..degree / weight {
        power = product(alloc, ring, &power, &variable)?;
    }
    Ok(power)
}

/// The sum of (3 i + 1) times the power of variable i that has a degree.
fn form_of_degree(alloc: Global, ring: Ring, degree: u32) -> Result<Part, OutOfMemory>
    requires { degree ≤ 4095 }
    ensures degree { IfOk result (λ p. p.degree ≡ degree) }
    ensures part { IfOk result (IsPartOf ring) }
{
    let mut form = power_of_degree(alloc, ring, 0, degree)?;
    for i in 1..ring.n() {
        let power = power_of_degree(alloc, ring, i, degree)?;
        let next = scaled(alloc, ring, &power, 3 * u64::from(i) + 1)?;
        form = sum(alloc, ring, &form, &next)?;
    }
    Ok(form)
}

/// A power of the form. At weights 1 and a large prime modulus it has all monomials of its degree.
fn power_of_form(alloc: Global, ring: Ring, degree: u32, times: u32) -> Result<Part, OutOfMemory>
    requires degree { degree ≤ 4095 }
    requires low { degree * times ≤ 4095 }
    ensures degree { IfOk result (λ p. p.degree ≡ degree * times) }
    ensures part { IfOk result (IsPartOf ring) }
{
    let form = form_of_degree(alloc, ring, degree)?;
    let mut power = Part::constant(alloc, ring, 1)?;
    for k in 0..times {
        power = product(alloc, ring, &power, &form)?;
    }
    Ok(power)
}

/// The product of two powers of the form, or a sum of many.
fn answer(alloc: Global, work: &Work) -> Result<Part, OutOfMemory>
    requires degree { work.now.degree ≤ 4095 }
    requires low { work.now.degree * work.now.first + work.now.degree * work.now.second ≤ 4095 }
    ensures degree { IfOk result (λ p. p.degree
        ≡ work.now.degree * work.now.first + work.now.degree * work.now.second) }
    ensures part { IfOk result (IsPartOf work.now.ring) }
{
    let ring = work.ring;
    let a = power_of_form(alloc, ring, work.degree, work.first)?;
    let b = power_of_form(alloc, ring, work.degree, work.second)?;
    if work.is_sum {
        let mut total = Accumulator::new(alloc, ring, a.degree() + b.degree());
        for i in 0..work.times {
            total.add_product(&a, &b, false)?;
        }
        return total.finish();
    }
    let mut last = product(alloc, ring, &a, &b)?;
    for j in 1..work.times {
        last = product(alloc, ring, &a, &b)?;
    }
    Ok(last)
}

/// The sum of the coefficients.
fn checksum(modulus: Modulus, terms: &[Term]) -> u64 {
    let mut total = 0;
    for term in terms {
        total = modulus.reduce(modulus.reduce(total) + modulus.reduce(term.coefficient));
    }
    total
}

/// The ring with the weights that are listed, with commas between them.
fn read_ring(modulus: Modulus, list: &str) -> Option<Ring> {
    let mut weights = [1; 8];
    let mut n = 0;
    for word in list.split(',') {
        let weight = word.parse::<u16>().ok()?;
        if n >= 8 || weight < 1 || weight > 64 {
            return None;
        }
        weights[n as usize] = weight;
        n += 1;
    }
    if n < 1 {
        return None;
    }
    Some(Ring::weighted(modulus, n, weights))
}

/// The work that the words ask for: `KIND WEIGHTS DEGREE POWER POWER MODULUS TIMES`.
fn read_words(words: &[String]) -> Option<Work>
    ensures degree { IfSome result (λ work. work.degree ≤ 4095) }
    ensures low { IfSome result (λ work.
        work.degree * work.first + work.degree * work.second ≤ 4095) }
{
    let [kind, weights, degree, first, second, modulus, times] = words else {
        return None;
    };
    let degree = degree.parse::<u32>().ok()?;
    let first = first.parse::<u32>().ok()?;
    let second = second.parse::<u32>().ok()?;
    let times = times.parse::<u32>().ok()?;
    let modulus = Modulus::new(modulus.parse::<u64>().ok()?).ok()?;
    let is_sum = kind.as_str() == "sum";
    if !is_sum && kind.as_str() != "product" || times < 1 {
        return None;
    }
    if degree > 4095 || first > 4095 || second > 4095 || degree * (first + second) > 4095 {
        return None;
    }
    let ring = read_ring(modulus, weights.as_str())?;
    Some(Work {
        is_sum,
        ring,
        degree,
        first,
        second,
        times,
    })
}

fn main(rt: HostRuntime) -> std::io::Result<ExitCode> {
    let mut words = Vec::new(rt.alloc());
    for word in env::args(&rt)?.skip(1) {
        words.push(word)?;
    }
    let Some(work) = read_words(words.as_slice()) else {
        println!(rt; "usage: parts_speed product|sum WEIGHTS DEGREE POWER POWER MODULUS TIMES")?;
        return Ok(ExitCode::from(2));
    };
    let Ok(part) = answer(rt.alloc(), &work) else {
        println!(rt; "out of memory")?;
        return Ok(ExitCode::from(1));
    };
    let sum = checksum(work.ring.modulus(), part.terms());
    println!(rt; "{} {sum}", part.terms().len())?;
    Ok(ExitCode::SUCCESS)
}

#[cfg(test)]
mod tests;
