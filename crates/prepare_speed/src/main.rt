//! `prepare_speed`: prepares a polynomial in Y with dense parts, to be timed from outside.
#![tactic(auto)]

mod rows;

ghost use Rattle.std.specs.Prelude.{◌≡◌, ◌+◌, ◌*◌, ◌^◌, ◌<◌, ◌≤◌, ◌∷◌, [], length, IfOk, IfSome, OnOk};
ghost use Rattle.parts.specs.Rings.{variables_of, weights_of};
ghost use Rattle.parts.specs.RowsOfParts.{parts_in, AreRowsOfParts};
ghost use Rattle.prepare.specs.PrepValue.{degrees_of};
ghost use Rattle.prepare_speed.specs.Prepared.{IsPreparationOf};

use crate::rows::rows_up_to;
use parts::{Part, Ring};
use prepare::{Prep, PrepError, Tally};
use residue::Modulus;
use std::alloc::Global;
use std::env::{self, Env};
use std::process::ExitCode;
use std::sync::Arc;

/// What the words ask for.
#[derive(Drop)]
struct Work {
    ring: Ring,
    degree: u32,
    times: u32,
}

/// The preparation of the polynomial that has these rows. It takes a step for each row.
fn prepared(
    alloc: Global,
    ring: Ring,
    rows: &[Vec<Arc<Part>>],
    tally: &mut Tally,
) -> Result<Prep, PrepError>
    requires some { 1 ≤ length rows.now }
    requires permitted { length rows.now ≤ 4096 }
    requires rows { AreRowsOfParts ring 8 (parts_in rows.now) }
    requires room { tally.old ≤ 2 ^ 62 }
    ensures prepared { IfOk result
        (IsPreparationOf ring (parts_in rows.now) (length rows.now)) }
    ensures steps { OnOk result (tally.new ≡ tally.old + length rows.now) }
{
    let mut prep = Prep::begin(alloc, ring, 2, &rows[0], tally)?;
    for r in 1..rows.len() {
        prep.step(&rows[r], tally)?;
    }
    Ok(prep)
}

/// The preparation of the rows that the words ask for, made as often as they say: each time takes a
/// step for each row.
fn answer(alloc: Global, work: &Work, tally: &mut Tally) -> Result<Prep, PrepError>
    requires two { variables_of work.now.ring ≡ 2 }
    requires weights { weights_of work.now.ring ≡ 1 ∷ 1 ∷ [] }
    requires low { work.now.degree ≤ 4095 }
    requires some { 1 ≤ work.now.times }
    requires none { tally.old ≡ 0 }
    ensures ring { IfOk result (λ prep. prep.ring ≡ work.now.ring) }
    ensures degrees { IfOk result (λ prep. degrees_of prep ≡ work.now.degree + 1) }
    ensures steps { OnOk result (tally.new ≡ work.now.times * (work.now.degree + 1)) }
{
    let rows = rows_up_to(alloc, work.ring, work.degree)?;
    let mut last = prepared(alloc, work.ring, &rows, tally)?;
    for i in 1..work.times {
        last = prepared(alloc, work.ring, &rows, tally)?;
    }
    Ok(last)
}

/// A number that changes with each coefficient of the parts, and with their order.
fn checksum(modulus: Modulus, before: u64, row: &[Arc<Part>]) -> u64 {
    let mut total = before;
    for part in row {
        for term in part.terms() {
            let shifted = modulus.mul(modulus.reduce(total), modulus.reduce(31));
            total = modulus.add(shifted, modulus.reduce(term.coefficient));
        }
    }
    total
}

/// The work that the words ask for: `DEGREE MODULUS TIMES`.
fn read_words(words: &[String]) -> Option<Work>
    ensures two { IfSome result (λ work. variables_of work.ring ≡ 2) }
    ensures weights { IfSome result (λ work. weights_of work.ring ≡ 1 ∷ 1 ∷ []) }
    ensures low { IfSome result (λ work. work.degree ≤ 4095) }
    ensures some { IfSome result (λ work. 1 ≤ work.times) }
{
    let [degree, modulus, times] = words else {
        return None;
    };
    let degree = degree.parse::<u32>().ok()?;
    let times = times.parse::<u32>().ok()?;
    let modulus = Modulus::new(modulus.parse::<u64>().ok()?).ok()?;
    if degree > 4095 || times < 1 {
        return None;
    }
    Some(Work {
        ring: Ring::new(modulus, 2),
        degree,
        times,
    })
}

fn main(rt: HostRuntime) -> std::io::Result<ExitCode> {
    let mut words = Vec::new(rt.alloc());
    for word in env::args(&rt)?.skip(1) {
        words.push(word)?;
    }
    let Some(work) = read_words(words.as_slice()) else {
        println!(rt; "usage: prepare_speed DEGREE MODULUS TIMES")?;
        return Ok(ExitCode::from(2));
    };
    let mut tally = Tally::new();
    let prepared = answer(rt.alloc(), &work, &mut tally);
    tally.finish();
    let prep = match prepared {
        Ok(prep) => prep,
        Err(error) => {
            println!(rt; "{error}")?;
            return Ok(ExitCode::from(1));
        }
    };
    let modulus = work.ring.modulus();
    let last = prep.degrees() - 1;
    let of_p = checksum(modulus, 0, prep.row_p(last));
    let both = checksum(modulus, of_p, prep.row_u(last));
    println!(rt; "{} {both}", prep.degrees())?;
    Ok(ExitCode::SUCCESS)
}
