//! `block_speed`: writes or reads the block of a polynomial's factor many times, to be timed from
//! outside.
#![tactic(auto)]

// the session whose block it is
mod made;

// what is timed
mod timed;

use crate::made::session_of;
use crate::timed::{Way, timed};
use anyhow::Result;
use std::alloc::Global;
use std::env::{self, Env};
use std::process::ExitCode;

/// What the words ask for.
#[derive(Clone, Copy)]
struct Work<'w> {
    way: Way,
    polynomial: &'w str,
    degree: u32,
    times: u32,
}

/// The work that the words ask for: `write` or `read`, `POLYNOMIAL DEGREE TIMES`.
fn read_words(words: &[String]) -> Option<Work<'_>> {
    let [way, polynomial, degree, times] = words else {
        return None;
    };
    let way = match way.as_str() {
        "write" => Way::Write,
        "read" => Way::Read,
        _ => return None,
    };
    Some(Work {
        way,
        polynomial: polynomial.as_str(),
        degree: degree.parse::<u32>().ok()?,
        times: times.parse::<u32>().ok()?,
    })
}

/// The line that tells the block's terms and bytes.
fn line_of(alloc: Global, work: Work<'_>) -> Result<String> {
    let session = session_of(alloc, work.polynomial, work.degree)?;
    let roots = session.job().data().roots.as_slice();
    let extent = timed(alloc, work.way, &session, roots, work.degree, work.times)?;
    Ok(format!(in alloc; "terms {}, bytes {}", extent.terms, extent.bytes)?)
}

fn main(rt: HostRuntime) -> std::io::Result<ExitCode> {
    let mut words = Vec::new(rt.alloc());
    for word in env::args(&rt)?.skip(1) {
        words.push(word)?;
    }
    let Some(work) = read_words(words.as_slice()) else {
        println!(rt; "usage: block_speed write|read POLYNOMIAL DEGREE TIMES")?;
        return Ok(ExitCode::from(2));
    };
    match line_of(rt.alloc(), work) {
        Ok(line) => {
            println!(rt; "{line}")?;
            Ok(ExitCode::SUCCESS)
        }
        Err(error) => {
            println!(rt; "refused: {error}")?;
            Ok(ExitCode::from(1))
        }
    }
}
