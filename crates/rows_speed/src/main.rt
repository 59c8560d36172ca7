//! `rows_speed`: looks at shared rows, and at vectors behind locks, beside a writer.
#![tactic(auto)]

// what stands in a row, and who looks and puts
mod looking;
mod numbers;
mod writing;

// a writer beside readers
mod rounds;

use crate::looking::Looks;
use crate::rounds::{Crowd, Way, round};
use std::alloc::Global;
use std::env::{self, Env};
use std::marker::Sync;
use std::process::ExitCode;
use std::sync::Wait;
use std::thread::Threads;
use std::time::Clock;

/// What the words ask for.
#[derive(Drop)]
struct Work {
    crowd: Crowd,
    times: u32,
    with_times: bool,
}

/// The work that the words ask for: `READERS ITEMS TIMES`, and `times` where times are printed.
fn read_words(words: &[String]) -> Option<Work> {
    let (readers, items, times, with_times) = match words {
        [readers, items, times] => (readers, items, times, false),
        [readers, items, times, last] if last.as_str() == "times" => {
            (readers, items, times, true)
        }
        _ => return None,
    };
    let readers = readers.parse::<u32>().ok()?;
    let items = items.parse::<u32>().ok()?;
    let times = times.parse::<u32>().ok()?;
    if readers < 1 || readers > 4 || items > 4096 {
        return None;
    }
    Some(Work {
        crowd: Crowd { readers, items },
        times,
        with_times,
    })
}

/// All looks of so many rounds; nothing where memory, a thread's results or the clock was refused.
fn repeated<R: Wait + Threads + Clock + Sync>(
    rt: &R,
    alloc: Global,
    way: Way,
    work: &Work,
) -> Option<Looks> {
    let mut all = Looks {
        count: 0,
        wrong: 0,
        nanos: 0,
    };
    for _ in 0..work.times {
        all = all.and(round(rt, alloc, way, work.crowd)?);
    }
    Some(all)
}

/// The line of a way.
fn line_of(alloc: Global, way: Way, looks: Looks, with_times: bool) -> std::io::Result<String> {
    if with_times {
        let each = looks.nanos / looks.count.max(1);
        Ok(format!(in alloc;
            "{}: {} of {} looks wrong, {each} ns each",
            way.name(),
            looks.wrong,
            looks.count
        )?)
    } else {
        Ok(format!(in alloc; "{}: {} looks wrong", way.name(), looks.wrong)?)
    }
}

fn main(rt: HostRuntime) -> std::io::Result<ExitCode> {
    let mut words = Vec::new(rt.alloc());
    for word in env::args(&rt)?.skip(1) {
        words.push(word)?;
    }
    let Some(work) = read_words(words.as_slice()) else {
        println!(rt; "usage: rows_speed READERS ITEMS TIMES [times]")?;
        return Ok(ExitCode::from(2));
    };
    for way in [Way::Shared, Way::Mutex, Way::RwLock] {
        let Some(looks) = repeated(&rt, rt.alloc(), way, &work) else {
            println!(rt; "{}: refused", way.name())?;
            return Ok(ExitCode::from(1));
        };
        println!(rt; "{}", line_of(rt.alloc(), way, looks, work.with_times)?)?;
        if looks.wrong > 0 {
            return Ok(ExitCode::from(1));
        }
    }
    Ok(ExitCode::SUCCESS)
}
