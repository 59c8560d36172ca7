//! `hensel_tool`: factors a polynomial in Y over power series modulo a number, by its roots at the
//! origin.
#![tactic(auto)]

ghost use Rattle.std.specs.Prelude.{◌≤◌, ◌^◌};

// the words of the command line
mod arguments;
#[cfg(test)]
mod tests;

use arguments::words_after_name;
use commands::{asks_pipe, run, run_pipe};
use pipe::{Gate, OpenGate};
use ports::{Sink, Source, StdSink, StdSource};
use prepare::Tally;
use ps_model::OutOfMemory;
use std::alloc::Global;
use std::env::{self, Env};
use std::io::ErrorKind;
use std::marker::Sync;
use std::process::ExitCode;
use std::sync::Wait;
use std::thread::Threads;

/// The status of a program that has no memory for its words.
const OUT_OF_MEMORY: u8 = 5;

fn main(rt: HostRuntime) -> ExitCode {
    let Ok(words) = given_words(&rt) else {
        return ExitCode::from(OUT_OF_MEMORY);
    };
    let mut source = StdSource::new(rt.stdin());
    let mut sink = StdSink::new(rt.stdout());
    let mut tally = Tally::new();
    let status = run_words(
        &rt,
        rt.alloc(),
        words.as_slice(),
        &mut source,
        &mut sink,
        &OpenGate,
        &mut tally,
    );
    let _steps = tally.finish();
    ExitCode::from(status)
}

/// Does what the words say, by `run`, or by `run_pipe` where they ask for workers that run freely.
fn run_words<R: Threads + Wait + Sync, S: Source, K: Sink, G: Gate>(
    rt: &R,
    alloc: Global,
    words: &[String],
    source: &mut S,
    sink: &mut K,
    gate: &G,
    tally: &mut Tally,
) -> u8
    requires room { tally.old ≤ 2 ^ 60 }
{
    if asks_pipe(words) {
        run_pipe(rt, alloc, words, source, sink, gate, tally)
    } else {
        run(rt, alloc, words, source, sink, tally)
    }
}

/// The words after the program's own name. Words that can't be had as text are none, which are
/// refused.
fn given_words<R: Env + AllocGlobal>(rt: &R) -> Result<Vec<String>, OutOfMemory> {
    match env::args(rt) {
        Ok(all) => words_after_name(rt.alloc(), all),
        Err(error) if error.kind() == ErrorKind::OutOfMemory => Err(OutOfMemory),
        Err(_) => Ok(Vec::new(rt.alloc())),
    }
}
