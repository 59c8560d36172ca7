//! The program's work, from bytes to bytes.
ghost use Rattle.std.specs.Prelude.{◌≡◌, ◌≢◌, ℕ, ◌^◌, ◌≤◌, ◌⊎◌, true, false, List, Option, None, Some};
ghost use Rattle.std.specs.Prelude.{map, string_bytes};
ghost use Rattle.std.specs.List.{list_any};
ghost use Rattle.ports.specs.Bytes.{AllTaken, WritesAll};
ghost use Rattle.ports.specs.Faults.{Rose};
ghost use Rattle.commands.specs.Calls.{AnswersLines, IsKnown, Outputs, StopsWithin, WritesBeginning};
ghost use Rattle.commands.specs.Output.{IsOutput};
ghost use Rattle.commands.specs.Runs.{Ran, status_in};
ghost use Rattle.commands.specs.Words.{Demo, Script, asks_pipe as asks, names_workers, is_reading};
ghost use Rattle.commands.specs.Words.{usage_line, work_in, work_of};
ghost use Rattle.commands.specs.declared.command.ScriptCommand.TheVariants.{Factor as FactorScript};
ghost use Rattle.commands.specs.declared.command.ScriptCommand.TheVariants.{Expand as ExpandScript};
ghost use Rattle.words.specs.declared.command.Command.TheVariants.{Factor};
ghost use Rattle.words.specs.declared.command.Workers.TheVariants.{Rounds, Pipeline};

use crate::check::run_check;
use crate::expanding::expand_script;
use crate::factoring::factor_in_rounds;
use crate::pipeline::factor_in_pipeline;
use crate::stop::Stop;
use demo::{DemoFault, write_demo};
use pipe::Gate;
use ports::{Sink, Source, put_all};
use prepare::Tally;
use std::alloc::Global;
use std::marker::Sync;
use std::sync::Wait;
use std::thread::Threads;
use words::{Command, Workers, command_of};

const USAGE: &[u8] =
    b"usage: hensel_tool factor [--rounds N | --workers N] | expand | check | demo NUMBER\n";

/// Does what the words say: reads the source, writes to the sink, and answers the status.
///
/// `factor` and `expand` read a script line by line, and answer each request before a line is pulled
/// that isn't there yet; `factor --rounds N` does so in rounds of up to N threads, each of which is
/// joined. `check` reads a header and a block to the input's end, and says whether the block is right.
/// `demo` writes a summary of the factors of a job that is made from its number, and reads nothing.
/// The words aren't to ask for a pipeline: see [`asks_pipe`] and [`run_pipe`].
///
/// The statuses: 0, all is answered, or the block is right, and the source is read to its end; 1, the
/// script is refused, and the last line says why; 2, the words are refused, and the usage line is
/// written; 3, the source failed; 4, the sink failed; 5, out of memory; 6, the block is wrong, and the
/// source is read to its end. The tally counts the steps of the preparations. It never waits.
pub fn run<S: Source, K: Sink>(
    rt: &(impl Threads + Sync),
    alloc: Global,
    words: &[String],
    source: &mut S,
    sink: &mut K,
    tally: &mut Tally,
) -> u8
    requires asks { asks (map string_bytes words.now) ≡ false }
    requires room { tally.old ≤ 2 ^ 60 }
    // With status 0, 1, 2 or 6 the status, the bytes written and the steps are those of the output.
    ensures text { (result ≤ 2) ⊎ (result ≡ 6) → Outputs (work_in (map string_bytes words.now)) (S.left source.old)
        (K.written sink.old) (K.written sink.new) tally.old tally.new result }

    // With status 0 or 6 no byte is left where the input counts; for `demo` and refused words nothing is pulled.
    ensures end { (result ≡ 0) ⊎ (result ≡ 6) → is_reading (work_in (map string_bytes words.now)) ≡ true
        → AllTaken (S.left source.new) }
    ensures unread { is_reading (work_in (map string_bytes words.now)) ≡ false → source.new ≡ source.old }

    // Faults have their cause.
    ensures read_fault { result ≡ 3 → Rose (S.faults source.old) (S.faults source.new) }
    ensures write_fault { result ≡ 4 → Rose (K.faults sink.old) (K.faults sink.new) }

    // With status 3 all lines that were read are answered, but for `check`, which has written nothing;
    // with 4 and 5 a beginning is written.
    ensures answers { result ≡ 3 → AnswersLines (work_in (map string_bytes words.now))
        (S.left source.old) (S.left source.new) (K.written sink.old) (K.written sink.new)
        tally.old tally.new }
    ensures part { (result ≡ 4) ⊎ (result ≡ 5) → StopsWithin (work_in (map string_bytes words.now))
        (S.left source.old) (S.left source.new) (K.written sink.old) (K.written sink.new)
        tally.old tally.new }
    ensures statuses { result ≤ 6 }

    // Where no fault came the status is that of the output, unless memory ran out.
    ensures complete { (input text : List ℕ) (status steps : ℕ) →
        IsKnown (work_in (map string_bytes words.now)) (S.left source.old) input →
        IsOutput (work_in (map string_bytes words.now)) input text status steps →
        (Rose (S.faults source.old) (S.faults source.new) → ⊥) →
        (Rose (K.faults sink.old) (K.faults sink.new) → ⊥) →
        (result ≡ status) ⊎ (result ≡ 5) }
    ensures source_faults { S.faults source.old ≤ S.faults source.new }
    ensures sink_faults { K.faults sink.old ≤ K.faults sink.new }
{
    match command_of(alloc, words) {
        Ok(Some(command)) => run_command(rt, alloc, command, source, sink, tally),
        Ok(None) => refuse_words(sink),
        Err(_) => Stop::OutOfMemory.status(),
    }
}

/// Whether the words are those of `factor` with a pipeline: the first is `factor`, and a later one is
/// `--workers` or begins with `--workers=`.
pub fn asks_pipe(words: &[String]) -> bool
    ensures { result ≡ asks (map string_bytes words.now) }
{
    match words {
        [first, later @ ..] => first.as_str() == "factor" && have_workers(later),
        [] => false,
    }
}

/// Whether one of the words is `--workers` or begins with `--workers=`.
fn have_workers(words: &[String]) -> bool
    ensures { result ≡ list_any (λ word. names_workers (string_bytes word)) words.now }
{
    words.iter().any(|word| asks_for_workers(word.as_str()))
}

/// Whether a word is `--workers` or begins with `--workers=`.
fn asks_for_workers(word: &str) -> bool
    ensures { result ≡ names_workers word.now }
{
    word == "--workers" || word.as_bytes().starts_with(b"--workers=")
}

/// Does what words say that ask for a pipeline: `factor --workers N` reads a script as [`run`] does, and
/// its factors are raised by N workers, each of which passes the gate before each step. A stream is
/// written while they work.
///
/// The statuses are those of `run`: 2 comes where the words are refused. It may wait.
pub fn run_pipe<T: Threads + Wait + Sync, S: Source, K: Sink, G: Gate>(
    rt: &T,
    alloc: Global,
    words: &[String],
    source: &mut S,
    sink: &mut K,
    gate: &G,
    tally: &mut Tally,
) -> u8
    requires asks { asks (map string_bytes words.now) ≡ true }
    requires room { tally.old ≤ 2 ^ 60 }
    // With status 0, 1, 2 or 6 the status, the bytes written and the steps are those of the output.
    ensures text { (result ≤ 2) ⊎ (result ≡ 6) → Outputs (work_in (map string_bytes words.now)) (S.left source.old)
        (K.written sink.old) (K.written sink.new) tally.old tally.new result }

    // With status 0 or 6 no byte is left where the input counts; for `demo` and refused words nothing is pulled.
    ensures end { (result ≡ 0) ⊎ (result ≡ 6) → is_reading (work_in (map string_bytes words.now)) ≡ true
        → AllTaken (S.left source.new) }
    ensures unread { is_reading (work_in (map string_bytes words.now)) ≡ false → source.new ≡ source.old }

    // Faults have their cause.
    ensures read_fault { result ≡ 3 → Rose (S.faults source.old) (S.faults source.new) }
    ensures write_fault { result ≡ 4 → Rose (K.faults sink.old) (K.faults sink.new) }

    // With status 3 all lines that were read are answered, but for `check`, which has written nothing;
    // with 4 and 5 a beginning is written.
    ensures answers { result ≡ 3 → AnswersLines (work_in (map string_bytes words.now))
        (S.left source.old) (S.left source.new) (K.written sink.old) (K.written sink.new)
        tally.old tally.new }
    ensures part { (result ≡ 4) ⊎ (result ≡ 5) → StopsWithin (work_in (map string_bytes words.now))
        (S.left source.old) (S.left source.new) (K.written sink.old) (K.written sink.new)
        tally.old tally.new }
    ensures statuses { result ≤ 6 }

    // Where no fault came the status is that of the output, unless memory ran out.
    ensures complete { (input text : List ℕ) (status steps : ℕ) →
        IsKnown (work_in (map string_bytes words.now)) (S.left source.old) input →
        IsOutput (work_in (map string_bytes words.now)) input text status steps →
        (Rose (S.faults source.old) (S.faults source.new) → ⊥) →
        (Rose (K.faults sink.old) (K.faults sink.new) → ⊥) →
        (result ≡ status) ⊎ (result ≡ 5) }
    ensures source_faults { S.faults source.old ≤ S.faults source.new }
    ensures sink_faults { K.faults sink.old ≤ K.faults sink.new }
{
    match command_of(alloc, words) {
        Ok(Some(command)) => {
            run_pipeline(
                rt,
                alloc,
                pipeline_workers(command),
                source,
                sink,
                gate,
                tally,
            )
        }
        Ok(None) => refuse_words(sink),
        Err(_) => Stop::OutOfMemory.status(),
    }
}

/// The workers of a command that asks for a pipeline.
fn pipeline_workers(command: Command) -> u32
    requires { (n : ℕ) × (command ≡ Factor (Pipeline n)) }
    ensures { command ≡ Factor (Pipeline result) }
{
    match command {
        Command::Factor(Workers::Pipeline(workers)) => workers,
        _ => unreachable!(),
    }
}

/// Answers a script with factors that these workers raise, and then the status.
fn run_pipeline<T: Threads + Wait + Sync, S: Source, K: Sink, G: Gate>(
    rt: &T,
    alloc: Global,
    workers: u32,
    source: &mut S,
    sink: &mut K,
    gate: &G,
    tally: &mut Tally,
) -> u8
    requires some_workers { 1 ≤ workers }
    requires few_workers { workers ≤ 64 }
    requires room { tally.old ≤ 2 ^ 60 }
    ensures { Ran (Some (Script FactorScript)) result (S.left source.old) (S.left source.new)
        (S.faults source.old) (S.faults source.new) (K.written sink.old) (K.written sink.new)
        (K.faults sink.old) (K.faults sink.new) tally.old tally.new }
{
    match factor_in_pipeline(rt, alloc, workers, gate, source, sink, tally) {
        Ok(()) => 0,
        Err(stop) => stop.status(),
    }
}

/// Does what a command says, which isn't that of a pipeline.
fn run_command<S: Source, K: Sink>(
    rt: &(impl Threads + Sync),
    alloc: Global,
    command: Command,
    source: &mut S,
    sink: &mut K,
    tally: &mut Tally,
) -> u8
    requires workers { (n : ℕ) → command ≡ Factor (Rounds n) → (1 ≤ n) × (n ≤ 64) }
    requires no_pipe { (n : ℕ) → command ≡ Factor (Pipeline n) → ⊥ }
    requires room { tally.old ≤ 2 ^ 60 }
    ensures ran { Ran (work_of command) result (S.left source.old) (S.left source.new) (S.faults source.old)
        (S.faults source.new) (K.written sink.old) (K.written sink.new) (K.faults sink.old) (K.faults sink.new)
        tally.old tally.new }
    ensures unread { is_reading (work_of command) ≡ false → source.new ≡ source.old }
{
    match command {
        Command::Factor(workers) => run_factor(rt, alloc, workers, source, sink, tally),
        Command::Expand => run_expand(alloc, source, sink),
        Command::Check => run_check(alloc, source, sink, tally),
        Command::Demo(seed) => run_demo(alloc, seed, sink, tally),
    }
}

/// Answers a script with factors, which these workers raise, and then the status.
fn run_factor<S: Source, K: Sink>(
    rt: &(impl Threads + Sync),
    alloc: Global,
    workers: Workers,
    source: &mut S,
    sink: &mut K,
    tally: &mut Tally,
) -> u8
    requires workers { (n : ℕ) → workers ≡ Rounds n → (1 ≤ n) × (n ≤ 64) }
    requires no_pipe { (n : ℕ) → workers ≡ Pipeline n → ⊥ }
    requires room { tally.old ≤ 2 ^ 60 }
    ensures { Ran (Some (Script FactorScript)) result (S.left source.old) (S.left source.new)
        (S.faults source.old) (S.faults source.new) (K.written sink.old) (K.written sink.new)
        (K.faults sink.old) (K.faults sink.new) tally.old tally.new }
{
    let rounds = match workers {
        Workers::One => None,
        Workers::Rounds(n) => Some(n),
        Workers::Pipeline(_) => unreachable!(),
    };
    match factor_in_rounds(rt, alloc, rounds, source, sink, tally) {
        Ok(()) => 0,
        Err(stop) => stop.status(),
    }
}

/// Answers a script with the input, and then the status.
fn run_expand<S: Source, K: Sink>(alloc: Global, source: &mut S, sink: &mut K) -> u8
    ensures { (tally : ℕ) → Ran (Some (Script ExpandScript)) result (S.left source.old) (S.left source.new)
        (S.faults source.old) (S.faults source.new) (K.written sink.old) (K.written sink.new)
        (K.faults sink.old) (K.faults sink.new) tally tally }
{
    match expand_script(alloc, source, sink) {
        Ok(()) => 0,
        Err(stop) => stop.status(),
    }
}

/// Sums up the factors of a number's job, and answers the status.
fn run_demo<K: Sink>(alloc: Global, seed: u64, sink: &mut K, tally: &mut Tally) -> u8
    requires room { tally.old ≤ 2 ^ 60 }
    ensures { (left : Option (List ℕ)) (read : ℕ) → Ran (Some (Demo seed)) result left left read read
        (K.written sink.old) (K.written sink.new) (K.faults sink.old) (K.faults sink.new) tally.old tally.new }
{
    match write_demo(alloc, seed, sink, tally) {
        Ok(()) => 0,
        Err(DemoFault::Write) => Stop::WriteFault.status(),
        Err(DemoFault::OutOfMemory) => Stop::OutOfMemory.status(),
    }
}

/// Writes the usage line.
fn refuse_words<K: Sink>(sink: &mut K) -> u8
    ensures done { result ≢ 4 → (result ≡ 2) × WritesAll (K.written sink.old) (K.written sink.new) usage_line }
    ensures part { WritesBeginning (K.written sink.old) (K.written sink.new) usage_line }
    ensures write_fault { result ≡ 4 → Rose (K.faults sink.old) (K.faults sink.new) }
    ensures faults { K.faults sink.old ≤ K.faults sink.new }
{
    match put_all(sink, USAGE) {
        Ok(()) => 2,
        Err(_) => Stop::WriteFault.status(),
    }
}
