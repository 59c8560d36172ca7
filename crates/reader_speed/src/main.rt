//! `reader_speed`: reads an expression many times, to be timed from outside.
#![tactic(auto)]

mod texts;

ghost use Rattle.std.specs.Prelude.{◌≡◌, ◌≢◌, ◌≤◌, ◌↔◌, length, IfOk, IfSome, Ok, Err};
ghost use Rattle.ps_model.specs.declared.expr.Expr.{Expr};
ghost use Rattle.ps_model.specs.Tree.{IsValidTree};
ghost use Rattle.ps_model.specs.FirstFault.{Fault, IsFirstFault, Reads};
ghost use Rattle.expr_reader.specs.ReadErrors.{error_of};
ghost use Rattle.reader_speed.specs.Texts.{made};

use crate::texts::{Kind, text_of};
use expr_reader::{Names, ReadError, print, read};
use ps_model::{Expr, OutOfMemory};
use std::alloc::Global;
use std::env::{self, Env};
use std::process::ExitCode;

/// What the words ask for.
#[derive(Clone, Copy)]
struct Work {
    kind: Kind,
    length: usize,
    times: u32,
}

/// What is read of a text, the last of the times.
fn read_often(alloc: Global, text: &[u8], names: &Names, times: u32) -> Result<Expr, ReadError>
    requires { length text.now ≤ 65536 }
    ensures tree { result ≢ Err ReadError.OutOfMemory → (e : Expr) →
        (result ≡ Ok e) ↔ Reads names.now text.now e }
    ensures fault { result ≢ Err ReadError.OutOfMemory → (f : Fault) →
        (result ≡ Err (error_of f)) ↔ IsFirstFault names.now text.now f }
    ensures valid { IfOk result (λ e. IsValidTree (length names.now) e) }
{
    for _ in 1..times {
        // the tree or the error is dropped
        let _ = read(alloc, text, names);
    }
    read(alloc, text, names)
}

/// What is read of the text that the words ask for.
fn answer(alloc: Global, work: Work, names: &Names) -> Result<Expr, ReadError>
    requires some { 129 ≤ work.length }
    requires permitted { work.length ≤ 65536 }
    ensures tree { result ≢ Err ReadError.OutOfMemory → (e : Expr) →
        (result ≡ Ok e) ↔ Reads names.now (made work.kind work.length) e }
    ensures fault { result ≢ Err ReadError.OutOfMemory → (f : Fault) →
        (result ≡ Err (error_of f)) ↔ IsFirstFault names.now (made work.kind work.length) f }
    ensures valid { IfOk result (λ e. IsValidTree (length names.now) e) }
{
    let Ok(text) = text_of(alloc, work.kind, work.length) else {
        return Err(ReadError::OutOfMemory);
    };
    read_often(alloc, text.as_bytes(), names, work.times)
}

/// The line that tells what was read.
fn told(alloc: Global, work: Work) -> Result<String, OutOfMemory>
    requires some { 129 ≤ work.length }
    requires permitted { work.length ≤ 65536 }
{
    let mut names = Names::new(alloc);
    if names.add("x").is_err() {
        return Err(OutOfMemory);
    }
    match answer(alloc, work, &names) {
        Ok(expr) => {
            let spelling = print(alloc, &expr, &names)?;
            Ok(format!(in alloc; "tree {}", spelling.len())?)
        }
        Err(ReadError::OutOfMemory) => Err(OutOfMemory),
        Err(error) => Ok(format!(in alloc; "refused: {error}")?),
    }
}

/// The work that the words ask for: `KIND LENGTH TIMES`.
fn read_words(words: &[String]) -> Option<Work>
    ensures some { IfSome result (λ work. 129 ≤ work.length) }
    ensures permitted { IfSome result (λ work. work.length ≤ 65536) }
{
    let [kind, length, times] = words else {
        return None;
    };
    let kind = match kind.as_str() {
        "sum" => Kind::Sum,
        "nested" => Kind::Nested,
        "number" => Kind::Number,
        _ => return None,
    };
    let length = length.parse::<usize>().ok()?;
    let times = times.parse::<u32>().ok()?;
    if length < 129 || length > 65536 || times < 1 {
        return None;
    }
    Some(Work {
        kind,
        length,
        times,
    })
}

fn main(rt: HostRuntime) -> std::io::Result<ExitCode> {
    let mut words = Vec::new(rt.alloc());
    for word in env::args(&rt)?.skip(1) {
        words.push(word)?;
    }
    let Some(work) = read_words(words.as_slice()) else {
        println!(rt; "usage: reader_speed KIND LENGTH TIMES")?;
        return Ok(ExitCode::from(2));
    };
    match told(rt.alloc(), work) {
        Ok(line) => {
            println!(rt; "{line}")?;
            Ok(ExitCode::SUCCESS)
        }
        Err(error) => {
            println!(rt; "{error}")?;
            Ok(ExitCode::from(1))
        }
    }
}
