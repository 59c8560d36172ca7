//! Roots with their multiplicities.
ghost use Rattle.std.specs.Prelude.{◌≡◌, ◌<◌, ◌≤◌, length, IfErr, IfOk, IfSome, Ok};
ghost use Rattle.std.specs.List.{All};
ghost use Rattle.ps_model.specs.AcceptedJob.{IsAcceptedRoot};
ghost use Rattle.residue.specs.Residues.{number_of};
ghost use Rattle.script.specs.Header.{root_in, root_unsigned, roots_fault, roots_from};
ghost use Rattle.script.specs.Refusals.{Tells};
ghost use Rattle.script.specs.Words.{words};

use crate::names::cut;
use crate::refusal::{Refusal, Refused};
use crate::words::{first_word, number_within};
use ps_model::Root;
use residue::Modulus;
use std::alloc::Global;

/// The roots of the words behind `roots`, each `C:K`, a minus before C or not.
pub fn roots_of(alloc: Global, modulus: Modulus, text: &[u8]) -> Result<Vec<Root>, Refused>
    requires { length text.now ≤ 65536 }
    ensures read { IfOk result (λ roots. roots_from (number_of modulus) 1 (words text.now) ≡ Ok roots.items) }
    ensures some { IfOk result (λ roots. 0 < length roots.items) }
    ensures accepted { IfOk result (λ roots. All (IsAcceptedRoot (number_of modulus)) roots.items) }
    ensures fault { IfErr result (λ e. Tells e (roots_fault (roots_from (number_of modulus) 1 (words text.now)))) }
{
    let mut roots = Vec::new(alloc);
    let mut rest = text;
    let mut place = 0;
    while let Some((word, behind)) = first_word(rest) {
        place += 1;
        match root_of(modulus, word) {
            Some(root) => roots.push(root)?,
            None => return Err(Refused::Line(Refusal::BadRoot { word: place })),
        }
        rest = behind;
    }
    if roots.is_empty() {
        return Err(Refused::Line(Refusal::NoRoots));
    }
    Ok(roots)
}

/// The root of one word.
fn root_of(modulus: Modulus, word: &[u8]) -> Option<Root>
    ensures read { result ≡ root_in (number_of modulus) word.now }
    ensures accepted { IfSome result (IsAcceptedRoot (number_of modulus)) }
{
    match word {
        [b'-', behind @ ..] => root_behind(modulus, true, behind),
        _ => root_behind(modulus, false, word),
    }
}

/// The root of a word behind its sign.
fn root_behind(modulus: Modulus, minus: bool, word: &[u8]) -> Option<Root>
    ensures read { result ≡ root_unsigned (number_of modulus) minus word.now }
    ensures accepted { IfSome result (IsAcceptedRoot (number_of modulus)) }
{
    let (value, times) = cut(word);
    let times = times?;
    let value = number_within(value, 0, u64::MAX as u128)?;
    let times = number_within(times, 1, 32)?;
    let value = modulus.reduce(value as u64);
    Some(Root {
        value: if minus { modulus.neg(value) } else { value },
        times: times as u32,
    })
}
