//! The names of variables, with their weights.
ghost use Rattle.std.specs.Prelude.{◌≡◌, ◌∷◌, ◌++◌, [], Some, None, MatchOption, OnOk, IfErr};
ghost use Rattle.std.specs.Prelude.{◌<◌, IfOk, Ok, length};
ghost use Rattle.ps_model.specs.AcceptedJob.{AreWeights};
ghost use Rattle.script.specs.Header.{error_in, names_in};
ghost use Rattle.script.specs.Words.{words};
ghost use Rattle.std.specs.Option.{option_map};
ghost use Rattle.script.specs.Header.{behind_colon, name_fault, name_in, weight_said};
ghost use Rattle.script.specs.Refusals.{Tells};

use crate::refusal::{Refusal, Refused};
use crate::words::{first_word, number_within};
use expr_reader::{NameError, Names};
use std::alloc::Global;

/// The names of the words behind `vars`, and their weights: 1 where none is given, and behind the last.
pub fn names_of(alloc: Global, text: &[u8]) -> Result<(Names, [u16; 8]), Refused>
    ensures read { IfOk result (λ p. names_in (words text.now) ≡ Ok (p.0, p.1)) }
    ensures some { IfOk result (λ p. 0 < length p.0) }
    ensures weights { IfOk result (λ p. AreWeights (length p.0) p.1) }
    ensures fault { IfErr result (λ e. Tells e (error_in (names_in (words text.now)))) }
{
    let mut names = Names::new(alloc);
    let mut weights = [1; 8];
    let mut rest = text;
    while let Some((word, behind)) = first_word(rest) {
        let place = names.len();
        let (name, weight) = cut(word);
        add_name(&mut names, name, place + 1)?;
        match weight_of(weight) {
            Some(weight) => weights[place as usize] = weight,
            None => return Err(Refused::Line(Refusal::BadWeight { word: place + 1 })),
        }
        rest = behind;
    }
    if names.len() == 0 {
        return Err(Refused::Line(Refusal::NoNames));
    }
    Ok((names, weights))
}

/// Adds the name of the word with this number.
fn add_name(names: &mut Names, name: &[u8], word: u32) -> Result<(), Refused>
    ensures added { OnOk result (names.new ≡ names.old ++ name.now ∷ []) }
    ensures good { OnOk result (name_fault names.old name.now word ≡ None) }
    ensures fault { IfErr result (λ e. Tells e (name_fault names.old name.now word)) }
{
    let full = names.len() == 8;
    let text = match str::from_utf8(name) {
        Ok(text) => text,
        // a ninth word is one too many, whatever it is
        Err(_) => {
            return Err(Refused::Line(if full {
                Refusal::TooManyNames
            } else {
                Refusal::BadName { word }
            }));
        }
    };
    match names.add(text) {
        Ok(_) => Ok(()),
        Err(NameError::TooMany) => Err(Refused::Line(Refusal::TooManyNames)),
        Err(NameError::BadName) => Err(Refused::Line(Refusal::BadName { word })),
        Err(NameError::Repeats { .. }) => Err(Refused::Line(Refusal::NameRepeats { word })),
        Err(NameError::OutOfMemory) => Err(Refused::OutOfMemory),
    }
}

/// What stands before the first colon, and behind it where there is one.
pub fn cut(word: &[u8]) -> (&[u8], Option<&[u8]>)
    ensures name { result.0.now ≡ name_in word.now }
    ensures behind { MatchOption result.1 (behind_colon word.now ≡ None)
        (λ behind. behind_colon word.now ≡ Some behind.now) }
{
    for i in 0..word.len() {
        if word[i] == b':' {
            return (&word[..i], Some(&word[i + 1..]));
        }
    }
    (word, None)
}

/// The weight that is written: 1 where none is.
fn weight_of(text: Option<&[u8]>) -> Option<u16>
    ensures { result ≡ weight_said (option_map (λ t. t.now) text.entry) }
{
    let Some(text) = text else {
        return Some(1);
    };
    match number_within(text, 1, 64) {
        Some(weight) => Some(weight as u16),
        None => None,
    }
}
