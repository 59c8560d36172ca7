//! The tokens of a text.
ghost use Rattle.std.specs.Prelude.{◌≡◌, ◌+◌, ◌≤◌, ◌<◌, ◌^◌, [], ◌∷◌, length, drop, take_while};
ghost use Rattle.std.specs.Prelude.{true, false, OnSome, slice_index, IsTrue, List, ℕ};
ghost use Rattle.std.specs.Char.{is_ascii_digit};
ghost use Rattle.ps_model.specs.Names.{is_name_byte as is_name_byte_of};
ghost use Rattle.ps_model.specs.Tokens.{Placed, tokens, is_blank as is_blank_of};
ghost use Rattle.ps_model.specs.Tokens.{number_token as number_token_of};
ghost use Rattle.ps_model.specs.Tokens.{word_token as word_token_of};
ghost use Rattle.ps_model.specs.Tokens.{symbol_token as symbol_token_of};
ghost use Rattle.grammar.specs.Ahead.{behind};
ghost use Rattle.expr_reader.specs.Reading.{token_of};
ghost use Rattle.grammar.specs.Digits.{AreDigits};

use crate::Names;
use crate::names::is_name_byte;
use crate::token::Token;

/// A token, its place and the place behind it.
#[derive(Clone, Copy)]
pub struct Scanned {
    pub token: Token,
    pub place: usize,
    pub next: usize,
}

/// The first token from a place on.
pub fn scan(text: &[u8], names: &Names, at: usize) -> Scanned
    requires { at ≤ length text.now }
    ensures found { tokens names.now at 0 (drop at text.now)
        ≡ record { place = result.place; token = token_of result.token }
        ∷ behind names.now (token_of result.token) result.next text.now }
    ensures place { result.place ≤ length text.now }
    ensures next { result.next ≤ length text.now }
{
    let place = skip_blanks(text, at);
    if place == text.len() {
        return Scanned {
            token: Token::End,
            place,
            next: place,
        };
    }
    let first = text[place];
    if first.is_ascii_digit() {
        let next = digits_end(text, place + 1);
        Scanned {
            token: number_token(&text[place..next]),
            place,
            next,
        }
    } else if first.is_ascii_alphabetic() {
        let next = word_end(text, place + 1);
        Scanned {
            token: word_token(&text[place..next], names),
            place,
            next,
        }
    } else {
        Scanned {
            token: symbol_token(first),
            place,
            next: place + 1,
        }
    }
}

/// The place of the first byte from a place on that is no blank.
fn skip_blanks(text: &[u8], at: usize) -> usize
    requires { at ≤ length text.now }
    ensures same { (names : List (List ℕ)) →
        tokens names at 0 (drop at text.now) ≡ tokens names result 0 (drop result text.now) }
    ensures within { result ≤ length text.now }
    ensures stops { result < length text.now → is_blank_of (slice_index text.now result) ≡ false }
{
    let mut place = at;
    while place < text.len() && is_blank(text[place]) {
        place += 1;
    }
    place
}

pub fn is_blank(byte: u8) -> bool
    ensures { result ≡ is_blank_of byte }
{
    byte == b' ' || byte == b'\t'
}

fn digits_end(text: &[u8], from: usize) -> usize
    requires { from ≤ length text.now }
    ensures end { result ≡ from + length (take_while is_ascii_digit (drop from text.now)) }
    ensures within { result ≤ length text.now }
{
    let mut next = from;
    while next < text.len() && text[next].is_ascii_digit() {
        next += 1;
    }
    next
}

fn word_end(text: &[u8], from: usize) -> usize
    requires { from ≤ length text.now }
    ensures end { result ≡ from + length (take_while is_name_byte_of (drop from text.now)) }
    ensures within { result ≤ length text.now }
{
    let mut next = from;
    while next < text.len() && is_name_byte(text[next]) {
        next += 1;
    }
    next
}

fn number_token(digits: &[u8]) -> Token
    requires { AreDigits digits.now }
    ensures { token_of result ≡ number_token_of digits.now }
{
    let mut value = 0u64;
    for digit in digits {
        let more = (*digit - b'0') as u64;
        if value > (u64::MAX - more) / 10 {
            return Token::TooLarge;
        }
        value = value * 10 + more;
    }
    Token::Number(value)
}

fn word_token(word: &[u8], names: &Names) -> Token
    ensures { token_of result ≡ word_token_of names.now word.now }
{
    if word == b"Y".as_slice() {
        return Token::MainVariable;
    }
    match names.find_bytes(word) {
        Some(i) => Token::Name(i),
        None => Token::UnknownName,
    }
}

fn symbol_token(byte: u8) -> Token
    ensures { token_of result ≡ symbol_token_of byte }
{
    match byte {
        b'+' => Token::Plus,
        b'-' => Token::Minus,
        b'*' => Token::Times,
        b'/' => Token::Divide,
        b'^' => Token::Power,
        b'(' => Token::Open,
        b')' => Token::Close,
        _ => Token::Bad,
    }
}
