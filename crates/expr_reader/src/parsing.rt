//! The recursive descent. Each part says what it does to every state of the machine.
ghost use Rattle.std.specs.Prelude.{◌≡◌, ◌+◌, ◌≤◌, ◌<◌, [], ◌∷◌, ◌++◌, List, length, OnOk};
ghost use Rattle.std.specs.Prelude.{IsSome, OnSome};
ghost use Rattle.ps_model.specs.Tokens.{tokens};
ghost use Rattle.grammar.specs.Ahead.{all};
ghost use Rattle.expr_reader.specs.ReadErrors.{error_of};
ghost use Rattle.grammar.specs.Machine.{Frame, State, start, operand, based, powered, termed};
ghost use Rattle.grammar.specs.Machine.{whole, fresh, term_of, expression_of, is_one_plain};
ghost use Rattle.grammar.specs.Machine.{with_factor, run, refusal as refusal_of};
ghost use Rattle.expr_reader.specs.Reading.{Runs, Moves, Stops, raised, after_factor};
ghost use Rattle.expr_reader.specs.Reading.{after_summand, left};
ghost use Rattle.ps_model.specs.declared.expr.Summand.{Summand};
ghost use Rattle.ps_model.specs.declared.expr.Factor.{Factor};
ghost use Rattle.std.specs.Prelude.{Bool};
ghost use Rattle.ps_model.specs.declared.expr.Expr.{Expr};

use crate::reader::Reader;
use crate::token::Token;
use crate::{Names, ReadError};
use ps_model::{Expr, Factor, Summand};
use sqlite_items::{Boxed, Items};
use std::alloc::Global;

/// How many parentheses may be open.
pub const MAX_DEPTH: usize = 64;

fn refusal(reader: &Reader<'_>) -> ReadError
    ensures { result ≡ error_of (refusal_of reader.now.place reader.now.token) }
{
    match reader.token() {
        Token::Bad => ReadError::BadCharacter {
            place: reader.place(),
        },
        _ => ReadError::Expected {
            place: reader.place(),
        },
    }
}

/// The minus that an expression may begin with.
fn leading_minus(reader: &mut Reader<'_>) -> bool
    ensures moves { (outer : List Frame) → run (start outer) (all reader.old) ≡ run
        (operand (fresh [] result) outer) (all reader.new) }
    ensures fewer { left reader.new ≤ left reader.old }
{
    match reader.token() {
        Token::Minus => {
            reader.advance();
            true
        }
        _ => false,
    }
}

/// The sign before a further summand.
fn summand_sign(reader: &mut Reader<'_>) -> Option<bool>
    ensures moves { (ss : List Summand) (outer : List Frame) → run (termed ss outer)
        (all reader.old) ≡ run (after_summand ss outer result) (all reader.new) }
    ensures fewer { left reader.new ≤ left reader.old }
    ensures further { OnSome result (left reader.new < left reader.old) }
{
    match reader.token() {
        Token::Plus => {
            reader.advance();
            Some(false)
        }
        Token::Minus => {
            reader.advance();
            Some(true)
        }
        _ => None,
    }
}

/// The sign before a further factor.
fn factor_sign(reader: &mut Reader<'_>) -> Option<bool>
    ensures moves { (fs : List Factor) (ss : List Summand) (minus : Bool) (outer : List Frame) →
        run (powered fs ss minus outer) (all reader.old) ≡ run
        (after_factor fs ss minus outer result) (all reader.new) }
    ensures fewer { left reader.new ≤ left reader.old }
    ensures further { OnSome result (left reader.new < left reader.old) }
{
    match reader.token() {
        Token::Times => {
            reader.advance();
            Some(false)
        }
        Token::Divide => {
            reader.advance();
            Some(true)
        }
        _ => None,
    }
}

/// The exponent that may follow a base.
fn exponent(reader: &mut Reader<'_>) -> Result<Option<u32>, ReadError>
    ensures moves { (e : Expr) (fr : Frame) (outer : List Frame) → Moves (based e fr outer)
        (λ n. powered (with_factor fr
        (raised e n)) fr.summands fr.minus outer) result reader.old reader.new }
    ensures fewer { left reader.new ≤ left reader.old }
{
    match reader.token() {
        Token::Power => {
            reader.advance();
            let place = reader.place();
            match reader.token() {
                Token::Number(n) => {
                    if n <= 255 {
                        reader.advance();
                        Ok(Some(n as u32))
                    } else {
                        Err(ReadError::ExponentTooLarge { place })
                    }
                }
                Token::TooLarge => Err(ReadError::ExponentTooLarge { place }),
                _ => Err(refusal(reader)),
            }
        }
        _ => Ok(None),
    }
}

#[cycle(reading)]
fn base(alloc: Global, reader: &mut Reader<'_>, depth: usize) -> Result<Expr, ReadError>
    requires { depth ≤ 64 }
    ensures moves { (fr : Frame) (outer : List Frame) → length outer ≡ depth → Moves
        (operand fr outer) (λ e. based e fr outer) result reader.old reader.new }
    ensures fewer { OnOk result (left reader.new ≤ left reader.old) }
{
    let place = reader.place();
    match reader.token() {
        Token::Number(n) => {
            reader.advance();
            Ok(Expr::Number(n))
        }
        Token::Name(i) => {
            reader.advance();
            Ok(Expr::Name(i))
        }
        Token::MainVariable => {
            reader.advance();
            Ok(Expr::MainVariable)
        }
        Token::UnknownName => Err(ReadError::UnknownName { place }),
        Token::TooLarge => Err(ReadError::NumberTooLarge { place }),
        Token::Open => {
            if depth == MAX_DEPTH {
                return Err(ReadError::TooDeep { place });
            }
            reader.advance();
            let of = expression(alloc, reader, depth + 1)?;
            match reader.token() {
                Token::Close => {
                    reader.advance();
                    Ok(of)
                }
                _ => Err(refusal(reader)),
            }
        }
        _ => Err(refusal(reader)),
    }
}

#[cycle(reading)]
fn power(alloc: Global, reader: &mut Reader<'_>, depth: usize) -> Result<Expr, ReadError>
    requires { depth ≤ 64 }
    ensures moves { (fr : Frame) (outer : List Frame) → length outer ≡ depth → Moves
        (operand fr outer) (λ e. powered
        (with_factor fr e) fr.summands fr.minus outer) result reader.old reader.new }
    ensures fewer { OnOk result (left reader.new ≤ left reader.old) }
{
    let of = base(alloc, reader, depth)?;
    match exponent(reader)? {
        None => Ok(of),
        Some(exponent) => Ok(Expr::Power(Boxed::new(alloc, of)?, exponent)),
    }
}

#[cycle(reading)]
fn term(alloc: Global, reader: &mut Reader<'_>, depth: usize) -> Result<Expr, ReadError>
    requires { depth ≤ 64 }
    ensures moves { (ss : List Summand) (minus : Bool) (outer : List Frame) →
        length outer ≡ depth → Moves (operand (fresh ss minus) outer)
        (λ e. termed (ss ++ record {
          minus = minus;
          of =
              e;
        } ∷ []) outer) result reader.old reader.new }
    ensures fewer { OnOk result (left reader.new ≤ left reader.old) }
{
    let mut factors = Items::new(alloc);
    let mut divide = false;
    loop {
        let of = power(alloc, reader, depth)?;
        factors.push(Factor { divide, of })?;
        match factor_sign(reader) {
            Some(sign) => divide = sign,
            None => break,
        }
    }
    Ok(product_of(factors))
}

#[cycle(reading)]
fn expression(alloc: Global, reader: &mut Reader<'_>, depth: usize) -> Result<Expr, ReadError>
    requires { depth ≤ 64 }
    ensures moves { (outer : List Frame) → length outer ≡ depth → Moves (start outer)
        (λ e. whole e outer) result reader.old reader.new }
    ensures fewer { OnOk result (left reader.new ≤ left reader.old) }
{
    let mut minus = leading_minus(reader);
    let mut summands = Items::new(alloc);
    loop {
        let of = term(alloc, reader, depth)?;
        summands.push(Summand { minus, of })?;
        match summand_sign(reader) {
            Some(sign) => minus = sign,
            None => break,
        }
    }
    Ok(sum_of(summands))
}

/// The tree of a term of these powers.
fn product_of(factors: Items<Factor>) -> Expr
    ensures { result ≡ term_of factors }
{
    let mut factors = factors;
    if factors.len() == 1 {
        match factors.pop() {
            Some(factor) => factor.of,
            None => Expr::Product(factors),
        }
    } else {
        Expr::Product(factors)
    }
}

/// The tree of an expression of these terms.
fn sum_of(summands: Items<Summand>) -> Expr
    ensures { result ≡ expression_of summands }
{
    let mut summands = summands;
    if is_plain(summands.as_slice()) {
        match summands.pop() {
            Some(summand) => summand.of,
            None => Expr::Sum(summands),
        }
    } else {
        Expr::Sum(summands)
    }
}

/// Whether it is one summand without a minus.
fn is_plain(summands: &[Summand]) -> bool
    ensures { result ≡ is_one_plain summands.now }
{
    match summands {
        [only] => !only.minus,
        _ => false,
    }
}

/// The expression that a text without blanks at its end spells.
pub fn read_trimmed(alloc: Global, text: &[u8], names: &Names) -> Result<Expr, ReadError>
    requires { length text.now ≤ 65536 }
    ensures { Runs result (run (start []) (tokens names.now 0 0 text.now)) }
{
    let mut reader = Reader::new(text, names);
    let expr = expression(alloc, &mut reader, 0)?;
    match reader.token() {
        Token::End => Ok(expr),
        _ => Err(refusal(&reader)),
    }
}
