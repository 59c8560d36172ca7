//! Why a script is refused.
ghost use Rattle.std.specs.Prelude.{◌≡◌};
ghost use Rattle.script.specs.Refusals.{keyword_text};

use expr_reader::ReadError;
use intake::JobError;
use std::alloc::{AllocError, AllocFailed};
use std::error::Error;
use std::fmt;

/// The word that begins a line of a header.
#[derive(Clone, Copy, Debug, PartialEq, Eq)]
pub enum Keyword {
    Mod,
    Vars,
    Poly,
    Roots,
    Block,
}

impl Keyword {
    /// The word itself.
    pub fn text(self) -> &'static str
        ensures { result.now ≡ keyword_text self }
    {
        match self {
            Keyword::Mod => "mod",
            Keyword::Vars => "vars",
            Keyword::Poly => "poly",
            Keyword::Roots => "roots",
            Keyword::Block => "block",
        }
    }
}

/// What is wrong with a line of a script, or missing at its end. Words of a line are counted from 1.
#[derive(Clone, Copy, Debug, PartialEq, Eq)]
pub enum Refusal {
    /// The line needs byte 1,048,577 of the input.
    InputTooLong,
    /// The line has more than 65,536 bytes.
    LineTooLong,
    /// The line doesn't begin with this word, or the input ends before it.
    Expected(Keyword),
    /// The line doesn't begin with the word of a request.
    ExpectedRequest,
    /// Behind `mod` stands no number, or more than one word.
    BadModulus,
    /// The modulus is below 2, or 2^63 at least.
    ModulusOutOfRange,
    /// Behind `vars` stands no word.
    NoNames,
    /// There are more than eight names.
    TooManyNames,
    /// This word is no name.
    BadName { word: u32 },
    /// The name of this word stands before.
    NameRepeats { word: u32 },
    /// Behind the `:` of this word stands no weight from 1 to 64.
    BadWeight { word: u32 },
    /// The polynomial isn't read.
    BadPolynomial(ReadError),
    /// Behind `roots` stands no word.
    NoRoots,
    /// This word is no root with its multiplicity.
    BadRoot { word: u32 },
    /// The job can't be factored by its roots.
    BadJob(JobError),
    /// Behind the word of a request stands no number, or more than one word.
    BadRequest,
    /// The precision is above 4,095.
    PrecisionTooLarge,
    /// There are more than 32,768 monomials up to this degree.
    TooManyMonomials { precision: u32, count: u128 },
    /// Behind `block` stands a word.
    BadBlock,
    /// The line has no form that a block's line has there.
    NotABlock,
}

impl fmt::Display for Keyword {
    ghost use Rattle.std.specs.Prelude.{Some};

    ghost output = { λ k. Some (keyword_text k) };

    fn fmt<W: fmt::Write>(&self, f: &mut fmt::Formatter<W>) -> fmt::Result {
        match self {
            Keyword::Mod => write!(f, "mod"),
            Keyword::Vars => write!(f, "vars"),
            Keyword::Poly => write!(f, "poly"),
            Keyword::Roots => write!(f, "roots"),
            Keyword::Block => write!(f, "block"),
        }
    }
}

impl fmt::Display for Refusal {
    ghost use Rattle.std.specs.Prelude.{Some};
    ghost use Rattle.script.specs.Refusals.{refusal_text};

    ghost output = { λ r. Some (refusal_text r) };

    fn fmt<W: fmt::Write>(&self, f: &mut fmt::Formatter<W>) -> fmt::Result {
        match self {
            Refusal::InputTooLong => write!(f, "input too long"),
            Refusal::LineTooLong => write!(f, "line too long"),
            Refusal::Expected(keyword) => write!(f, "expected {keyword}"),
            Refusal::ExpectedRequest => write!(f, "expected a request"),
            Refusal::BadModulus => write!(f, "bad mod"),
            Refusal::ModulusOutOfRange => write!(f, "modulus out of range"),
            Refusal::NoNames => write!(f, "no names"),
            Refusal::TooManyNames => write!(f, "too many names"),
            Refusal::BadName { word } => write!(f, "bad name {word}"),
            Refusal::NameRepeats { word } => write!(f, "name {word} repeats"),
            Refusal::BadWeight { word } => write!(f, "bad weight {word}"),
            Refusal::BadPolynomial(error) => match error {
                ReadError::BadCharacter { place } => write!(f, "poly: bad character at {place}"),
                ReadError::Expected { place } => write!(f, "poly: unexpected token at {place}"),
                ReadError::UnknownName { place } => write!(f, "poly: unknown name at {place}"),
                ReadError::NumberTooLarge { place } => {
                    write!(f, "poly: number too large at {place}")
                }
                ReadError::ExponentTooLarge { place } => {
                    write!(f, "poly: exponent too large at {place}")
                }
                ReadError::TooDeep { place } => write!(f, "poly: too deep at {place}"),
                ReadError::OutOfMemory => write!(f, "poly: out of memory"),
            },
            Refusal::NoRoots => write!(f, "no roots"),
            Refusal::BadRoot { word } => write!(f, "bad root {word}"),
            Refusal::BadJob(error) => write!(f, "{error}"),
            Refusal::BadRequest => write!(f, "bad request"),
            Refusal::PrecisionTooLarge => write!(f, "precision above 4095"),
            Refusal::TooManyMonomials { precision, count } => {
                write!(
                    f,
                    "precision {precision} needs {count} monomials, limit 32768"
                )
            }
            Refusal::BadBlock => write!(f, "bad block"),
            Refusal::NotABlock => write!(f, "not a block"),
        }
    }
}

impl Error for Refusal {}

/// Why a line isn't read.
#[derive(Clone, Copy, Debug, PartialEq, Eq)]
pub enum Refused {
    /// The script is refused at this line.
    Line(Refusal),
    /// Memory could not be had.
    OutOfMemory,
}

impl From<Refusal> for Refused {
    ghost use Rattle.std.specs.Prelude.{◌≡◌};
    ghost use Rattle.script.specs.declared.refusal.Refused.TheVariants.{Line};

    ghost from_gives = { λ refusal e. e ≡ Line refusal };

    fn from(refusal: Refusal) -> Refused {
        Refused::Line(refusal)
    }
}

impl From<AllocError> for Refused {
    ghost use Rattle.std.specs.Prelude.{◌≡◌};
    ghost use Rattle.script.specs.declared.refusal.Refused.TheVariants.{OutOfMemory};

    ghost from_gives = { λ _ e. e ≡ OutOfMemory };

    fn from(_: AllocError) -> Refused {
        Refused::OutOfMemory
    }
}

impl<T: Drop> From<AllocFailed<T>> for Refused {
    ghost use Rattle.std.specs.Prelude.{◌≡◌};
    ghost use Rattle.script.specs.declared.refusal.Refused.TheVariants.{OutOfMemory};

    ghost from_gives = { λ _ e. e ≡ OutOfMemory };

    fn from(_: AllocFailed<T>) -> Refused {
        Refused::OutOfMemory
    }
}
