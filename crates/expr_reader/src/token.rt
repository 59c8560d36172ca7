//! What the reader has in hand.

/// What a token of a text stands for.
#[derive(Clone, Copy, Debug, PartialEq, Eq)]
pub enum Token {
    Plus,
    Minus,
    Times,
    Divide,
    Power,
    Open,
    Close,
    Number(u64),
    /// A number past 64 bits.
    TooLarge,
    Name(u32),
    MainVariable,
    /// A name that is none of the names.
    UnknownName,
    /// A byte that begins no token.
    Bad,
    /// The end of the text.
    End,
}
