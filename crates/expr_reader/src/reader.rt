//! The token in hand.
ghost use Rattle.std.specs.Prelude.{◌≡◌, ◌+◌, ◌≤◌, ◌<◌, [], ◌∷◌, length, drop, IsTrue, false, true};
ghost use Rattle.ps_model.specs.Tokens.{tokens, is_end};
ghost use Rattle.grammar.specs.Ahead.{all, behind};
ghost use Rattle.expr_reader.specs.Reading.{token_of};

use crate::Names;
use crate::scanning::{Scanned, scan};
use crate::token::Token;
use std::marker::Model;

/// The text behind a token in hand.
#[derive(Drop)]
pub struct Reader<'t> {
    text: &'t [u8],
    names: &'t Names,
    token: Token,
    place: usize,
    next: usize,
}

impl<'t> Model for Reader<'t> {
    ghost use Rattle.std.specs.Prelude.{◌≤◌, length};
    ghost use Rattle.grammar.specs.Ahead.{Ahead, behind};
    ghost use Rattle.expr_reader.specs.Reading.{token_of};

    ghost Value = { Ahead };

    ghost view = { λ r. record {
      token = token_of r.token;
      place = r.place;
      rest = behind r.names.now (token_of r.token) r.next r.text.now;
    } };

    ghost invariant = { λ r. (r.next ≤ length r.text.now) × (r.place ≤ length r.text.now)
        × (length r.text.now ≤ 65536) };
}

impl<'t> Reader<'t> {
    pub fn new(text: &'t [u8], names: &'t Names) -> Reader<'t>
        requires { length text.now ≤ 65536 }
        ensures { all result ≡ tokens names.now 0 0 text.now }
    {
        let scanned = scan(text, names, 0);
        Reader {
            text,
            names,
            token: scanned.token,
            place: scanned.place,
            next: scanned.next,
        }
    }

    pub fn token(&self) -> Token
        ensures { token_of result ≡ self.now.token }
    {
        self.token
    }

    pub fn place(&self) -> u32
        ensures { result ≡ self.now.place }
    {
        self.place as u32
    }

    pub fn advance(&mut self)
        requires { is_end self.old.token ≡ false }
        ensures { all self.new ≡ self.old.rest }
    {
        let scanned = scan(self.text, self.names, self.next);
        self.token = scanned.token;
        self.place = scanned.place;
        self.next = scanned.next;
    }
}
