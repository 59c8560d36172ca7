//! Polynomials as plain data, and slow functions over them whose contracts are the definitions.
ghost use Rattle.std.specs.Prelude.{◌≡◌, ℕ, ◌+◌, ◌%◌, ◌<◌, OnOk, OnErr, map as map_list};
ghost use Rattle.std.specs.FinMap.{entries};
ghost use Rattle.std.specs.Coded.{coded_ℕ};
ghost use Rattle.std.specs.FinMap as map;
ghost use Rattle.ps_model.specs.Keys.{key_compare};
ghost use Rattle.ps_model.specs.FiniteMaps.{put};
ghost use Rattle.ps_model.specs.Plain.{key_of, IsBehind, entry_of, TermsInOrder, coded_key};
ghost use Rattle.ps_model.specs.Plain.{value_in};

mod arithmetic;
mod factors;
mod terms;

use crate::OutOfMemory;
pub use arithmetic::{plain_cut, plain_product, plain_sum};
pub use factors::{plain_is_factors, plain_laws};
use std::alloc::Global;
use std::marker::Model;
use terms::{place, put_term};

/// A key and its coefficient.
#[derive(Clone, Copy)]
pub struct PlainTerm {
    pub powers: [u16; 8],
    pub y: u32,
    pub coefficient: u64,
}

/// A polynomial: terms in order of their keys, none with coefficient 0.
#[derive(Drop)]
pub struct PlainPoly {
    terms: Vec<PlainTerm>,
}

impl Model for PlainPoly {
    ghost Value = { map.FinMap (key_compare 8) ℕ };

    ghost coded = { map.code coded_key coded_ℕ };

    ghost view = { λ p. map.from_entries (map_list entry_of p.terms.items) };

    ghost invariant = { λ p. TermsInOrder p.terms.items };
}

impl PlainPoly {
    pub fn new(alloc: Global) -> PlainPoly
        ensures { result ≡ map.empty }
    {
        PlainPoly {
            terms: Vec::new(alloc),
        }
    }

    /// All terms, in the order of their keys.
    pub fn terms(&self) -> &[PlainTerm]
        ensures listed { map_list entry_of result.now ≡ entries self.now }
        ensures in_order { TermsInOrder result.now }
    {
        self.terms.as_slice()
    }

    /// Puts a term behind the last one. Where memory is refused, all stays as it was.
    pub fn push(&mut self, term: PlainTerm) -> Result<(), OutOfMemory>
        requires nonzero { 0 < term.coefficient }
        requires behind { IsBehind (entries self.old) (key_of term) }
        ensures ok { OnOk result (self.new ≡ map.insert self.old (key_of term) term.coefficient) }
        ensures err { OnErr result (self.new ≡ self.old) }
    {
        match self.terms.push(term) {
            Ok(()) => Ok(()),
            Err(_) => Err(OutOfMemory),
        }
    }

    /// The coefficient at the key of a term, 0 where it is absent. The time is linear.
    pub fn coefficient(&self, key: &PlainTerm) -> u64
        ensures { result ≡ value_in self.now (key_of key.now) }
    {
        match place(&self.terms, key) {
            Ok(i) => self.terms[i].coefficient,
            Err(_) => 0,
        }
    }

    /// Makes a term's coefficient the one at its key; 0 takes the key away. Where memory is
    /// refused, all stays as it was. The time is linear.
    pub fn put(&mut self, term: PlainTerm) -> Result<(), OutOfMemory>
        ensures ok { OnOk result
            (self.new ≡ put (key_compare 8) self.old (key_of term) term.coefficient) }
        ensures err { OnErr result (self.new ≡ self.old) }
    {
        put_term(&mut self.terms, term)
    }

    /// Adds an amount, modulo m, to the coefficient at the key of a term. Where memory is refused,
    /// all stays as it was. The time is linear.
    pub fn add(&mut self, m: u64, amount: u128, key: &PlainTerm) -> Result<(), OutOfMemory>
        requires { 0 < m }
        ensures ok { OnOk result
            (self.new ≡ put (key_compare 8) self.old (key_of key.now)
            ((amount + value_in self.old (key_of key.now)) % m)) }
        ensures err { OnErr result (self.new ≡ self.old) }
    {
        let m = m as u128;
        let sum = amount % m + self.coefficient(key) as u128;
        let coefficient = (sum % m) as u64;
        self.put(PlainTerm {
            coefficient,
            ..*key
        })
    }
}
