//! The parts of a series that are known.
ghost use Rattle.std.specs.Prelude.{◌≡◌, ◌<◌, ◌≤◌, ◌++◌, ◌∷◌, [], length, OnOk, OnErr};
ghost use Rattle.std.specs.Arc.{arc_value};
ghost use Rattle.parts.specs.RowsOfParts.{parts_of, part_in};
ghost use Rattle.units.specs.Links.{IsBelow, AreLinks, nonzero_count};

use parts::Part;
use ps_model::OutOfMemory;
use std::alloc::Global;
use std::marker::Model;
use std::sync::Arc;

/// The parts of a series that are known, from degree 0 on.
///
/// With each degree s goes a link over the zero parts below it, `below(s)`: whoever goes from s on
/// to `below(s) - 1`, and so down to 0, meets each part that has a term.
#[derive(Drop)]
pub struct KnownParts {
    parts: Vec<Arc<Part>>,
    below: Vec<u32>,
    nonzero: u32,
}

impl Model for KnownParts {
    ghost use Rattle.std.specs.Prelude.{List};
    ghost use Rattle.parts.specs.PartValue.{PartValue};
    ghost use Rattle.parts.specs.RowsOfParts.{parts_of};
    ghost use Rattle.units.specs.Links.{parts_code, AreKnown};

    ghost Value = { List PartValue };

    ghost coded = { parts_code };

    ghost view = { λ known. parts_of known.parts.items };

    ghost invariant = { λ known. AreKnown (parts_of known.parts.items) known.below.items known.nonzero };
}

/// The link of the degree that comes next: it reaches as far as that of the last one where the
/// part of that is zero.
fn next_link(parts: &[Arc<Part>], below: &[u32]) -> u32
    requires few { length parts.now ≤ 4095 }
    requires count { length below.now ≡ length parts.now }
    requires links { AreLinks (parts_of parts.now) below.now }
    ensures { IsBelow (parts_of parts.now) (length parts.now) result }
{
    let r = parts.len();
    if r > 0 && parts[r - 1].is_zero() {
        return below[r - 1];
    }
    r as u32
}

/// 1 of a part that has a term, and 0 of a zero part.
fn nonzero_of(part: &Part) -> u32
    ensures { result ≡ nonzero_count (part.now ∷ []) }
{
    if part.is_zero() {
        return 0;
    }
    1
}

impl KnownParts {
    /// No part. It takes no memory.
    pub fn new(alloc: Global) -> KnownParts
        ensures { result ≡ [] }
    {
        KnownParts {
            parts: Vec::new(alloc),
            below: Vec::new(alloc),
            nonzero: 0,
        }
    }

    /// How many parts are known: those of the degrees below it.
    pub fn len(&self) -> usize
        ensures { result ≡ length self.now }
    {
        self.parts.len()
    }

    /// How many of them have a term.
    pub fn nonzero(&self) -> u32
        ensures { result ≡ nonzero_count self.now }
    {
        self.nonzero
    }

    /// The part of degree r.
    pub fn part(&self, r: usize) -> &Arc<Part>
        requires { r < length self.now }
        ensures { arc_value result.now ≡ part_in self.now r }
    {
        &self.parts[r]
    }

    /// The parts; that of degree r stands at place r.
    pub fn parts(&self) -> &[Arc<Part>]
        ensures { parts_of result.now ≡ self.now }
    {
        &self.parts
    }

    /// Where the zero parts below degree s begin: of the parts of lower degrees the last one with a
    /// term has degree `below(s) - 1`. It is 0 where there is none.
    pub fn below(&self, s: usize) -> usize
        requires { s < length self.now }
        ensures { IsBelow self.now s result }
    {
        self.below[s] as usize
    }

    /// The links of all degrees.
    pub(crate) fn links(&self) -> &[u32]
        ensures { AreLinks self.now result.now }
    {
        &self.below
    }

    /// Adds the part of the next degree. On a refusal the parts stay as they were.
    pub fn push(&mut self, part: Arc<Part>) -> Result<(), OutOfMemory>
        requires { length self.old ≤ 4095 }
        ensures ok { OnOk result (self.new ≡ self.old ++ arc_value part ∷ []) }
        ensures err { OnErr result (self.new ≡ self.old) }
    {
        let below = next_link(&self.parts, &self.below);
        let nonzero = nonzero_of(&part);
        self.below.push(below)?;
        if self.parts.push(part).is_err() {
            // no link without its part
            let _ = self.below.pop();
            return Err(OutOfMemory);
        }
        self.nonzero += nonzero;
        Ok(())
    }
}
