//! Names of variables, in order of mention.
ghost use Rattle.std.specs.Prelude.{◌≡◌, ℕ, ◌<◌, ◌≤◌, ◌↔◌, true, false, [], ◌∷◌, ◌++◌, length, map};
ghost use Rattle.std.specs.Prelude.{string_bytes, slice_get, Some, None, IsErrOf, IfOk, OnOk, OnErr};
ghost use Rattle.std.specs.List.{list_all};
ghost use Rattle.ps_model.specs.Names.{is_name as is_name_of, is_name_byte as is_name_byte_of};
ghost use Rattle.expr_reader.specs.NameLists.{AreVariables, AreNames-as_names, as_names, index_of};

use crate::NameError;
use indexmap::IndexSet;
use ps_model::NameView;
use std::alloc::Global;
use std::marker::Model;

/// The most names that a list holds.
const MOST_NAMES: u32 = 8;

/// The most bytes of a name.
const MOST_BYTES: usize = 16;

/// Names of variables in order of mention: at most eight, no two of them equal. The variable `i` of
/// an expression has the name at position `i`.
#[derive(Drop)]
pub struct Names {
    texts: IndexSet<String>,
}

impl Model for Names {
    ghost use Rattle.std.specs.Prelude.{List, ℕ, map, string_bytes};
    ghost use Rattle.expr_reader.specs.NameLists.{AreVariables};

    ghost Value = { List (List ℕ) };

    ghost view = { λ names. map string_bytes names.texts.keys };

    ghost invariant = { λ names. AreVariables (map string_bytes names.texts.keys) };
}

impl Names {
    /// No names. It takes no memory.
    pub fn new(alloc: Global) -> Names
        ensures { result ≡ [] }
    {
        Names {
            texts: IndexSet::new(alloc),
        }
    }

    /// The number of names.
    pub fn len(&self) -> u32
        ensures count { result ≡ length self.now }
        ensures variables { AreVariables self.now }
    {
        self.texts.len() as u32
    }

    /// The position of a name, from 0.
    pub fn find(&self, name: &str) -> Option<u32>
        ensures found { (i : ℕ) → (result ≡ Some i) ↔ (slice_get self.now i ≡ Some name.now) }
        ensures index { result ≡ index_of self.now name.now }
    {
        position_in(&self.texts, name)
    }

    /// The position of the name that has these bytes, from 0.
    pub fn find_bytes(&self, name: &[u8]) -> Option<u32>
        ensures found { (i : ℕ) → (result ≡ Some i) ↔ (slice_get self.now i ≡ Some name.now) }
        ensures index { result ≡ index_of self.now name.now }
    {
        let texts = &self.texts;
        match str::from_utf8(name) {
            Ok(text) => position_in(texts, text),
            // every name is UTF-8
            Err(_) => None,
        }
    }

    /// The name at a position.
    pub(crate) fn text(&self, i: u32) -> &str
        requires { i < length self.now }
        ensures { slice_get self.now i ≡ Some result.now }
    {
        self.texts.as_slice()[i as usize].as_str()
    }

    /// Adds a name behind the others and answers its position. On an error the list stays as it was.
    pub fn add(&mut self, name: &str) -> Result<u32, NameError>
        ensures too_many { IsErrOf result NameError.TooMany ↔ (length self.old ≡ 8) }
        ensures bad_name { IsErrOf result NameError.BadName
            ↔ ((length self.old < 8) × (is_name_of name.now ≡ false)) }
        ensures repeats { (first : ℕ) → IsErrOf result (NameError.Repeats first)
            ↔ ((length self.old < 8) × (is_name_of name.now ≡ true) × (slice_get self.old first ≡ Some name.now)) }
        ensures position { IfOk result (λ i. i ≡ length self.old) }
        ensures ok { OnOk result (self.new ≡ self.old ++ name.now ∷ []) }
        ensures err { OnErr result (self.new ≡ self.old) }
    {
        let count = self.len();
        if count == MOST_NAMES {
            return Err(NameError::TooMany);
        }
        if !is_name(name) {
            return Err(NameError::BadName);
        }
        if let Some(first) = self.find(name) {
            return Err(NameError::Repeats { first });
        }
        let text = String::from_str(*self.texts.allocator(), name)?;
        self.texts.insert(text)?;
        Ok(count)
    }
}

impl NameView for Names {
    ghost names = { as_names };

    ghost are_names = { AreNames-as_names };

    fn name(&self, i: u32) -> &str {
        self.texts.as_slice()[i as usize].as_str()
    }
}

/// The position of a text among others.
fn position_in(texts: &IndexSet<String>, name: &str) -> Option<u32>
    requires few { length texts.now.keys ≤ 8 }
    ensures { result ≡ index_of (map string_bytes texts.now.keys) name.now }
{
    match texts.get_index_of(name) {
        Some(i) => Some(i as u32),
        None => None,
    }
}

/// Whether a text is a name.
pub fn is_name(text: &str) -> bool
    ensures { result ≡ is_name_of text.now }
{
    let [first, rest @ ..] = text.as_bytes() else {
        return false;
    };
    first.is_ascii_alphabetic() && are_name_bytes(rest) && rest.len() < MOST_BYTES && text != "Y"
}

/// Whether all bytes may follow a name's first letter.
fn are_name_bytes(bytes: &[u8]) -> bool
    ensures { result ≡ list_all is_name_byte_of bytes.now }
{
    bytes.iter().all(|byte| is_name_byte(*byte))
}

/// Whether a byte may follow a name's first letter.
pub fn is_name_byte(byte: u8) -> bool
    ensures { result ≡ is_name_byte_of byte }
{
    byte.is_ascii_alphanumeric() || byte == b'_'
}
