//! The words of the command line.
ghost use Rattle.std.specs.Prelude.{◌≡◌, IfOk, drop};
ghost use Rattle.std.specs.Vec.Iter.{into_iter_items};

use ps_model::OutOfMemory;
use std::alloc::Global;
use std::env::Args;

/// The words behind the first one, which is the program's own name.
pub fn words_after_name(alloc: Global, mut all: Args) -> Result<Vec<String>, OutOfMemory>
    ensures { IfOk result (λ words. words.items ≡ drop 1 (into_iter_items all)) }
{
    let mut words = Vec::new(alloc);
    let Some(_name) = all.next() else {
        return Ok(words);
    };
    while let Some(word) = all.next() {
        words.push(word)?;
    }
    Ok(words)
}
