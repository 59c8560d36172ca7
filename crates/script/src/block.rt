//! The line that is due behind the header of `check`.
ghost use Rattle.std.specs.Prelude.{◌≡◌, None, Some, MatchResult};
ghost use Rattle.script.specs.Blocks.{block_said};

use crate::refusal::{Keyword, Refusal};
use crate::words::first_word;

/// Whether a line that isn't one to be skipped is the one word `block`, behind which a block begins.
/// It takes no memory.
pub fn block_line(line: &[u8]) -> Result<(), Refusal>
    ensures { MatchResult result (λ _. block_said line.now ≡ None) (λ f. block_said line.now ≡ Some f) }
{
    let Some((word, rest)) = first_word(line) else {
        return Err(Refusal::Expected(Keyword::Block));
    };
    if word != Keyword::Block.text().as_bytes() {
        return Err(Refusal::Expected(Keyword::Block));
    }
    if first_word(rest).is_some() {
        return Err(Refusal::BadBlock);
    }
    Ok(())
}
