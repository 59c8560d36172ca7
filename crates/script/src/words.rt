//! Blanks, words and numbers of a line.
ghost use Rattle.std.specs.Prelude.{◌≡◌, ◌∷◌, ◌-◌, ◌^◌, ◌<◌, ◌≤◌, [], true, false, MatchOption};
ghost use Rattle.std.specs.Prelude.{IfSome, length, min};
ghost use Rattle.ps_model.specs.Tokens.{is_blank as is_blank_of, without_blanks};
ghost use Rattle.script.specs.Words.{words, first_word_of, without_word, without_first_blanks};
ghost use Rattle.script.specs.Words.{is_skipped as is_skipped_line};
ghost use Rattle.script.specs.Numbers.{is_number, number_in, number_of};

/// Whether a line says nothing: there is no word, or the first one begins with `#`.
pub fn is_skipped(line: &[u8]) -> bool
    ensures { result ≡ is_skipped_line line.now }
{
    match from_first(line) {
        [] => true,
        [first, ..] => *first == b'#',
    }
}

/// The first word, and what stands behind it.
pub fn first_word(text: &[u8]) -> Option<(&[u8], &[u8])>
    ensures words { MatchOption result (words text.now ≡ [])
        (λ cut. words text.now ≡ cut.0.now ∷ words cut.1.now) }
    ensures behind { IfSome result (λ cut. cut.1.now ≡ without_word (without_first_blanks text.now)) }
    ensures fewer { IfSome result (λ cut. length cut.1.now < length text.now) }
{
    let text = from_first(text);
    if text.is_empty() {
        return None;
    }
    Some(text.split_at(word_length(text)))
}

/// The text without the blanks at both ends.
pub fn trimmed(text: &[u8]) -> &[u8]
    ensures same { result.now ≡ without_blanks (without_first_blanks text.now) }
    ensures within { length result.now ≤ length text.now }
{
    up_to_last(from_first(text))
}

/// The number that a word of decimal digits stands for: 2^128 - 1 where it is larger.
pub fn number(word: &[u8]) -> Option<u128>
    ensures { MatchOption result (is_number word.now ≡ false)
        (λ n. (is_number word.now ≡ true) × (n ≡ min (number_of word.now) (2 ^ 128 - 1))) }
{
    if word.is_empty() {
        return None;
    }
    let mut value = 0u128;
    for digit in word {
        if !digit.is_ascii_digit() {
            return None;
        }
        value = value
            .saturating_mul(10)
            .saturating_add(u128::from(*digit - b'0'));
    }
    Some(value)
}

/// The number, where one from low to high is written.
pub fn number_within(word: &[u8], low: u128, high: u128) -> Option<u128>
    requires { high < 2 ^ 128 - 1 }
    ensures { result ≡ number_in low high word.now }
{
    let number = number(word)?;
    if number < low || number > high {
        return None;
    }
    Some(number)
}

/// The text from its first byte on that is no blank.
fn from_first(text: &[u8]) -> &[u8]
    ensures same { result.now ≡ without_first_blanks text.now }
    ensures within { length result.now ≤ length text.now }
{
    let mut start = 0;
    while start < text.len() && is_blank(text[start]) {
        start += 1;
    }
    &text[start..]
}

/// The text up to its last byte that is no blank.
fn up_to_last(text: &[u8]) -> &[u8]
    ensures same { result.now ≡ without_blanks text.now }
    ensures within { length result.now ≤ length text.now }
{
    let mut end = text.len();
    while end > 0 && is_blank(text[end - 1]) {
        end -= 1;
    }
    &text[..end]
}

/// How many bytes stand before the first blank.
fn word_length(text: &[u8]) -> usize
    ensures end { result ≡ length (first_word_of text.now) }
    ensures within { result ≤ length text.now }
{
    let mut end = 0;
    while end < text.len() && !is_blank(text[end]) {
        end += 1;
    }
    end
}

fn is_blank(byte: u8) -> bool
    ensures { result ≡ is_blank_of byte }
{
    byte == b' ' || byte == b'\t'
}
