//! Numbers among the words.
ghost use Rattle.std.specs.Prelude.{◌≡◌, ◌≤◌, IfSome, if◌then◌else◌, Some, None};
ghost use Rattle.std.specs.Char.{is_ascii_digit};
ghost use Rattle.std.specs.List.{list_all};
ghost use Rattle.words.specs.Numbers.{is_within, number_in};

/// The number that the word stands for, where it has at most so many digits and is from low to high.
pub(crate) fn number_within(word: &str, most_digits: usize, low: u64, high: u64) -> Option<u64>
    ensures number { result ≡ number_in most_digits low high word.now }
    ensures bound { IfSome result (λ n. n ≤ high) }
{
    if word.len() > most_digits {
        return None;
    }
    if !is_digits(word) {
        return None;
    }
    match word.parse::<u64>() {
        Ok(number) => within(number, low, high),
        Err(_) => None,
    }
}

fn is_digits(word: &str) -> bool
    ensures { result ≡ list_all is_ascii_digit word.now }
{
    word.bytes().all(|byte| byte.is_ascii_digit())
}

fn within(number: u64, low: u64, high: u64) -> Option<u64>
    ensures number { result ≡ (if is_within low high number then Some number else None) }
    ensures bound { IfSome result (λ n. n ≤ high) }
{
    if low <= number && number <= high {
        Some(number)
    } else {
        None
    }
}
