//! Numbers by their digits.

ghost use Rattle.std.specs.Prelude.{◌≡◌, ◌<◌, true, false, MatchOption};
ghost use Rattle.std.specs.Char.{is_ascii_digit};
ghost use Rattle.std.specs.List.{list_all};
ghost use Rattle.xc_text.specs.LongNumbers.{long_number};
ghost use Rattle.xc_text.specs.Words.{are_digits, number};

/// The number that one to nine digits stand for.
pub fn number_of(text: &[u8]) -> Option<u32>
    ensures value { MatchOption result (are_digits 9 text.now ≡ false)
        (λ n. (are_digits 9 text.now ≡ true) × (n ≡ number text.now)) }
    ensures fits { MatchOption result (Unit {0}) (λ n. n < 1000000000) }
{
    if text.is_empty() || text.len() > 9 {
        return None;
    }
    let mut n: u32 = 0;
    for b in text {
        if !b.is_ascii_digit() {
            return None;
        }
        n = n * 10 + u32::from(*b - b'0');
    }
    Some(n)
}

/// The number that one or more digits stand for, unless it is 2^64 or more.
#[tactic(auto, using(crate::proofs::NumberLemmas::too_large))]
pub fn long_number(bytes: &[u8]) -> Option<u64>
    ensures { result ≡ long_number bytes.now }
{
    if bytes.is_empty() {
        return None;
    }
    let mut value: u64 = 0;
    for b in bytes {
        if !b.is_ascii_digit() {
            return None;
        }
        value = value.checked_mul(10)?.checked_add(u64::from(*b - b'0'))?;
    }
    Some(value)
}

/// Whether these are digits, if any.
pub fn all_digits(text: &[u8]) -> bool
    ensures { result ≡ list_all is_ascii_digit text.now }
{
    text.iter().all(|b| b.is_ascii_digit())
}

/// Whether these are digits: one or more, and at most so many.
pub fn are_digits(text: &[u8], most: usize) -> bool
    ensures { result ≡ are_digits most text.now }
{
    if text.is_empty() || most < text.len() {
        return false;
    }
    all_digits(text)
}
