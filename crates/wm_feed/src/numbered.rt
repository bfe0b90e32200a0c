//! The number of a watch that stands before its records. Definitions: specs/Numbers.antt. Tests: feed_tests/src/numbered.rt.

ghost use Rattle.std.specs.Prelude.{◌≡◌, ◌<◌, ◌^◌, ℕ, List, Some, IfSome, option_map};
ghost use Rattle.std.specs.Fmt.{decimal};
ghost use Rattle.wm_feed.specs.Numbers.{is_plain as is_plain_lem, numbered};

use crate::record::cut;

/// Whether no sign is in front, and no zero that another digit follows.
fn is_plain(digits: &[u8]) -> bool
    ensures { result ≡ is_plain_lem digits.now }
{
    match digits {
        [b'+', ..] => false,
        [b'0', rest @ ..] => rest.is_empty(),
        _ => true,
    }
}

/// The number whose decimal digits these are.
fn number_of(digits: &[u8]) -> Option<u64>
    ensures is { IfSome result (λ n. digits.now ≡ decimal n) }
    ensures found { (n : ℕ) → n < 2 ^ 64 → digits.now ≡ decimal n → result ≡ Some n }
{
    if !is_plain(digits) {
        return None;
    }
    match str::from_utf8(digits) {
        Ok(text) => text.parse::<u64>().ok(),
        Err(_) => None,
    }
}

/// The number of the watch that a record begins with, and the record behind it. The number stands in decimal digits, without a sign
/// and without a zero in front of another digit, and ends with a zero byte. `None` if the bytes begin otherwise, or the number is
/// above 2^64 - 1.
pub fn read_number(bytes: &[u8]) -> Option<(u64, &[u8])>
    ensures is { IfSome result (λ p. bytes.now ≡ numbered p.0 p.1.now) }
    ensures found { (n : ℕ) (rest : List ℕ) → n < 2 ^ 64 → bytes.now ≡ numbered n rest → option_map {U = ℕ × List ℕ} (λ p. (p.0, p.1.now)) result ≡ Some (n, rest) }
{
    let (digits, rest) = cut(bytes)?;
    let number = number_of(digits)?;
    Some((number, rest))
}
