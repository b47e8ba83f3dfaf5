//! Decimal numbers.
ghost use Rattle.std.specs.Prelude.{◌≡◌, ℕ, ◌<◌, ◌^◌, ℤ, decimal, MatchOption};
ghost use Rattle.std.specs.Fmt.{signed_decimal};
ghost use Rattle.vs_vcd_lines.specs.Names.{IsShort};

use itoa::Buffer;
use std::str;

/// The number below 2^64 that is written so.
pub(crate) fn unsigned_of(word: &[u8]) -> Option<u64>
    ensures { MatchOption result ((n : ℕ) → n < 2 ^ 64 → word.now ≡ decimal n → ⊥)
        (λ n. (n < 2 ^ 64) × (word.now ≡ decimal n)) }
{
    let Ok(text) = str::from_utf8(word) else {
        return None;
    };
    let Ok(number) = text.parse::<u64>() else {
        return None;
    };
    let mut buffer = Buffer::new();
    let written = buffer.format(number).as_bytes() == word;
    if written { Some(number) } else { None }
}

/// The number from -2^63 to 2^63 - 1 that is written so.
pub fn signed_of(word: &[u8]) -> Option<i64>
    ensures { MatchOption result ((n : ℤ) → IsShort n → word.now ≡ signed_decimal n → ⊥)
        (λ n. IsShort n × (word.now ≡ signed_decimal n)) }
{
    let Ok(text) = str::from_utf8(word) else {
        return None;
    };
    let Ok(number) = text.parse::<i64>() else {
        return None;
    };
    let mut buffer = Buffer::new();
    let written = buffer.format(number).as_bytes() == word;
    if written { Some(number) } else { None }
}
