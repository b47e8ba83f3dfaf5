//! The bits at which values of a word differ.
ghost use Rattle.std.specs.Prelude.{◌≡◌, length};
ghost use Rattle.vs_eval.specs.Differences.{difference, has_some, sees};

use vs_design::vs_logic4::Vec4;
use vs_design::{BitRange, Bits};

/// The places at which two vectors of one size differ, as the bits of a number.
pub fn difference(before: Vec4, behind: Vec4) -> u64
    requires { length before ≡ length behind }
    ensures { result ≡ difference before behind }
{
    let values = before.value_plane() ^ behind.value_plane();
    let unknowns = before.unknown_plane() ^ behind.unknown_plane();
    values | unknowns
}

/// Whether a number has a bit that a range of bits has.
fn has_some(bits: Option<Bits>, number: u64) -> bool
    ensures { result ≡ has_some bits number }
{
    let Some(b) = bits else {
        return number != 0;
    };
    if b.low > 63 {
        return false;
    }
    let above = number >> b.low;
    if b.width > 63 {
        above != 0
    } else {
        above & ((1 << b.width) - 1) != 0
    }
}

/// Whether a range has one of these bits of a word.
pub fn sees(range: BitRange, word: usize, number: u64) -> bool
    ensures { result ≡ sees word number range }
{
    let has_word = match range.word {
        None => true,
        Some(only) => only == word,
    };
    has_word && has_some(range.bits, number)
}
