//! Beginnings of what a tick stands for.
ghost use Rattle.std.specs.Prelude.{◌≡◌, IsTrue, ◌↔◌};
ghost use Rattle.vs_vcd_lines.specs.Beginnings.{is_multiple, BeginsSpan, BeginsUnit, IsCount};

use crate::texts::begins;
use crate::{cut, is_same};

/// Whether a character stands before the `s` of a unit of time.
fn is_multiple(byte: u8) -> bool
    ensures { result ≡ is_multiple byte }
{
    byte == b'm' || byte == b'u' || byte == b'n' || byte == b'p' || byte == b'f'
}

/// Whether a text begins a unit of time and the end of its line.
fn begins_unit(part: &[u8]) -> bool
    ensures { IsTrue result ↔ BeginsUnit part.now }
{
    let [first, rest @ ..] = part else {
        return true;
    };
    if *first == b's' {
        return begins(rest, b" $end");
    }
    is_multiple(*first) && begins(rest, b"s $end")
}

/// Whether a word says how many of a unit.
fn is_count(word: &[u8]) -> bool
    ensures { IsTrue result ↔ IsCount word.now }
{
    is_same(word, b"1") || is_same(word, b"10") || is_same(word, b"100")
}

/// Whether a text begins what a tick stands for and the end of its line.
pub fn begins_span(part: &[u8]) -> bool
    ensures { IsTrue result ↔ BeginsSpan part.now }
{
    match cut(part, b' ') {
        Some((count, unit)) => is_count(count) && begins_unit(unit),
        None => begins(part, b"100"),
    }
}
