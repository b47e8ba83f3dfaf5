//! Beginnings of numbers, and of what ends in them.
ghost use Rattle.std.specs.Prelude.{IsTrue, ◌↔◌};
ghost use Rattle.vs_vcd_lines.specs.Names.{IsNumber};
ghost use Rattle.vs_vcd_lines.specs.BeginningsParts.{AreBoundsEnd, BeginsSome, IsLast};

use crate::texts::begins;
use crate::{cut, is_same, signed_of};

/// Whether a text writes a number from -2^63 to 2^63 - 1.
fn is_number(text: &[u8]) -> bool
    ensures { IsTrue result ↔ IsNumber text.now }
{
    signed_of(text).is_some()
}

/// Whether a text begins a number from -2^63 to 2^63 - 1.
fn begins_number(text: &[u8]) -> bool
    ensures { IsTrue result ↔ BeginsSome IsNumber text.now }
{
    if text.is_empty() {
        return true;
    }
    let sign = is_same(text, b"-");
    sign || is_number(text)
}

/// Whether a text begins a number, its bracket and the end of a declaration.
pub(crate) fn begins_last(text: &[u8]) -> bool
    ensures { IsTrue result ↔ BeginsSome IsLast text.now }
{
    match cut(text, b']') {
        Some((number, rest)) => is_number(number) && begins(rest, b" $end"),
        None => begins_number(text),
    }
}

/// Whether a text begins the bounds of a range, its bracket and the end of a declaration.
pub(crate) fn begins_bounds(text: &[u8]) -> bool
    ensures { IsTrue result ↔ BeginsSome AreBoundsEnd text.now }
{
    match cut(text, b':') {
        Some((left, rest)) => is_number(left) && begins_last(rest),
        None => begins_number(text),
    }
}
