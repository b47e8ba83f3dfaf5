//! Names as a value change dump has them.
ghost use Rattle.std.specs.Prelude.{◌≡◌, IsTrue, ◌↔◌};
ghost use Rattle.std.specs.List.{list_all};
ghost use Rattle.vs_vcd_lines.specs.Names.{is_first, is_further, is_printable, is_simple, is_body};
ghost use Rattle.vs_vcd_lines.specs.Names.{IsEscaped, IsName, IsNumber, IsTurn, IsScopeName};

use crate::cuts::cut_last;
use crate::ends::{after, before};
use crate::numbers::signed_of;
use vs_design::ScopeKind;

/// Whether a byte can begin a simple identifier.
pub fn is_first(byte: u8) -> bool
    ensures { result ≡ is_first byte }
{
    (b'A' <= byte && byte <= b'Z') || (b'a' <= byte && byte <= b'z') || byte == b'_'
}

/// Whether a byte can go on in a simple identifier.
pub fn is_further(byte: u8) -> bool
    ensures { result ≡ is_further byte }
{
    is_first(byte) || (b'0' <= byte && byte <= b'9') || byte == b'$'
}

/// Whether a byte can stand in an escaped identifier.
fn is_printable(byte: u8) -> bool
    ensures { result ≡ is_printable byte }
{
    b'!' <= byte && byte <= b'~'
}

/// Whether all bytes of a text can go on in a simple identifier.
fn are_further(text: &[u8]) -> bool
    ensures { result ≡ list_all is_further text.now }
{
    text.iter().all(|byte| is_further(*byte))
}

/// Whether all bytes of a text can stand in an escaped identifier.
pub fn are_printable(text: &[u8]) -> bool
    ensures { result ≡ list_all is_printable text.now }
{
    text.iter().all(|byte| is_printable(*byte))
}

/// Whether a text is a simple identifier.
fn is_simple(text: &[u8]) -> bool
    ensures { result ≡ is_simple text.now }
{
    match text {
        [first, rest @ ..] => is_first(*first) && are_further(rest),
        [] => false,
    }
}

/// Whether a text is the body of an escaped identifier.
pub fn is_body(text: &[u8]) -> bool
    ensures { result ≡ is_body text.now }
{
    !text.is_empty() && are_printable(text)
}

/// Whether a text is an escaped identifier with its backslash and one space after it.
fn is_escaped(text: &[u8]) -> bool
    ensures { IsTrue result ↔ IsEscaped text.now }
{
    let Some(rest) = after(text, b"\\") else {
        return false;
    };
    match before(rest, b" ") {
        Some(body) => is_body(body),
        None => false,
    }
}

/// Whether a text is a name as it is printed.
pub(crate) fn is_name(text: &[u8]) -> bool
    ensures { IsTrue result ↔ IsName text.now }
{
    is_simple(text) || is_escaped(text)
}

/// Whether a text writes a number from -2^63 to 2^63 - 1.
fn is_number(text: &[u8]) -> bool
    ensures { IsTrue result ↔ IsNumber text.now }
{
    signed_of(text).is_some()
}

/// Whether a text is a name, and another writes a number.
fn are_of_turn(name: &[u8], number: &[u8]) -> bool
    ensures { IsTrue result ↔ (IsName name.now × IsNumber number.now) }
{
    is_name(name) && is_number(number)
}

/// Whether a text is the name of the scope of a turn of a generate loop.
fn is_turn(text: &[u8]) -> bool
    ensures { IsTrue result ↔ IsTurn text.now }
{
    let Some(front) = before(text, b"]") else {
        return false;
    };
    match cut_last(front, b'[') {
        Some((name, number)) => are_of_turn(name, number),
        None => false,
    }
}

/// Whether a text is the name of a scope of this kind.
pub(crate) fn is_scope_name(kind: ScopeKind, text: &[u8]) -> bool
    ensures { IsTrue result ↔ IsScopeName kind text.now }
{
    is_name(text) || (matches!(kind, ScopeKind::Begin) && is_turn(text))
}
