//! Beginnings of the lines of variables.
ghost use Rattle.std.specs.Prelude.{IsTrue, ◌↔◌};
ghost use Rattle.vs_vcd_lines.specs.Beginnings.{BeginsVariable};
ghost use Rattle.vs_vcd_lines.specs.BeginningsParts.{BeginsSome, IsCodedRest, IsKind, IsKindRest, IsNamedRest};
ghost use Rattle.vs_vcd_lines.specs.BeginningsParts.{IsRangeEnd, IsSizedRest, IsSomeSize, IsVariableEnd};

use crate::beginnings_codes::{begins_code, is_code};
use crate::beginnings_names::{after_name, begins_name};
use crate::beginnings_numbers::begins_bounds;
use crate::texts::begins;
use crate::{after, cut, kind_of, size_of_word};

/// Whether a text begins a range and the end of a declaration.
fn begins_range(text: &[u8]) -> bool
    ensures { IsTrue result ↔ BeginsSome IsRangeEnd text.now }
{
    match after(text, b" [") {
        Some(bounds) => begins_bounds(bounds),
        None => begins(text, b" ["),
    }
}

/// Whether a text begins what stands in the line of a variable after its name.
fn begins_variable_end(text: &[u8]) -> bool
    ensures { IsTrue result ↔ BeginsSome IsVariableEnd text.now }
{
    begins(text, b" $end") || begins_range(text)
}

/// Whether a text begins what stands in the line of a variable after its code.
fn begins_named(text: &[u8]) -> bool
    ensures { IsTrue result ↔ BeginsSome IsNamedRest text.now }
{
    match after_name(text) {
        Some(rest) => begins_variable_end(rest),
        None => begins_name(text),
    }
}

/// Whether a text begins what stands in the line of a variable after its size, where its code has this number.
fn begins_coded(text: &[u8], number: usize) -> bool
    ensures { IsTrue result ↔ BeginsSome (IsCodedRest number) text.now }
{
    match cut(text, b' ') {
        Some((code, rest)) => is_code(code, number) && begins_named(rest),
        None => begins_code(text, number),
    }
}

/// Whether a word writes a size of 1 to 64 bits.
fn is_size(word: &[u8]) -> bool
    ensures { IsTrue result ↔ IsSomeSize word.now }
{
    size_of_word(word).is_some()
}

/// Whether a text begins a size of 1 to 64 bits.
fn begins_size(text: &[u8]) -> bool
    ensures { IsTrue result ↔ BeginsSome IsSomeSize text.now }
{
    text.is_empty() || is_size(text)
}

/// Whether a text begins what stands in the line of a variable after its kind, where its code has this number.
fn begins_sized(text: &[u8], number: usize) -> bool
    ensures { IsTrue result ↔ BeginsSome (IsSizedRest number) text.now }
{
    match cut(text, b' ') {
        Some((size, rest)) => is_size(size) && begins_coded(rest, number),
        None => begins_size(text),
    }
}

/// Whether a word says what a variable was declared as.
fn is_kind(word: &[u8]) -> bool
    ensures { IsTrue result ↔ IsKind word.now }
{
    kind_of(word).is_some()
}

/// Whether a text begins a word for what a variable was declared as.
fn begins_kind(text: &[u8]) -> bool
    ensures { IsTrue result ↔ BeginsSome IsKind text.now }
{
    begins(text, b"wire") || begins(text, b"reg") || begins(text, b"integer")
}

/// Whether a text begins what stands in the line of a variable from its kind on, where its code has this number.
fn begins_shape(text: &[u8], number: usize) -> bool
    ensures { IsTrue result ↔ BeginsSome (IsKindRest number) text.now }
{
    match cut(text, b' ') {
        Some((kind, rest)) => is_kind(kind) && begins_sized(rest, number),
        None => begins_kind(text),
    }
}

/// Whether a text begins the line of a variable, whose code has this number.
pub fn begins_variable(part: &[u8], number: usize) -> bool
    ensures { IsTrue result ↔ BeginsVariable number part.now }
{
    match after(part, b"$var ") {
        Some(rest) => begins_shape(rest, number),
        None => begins(part, b"$var "),
    }
}
