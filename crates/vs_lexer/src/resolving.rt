//! What texts stand for (IEEE 1364-2005, clause 3.6.3).
ghost use Rattle.std.specs.Prelude.{◌≡◌, ◌<◌, ◌+◌, ◌*◌, ◌-◌, ◌%◌, [], ◌∷◌, ◌++◌, length, IfOk, OnOk};
ghost use Rattle.vs_lexer.specs.Texts.{escape_byte, resolved, no_escape, a_backslash, text_value};
ghost use Rattle.vs_lexer.specs.Reading.{Resolves};

use crate::runs::first_and_rest;
use crate::texts::is_octal;
use std::alloc::{AllocError, Global};

/// What one item of a text stands for, and the bytes after it; or the text is over.
#[derive(Clone, Copy)]
pub(crate) enum Escape<'s> {
    Byte(u8, &'s [u8]),
    Over,
}

/// The byte that an escape without octal digits stands for.
fn escape_byte(byte: u8) -> u8
    ensures { result ≡ escape_byte byte }
{
    match byte {
        b'n' => b'\n',
        b't' => b'\t',
        _ => byte,
    }
}

/// The item behind a backslash.
fn next_escape(after: &[u8]) -> Escape<'_>
    ensures { Resolves (resolved a_backslash after.now) (length after.now + 1) result }
{
    let Some((first, rest)) = first_and_rest(after) else {
        return Escape::Over;
    };
    if !is_octal(first) {
        return Escape::Byte(escape_byte(first), rest);
    }
    let number = first - b'0';
    let Some((second, after)) = first_and_rest(rest) else {
        return Escape::Byte(number, rest);
    };
    if !is_octal(second) {
        return Escape::Byte(number, rest);
    }
    let number = number * 8 + (second - b'0');
    let Some((third, rest)) = first_and_rest(after) else {
        return Escape::Byte(number, after);
    };
    if !is_octal(third) {
        return Escape::Byte(number, after);
    }
    let number = (u32::from(number) * 8 + u32::from(third - b'0')) % 256;
    Escape::Byte(number as u8, rest)
}

/// The next item of a text.
fn next_item(bytes: &[u8]) -> Escape<'_>
    ensures { Resolves (resolved no_escape bytes.now) (length bytes.now) result }
{
    let Some((first, after)) = first_and_rest(bytes) else {
        return Escape::Over;
    };
    if first == b'"' {
        return Escape::Over;
    }
    if first == b'\\' {
        return next_escape(after);
    }
    Escape::Byte(first, after)
}

/// The bytes that a text stands for, its escapes resolved: of a text token's bytes.
pub(crate) fn resolve(alloc: Global, text: &[u8]) -> Result<Vec<u8>, AllocError>
    ensures { IfOk result (λ v. v.items ≡ text_value text.now) }
{
    let mut bytes = Vec::new(alloc);
    let Some((_, body)) = first_and_rest(text) else {
        return Ok(bytes);
    };
    let mut rest = body;
    while let Escape::Byte(byte, after) = next_item(rest) {
        bytes.push(byte)?;
        rest = after;
    }
    Ok(bytes)
}
