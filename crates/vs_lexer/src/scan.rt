//! Reading one piece of a source.
ghost use Rattle.std.specs.Prelude.{◌≡◌, ◌<◌, ◌∷◌, length};
ghost use Rattle.vs_lexer.specs.Pieces.{form_of, piece_of};
ghost use Rattle.vs_lexer.specs.Reading.{Reads};

use crate::comments::{read_parenthesis, read_slash};
use crate::directives::read_directive;
use crate::marks::read_mark;
use crate::names::{read_escaped, read_name, read_system, read_white};
use crate::{
    Lexed, first_and_rest, is_white, read_apostrophe, read_number, read_text, starts_name,
};

/// Reads the piece that this first byte begins, with these bytes after it.
fn read_form<'s>(first: u8, after: &'s [u8], bytes: &'s [u8]) -> Lexed<'s>
    requires { bytes.now ≡ first ∷ after.now }
    ensures { Reads (form_of first) bytes.now result }
{
    if is_white(first) {
        return read_white(bytes);
    }
    if starts_name(first) {
        return read_name(bytes);
    }
    if first.is_ascii_digit() {
        return read_number(bytes);
    }
    if first == b'"' {
        return read_text(first, after);
    }
    if first == b'$' {
        return read_system(bytes);
    }
    if first == b'\'' {
        return read_apostrophe(first, after);
    }
    if first == b'(' {
        return read_parenthesis(first, after);
    }
    if first == b'/' {
        return read_slash(first, after);
    }
    if first == b'\\' {
        return read_escaped(bytes);
    }
    if first == b'`' {
        return read_directive(first, after);
    }
    read_mark(first, after, bytes)
}

/// Reads the piece with which the bytes begin.
pub(crate) fn read_piece(bytes: &[u8]) -> Lexed<'_>
    requires { 0 < length bytes.now }
    ensures { Reads piece_of bytes.now result }
{
    let Some((first, after)) = first_and_rest(bytes) else {
        unreachable!()
    };
    read_form(first, after, bytes)
}
