//! The actual arguments of a macro's use (IEEE 1364-2005, clause 19.3.1).
ghost use Rattle.std.specs.Prelude.{◌≡◌, ◌≤◌, ◌<◌, ◌-◌, IfOk, length, map, take};
ghost use Rattle.vs_prep_macros.specs.Parts.{seen};
ghost use Rattle.vs_prep_macros.specs.Actuals.{nameless, used, closed, byte_move, first_move, move_by, actuals_in, actuals_of};
ghost use Rattle.vs_prep_macros.specs.Answers.{Answers};
ghost use Rattle.vs_prep_macros.specs.Names.{name_at};

use crate::directive::Directive;
use crate::fault::{Fault, Halt};
use crate::scan::{name_at, skip_space};
use crate::{Form, Piece, first_and_rest, first_piece};
use std::alloc::Global;

/// What a piece does to the actuals around it.
#[derive(Clone, Copy)]
enum Move {
    /// It closes them.
    Closes,
    /// It splits them.
    Splits,
    /// What follows stands in so many parentheses, brackets and braces.
    Stays(usize),
}

/// What a backquote is that no name follows, but these bytes.
pub(crate) fn nameless(after: &[u8]) -> Fault
    ensures { result ≡ nameless after.now }
{
    match first_and_rest(after) {
        Some((b'`' | b'"' | b'\\', _)) => Fault::Pasting,
        _ => Fault::LoneBackquote,
    }
}

/// What a backquote does among actuals, which these bytes follow and from which on so many are left.
fn used(after: &[u8], left: usize, depth: usize) -> Result<Move, Halt>
    ensures { result ≡ used depth left after.now (name_at after.now) }
{
    match name_at(after) {
        Some((name, _)) => {
            if Directive::of(name).is_some() {
                return Err(Halt::At(Fault::DirectiveInActuals, left));
            }
            Ok(Move::Stays(depth))
        }
        None => Err(Halt::At(nameless(after), left)),
    }
}

/// What a closing parenthesis, bracket or brace does, and the outermost one.
fn closed(depth: usize, outermost: Result<Move, Halt>) -> Result<Move, Halt>
    ensures { result ≡ closed depth outermost }
{
    if depth == 0 {
        return outermost;
    }
    Ok(Move::Stays(depth - 1))
}

/// What a byte does that is a piece.
fn byte_move(byte: u8, depth: usize) -> Result<Move, Halt>
    requires { depth < usize.MAX }
    ensures { result ≡ byte_move depth byte }
{
    if byte == b'(' || byte == b'[' || byte == b'{' {
        return Ok(Move::Stays(depth + 1));
    }
    if byte == b')' {
        return closed(depth, Ok(Move::Closes));
    }
    if byte == b']' || byte == b'}' {
        return closed(depth, Err(Halt::Here(Fault::OpenActuals)));
    }
    if byte == b',' && depth == 0 {
        return Ok(Move::Splits);
    }
    Ok(Move::Stays(depth))
}

/// What a piece does that is neither a comment nor a text nor a word.
fn first_move(text: &[u8], depth: usize) -> Result<Move, Halt>
    requires { depth < usize.MAX }
    ensures { result ≡ first_move depth text.now }
{
    match first_and_rest(text) {
        Some((byte, _)) => byte_move(byte, depth),
        None => Ok(Move::Stays(depth)),
    }
}

/// What a piece does, from which on so many bytes are left.
fn move_of(piece: Piece<'_>, left: usize, depth: usize) -> Result<Move, Halt>
    requires { depth < usize.MAX }
    ensures { result ≡ move_by piece.entry.form depth left (seen piece.entry) }
{
    match piece.form {
        Form::Other => first_move(piece.text, depth),
        Form::OpenComment => Err(Halt::Here(Fault::OpenActuals)),
        Form::CutText => Err(Halt::At(Fault::CutText, left)),
        Form::Backquote => used(piece.rest, left, depth),
        _ => Ok(Move::Stays(depth)),
    }
}

/// The bytes before those that are left.
fn front<'s>(bytes: &'s [u8], rest: &[u8]) -> &'s [u8]
    requires { length rest.now ≤ length bytes.now }
    ensures { result.now ≡ take (length bytes.now - length rest.now) bytes.now }
{
    &bytes[..bytes.len() - rest.len()]
}

/// Reads the actuals of a use, from the bytes behind the parenthesis that opens them, and answers what stands behind them.
fn read_inside(alloc: Global, inside: &[u8]) -> Result<(Vec<&[u8]>, &[u8]), Halt>
    ensures read { Answers (λ r. actuals_in inside.now ≡ r) (λ x. (map (λ a. a.now) x.0.items, x.1.now)) result }
    ensures no_longer { IfOk result (λ x. length x.1.now ≤ length inside.now) }
{
    let mut actuals = Vec::new(alloc);
    let mut depth: usize = 0;
    let mut from = inside;
    let mut rest = inside;
    while let Some(piece) = first_piece(rest) {
        match move_of(piece, rest.len(), depth)? {
            Move::Closes => {
                actuals.push(front(from, rest))?;
                return Ok((actuals, piece.rest));
            }
            Move::Splits => {
                actuals.push(front(from, rest))?;
                from = piece.rest;
                depth = 0;
            }
            Move::Stays(next) => depth = next,
        }
        rest = piece.rest;
    }
    Err(Halt::Here(Fault::OpenActuals))
}

/// Reads the actuals of a use, from the bytes behind its name, and answers what stands behind them. They are split at commas outside
/// parentheses, brackets and braces.
pub fn read_actuals(alloc: Global, bytes: &[u8]) -> Result<(Vec<&[u8]>, &[u8]), Halt>
    ensures read { Answers (λ r. actuals_of bytes.now ≡ r) (λ x. (map (λ a. a.now) x.0.items, x.1.now)) result }
    ensures no_longer { IfOk result (λ x. length x.1.now ≤ length bytes.now) }
{
    match first_and_rest(skip_space(bytes)) {
        Some((b'(', inside)) => read_inside(alloc, inside),
        _ => Err(Halt::Here(Fault::NoActuals)),
    }
}
