//! The texts of macros, as definitions give them (IEEE 1364-2005, clause 19.3.1).
ghost use Rattle.std.specs.Prelude.{◌≡◌, ◌≤◌, ◌<◌, ◌++◌, ◌∷◌, IfOk, IfSome, OnOk, length};
ghost use Rattle.vs_prep_macros.specs.Parts.{seen, bytes_from};
ghost use Rattle.vs_prep_macros.specs.Answers.{Answers};
ghost use Rattle.vs_prep_macros.specs.Bodies.{after_use, front_used, goes_on, spaced, refused_if, refused_form, put_part, put_form, put_next, PutsSo, Puts, IsBody};
ghost use Rattle.vs_prep_macros.specs.Spaces.{without_end};

use crate::fault::{Fault, Halt};
use crate::scan::{after_joint, before_run, ends_in_backslash, has_line_feed, split_name};
use crate::{Class, Form, Piece, first_and_rest, first_piece};
use std::alloc::{AllocError, Global};

/// Puts white space behind the text of a macro, but none at its front.
fn put_space(body: &mut Vec<u8>, space: &[u8]) -> Result<(), AllocError>
    ensures { OnOk result (body.new.items ≡ spaced body.old.items space.now) }
{
    if body.is_empty() {
        return Ok(());
    }
    body.extend_from_slice(space)
}

/// Whether a line comment ends in a backslash, and another line follows.
fn goes_on(comment: &[u8], rest: &[u8]) -> bool
    ensures { result ≡ goes_on comment.now rest.now }
{
    !rest.is_empty() && ends_in_backslash(before_run(comment, Class::Return))
}

/// What stands behind a name, or behind a mark that makes a backquote one of a newer language, from the bytes after a backquote.
fn after_use(after: &[u8]) -> &[u8]
    ensures behind { result.now ≡ after_use after.now }
    ensures no_longer { length result.now ≤ length after.now }
{
    match first_and_rest(after) {
        Some((b'`' | b'"' | b'\\', rest)) => rest,
        Some(_) => split_name(after).1,
        None => after,
    }
}

/// Puts what a backquote begins behind the text of a macro, from the bytes after it, and answers what stands behind it.
/// Nothing is judged here.
fn put_use<'s>(body: &mut Vec<u8>, after: &'s [u8]) -> Result<&'s [u8], AllocError>
    ensures put { OnOk result (body.new.items ≡ body.old.items ++ 96 ∷ front_used after.now) }
    ensures behind { IfOk result (λ rest. rest.now ≡ after_use after.now) }
    ensures no_longer { IfOk result (λ rest. length rest.now ≤ length after.now) }
{
    body.extend_from_slice(b"`")?;
    let rest = after_use(after);
    body.extend_from_slice(&after[..after.len() - rest.len()])?;
    Ok(rest)
}

/// Why a piece may not stand in the text of a macro.
fn refusal_of(piece: Piece<'_>) -> Option<Fault>
    ensures { result ≡ refused_form piece.entry.form (seen piece.entry) }
{
    match piece.form {
        Form::OpenComment => Some(Fault::OpenComment),
        Form::CutText => Some(Fault::CutText),
        Form::LineComment => refused_if(goes_on(piece.text, piece.rest), Fault::CommentContinued),
        Form::BlockComment => refused_if(has_line_feed(piece.text), Fault::CommentOverLines),
        Form::Escaped => refused_if(piece.text.len() == 1, Fault::LoneBackslash),
        _ => None,
    }
}

/// A fault, if there is one.
fn refused_if(refused: bool, fault: Fault) -> Option<Fault>
    ensures { result ≡ refused_if refused fault }
{
    if refused {
        return Some(fault);
    }
    None
}

/// Puts a piece that may stand there behind the text of a macro, and answers what stands behind it; none, where the text ends.
fn put_form<'s>(body: &mut Vec<u8>, piece: Piece<'s>) -> Result<Option<&'s [u8]>, AllocError>
    ensures put { let part = seen piece.entry in
        IfOk result (λ x. PutsSo (put_form piece.entry.form body.old.items part) (bytes_from part) body.new.items x) }
    ensures no_longer { IfOk result (λ x. IfSome x (λ rest. length rest.now ≤ length piece.entry.rest.now)) }
{
    match piece.form {
        Form::LineFeed => Ok(None),
        Form::LineComment => Ok(Some(piece.rest)),
        Form::BlockComment => {
            put_space(body, b" ")?;
            Ok(Some(piece.rest))
        }
        Form::Blank => {
            put_space(body, piece.text)?;
            Ok(Some(piece.rest))
        }
        Form::Backquote => Ok(Some(put_use(body, piece.rest)?)),
        _ => {
            body.extend_from_slice(piece.text)?;
            Ok(Some(piece.rest))
        }
    }
}

/// Puts a piece behind the text of a macro, from which on so many bytes are left, and answers what stands behind it; none, where the text
/// ends.
fn put_piece<'s>(
    body: &mut Vec<u8>,
    piece: Piece<'s>,
    left: usize,
) -> Result<Option<&'s [u8]>, Halt>
    requires { left ≡ length (bytes_from (seen piece)) }
    ensures put { let part = seen piece.entry in Puts (put_part body.old.items part) (bytes_from part) body.new.items result }
    ensures no_longer { IfOk result (λ x. IfSome x (λ rest. length rest.now ≤ length piece.entry.rest.now)) }
{
    match refusal_of(piece) {
        Some(fault) => Err(Halt::At(fault, left)),
        None => Ok(put_form(body, piece)?),
    }
}

/// Puts what comes next behind the text of a macro, and answers what stands behind it; none, where the text ends.
#[tactic(auto, unfolding(crate::specs::Bodies::put_next))]
fn put_next<'s>(body: &mut Vec<u8>, bytes: &'s [u8]) -> Result<Option<&'s [u8]>, Halt>
    ensures put { Puts (put_next body.old.items bytes.now) bytes.now body.new.items result }
    ensures moves { IfOk result (λ x. IfSome x (λ rest. length rest.now < length bytes.now)) }
{
    match after_joint(bytes) {
        Some(rest) => {
            put_space(body, b"\n")?;
            Ok(Some(rest))
        }
        None => match first_piece(bytes) {
            Some(piece) => put_piece(body, piece, bytes.len()),
            None => Ok(None),
        },
    }
}

/// Drops the white space at the end.
fn drop_space(body: &mut Vec<u8>)
    ensures { body.new.items ≡ without_end body.old.items }
{
    let size = before_run(body.as_slice(), Class::White).len();
    body.truncate(size);
}

/// Reads the text of a macro up to the end of its line, and answers what stands behind it.
pub(crate) fn read_body(alloc: Global, bytes: &[u8]) -> Result<(Vec<u8>, &[u8]), Halt>
    ensures read { Answers (IsBody bytes.now) (λ x. (x.0.items, x.1.now)) result }
    ensures no_longer { IfOk result (λ x. length x.1.now ≤ length bytes.now) }
{
    let mut body = Vec::new(alloc);
    let mut rest = bytes;
    while let Some(after) = put_next(&mut body, rest)? {
        rest = after;
    }
    drop_space(&mut body);
    Ok((body, rest))
}
