//! Names and white space between the parts of a directive or a use.
ghost use Rattle.std.specs.Prelude.{◌≡◌, ◌==◌, ◌≤◌, ◌<◌, ◌++◌, ◌∷◌, [], None, Some, IfOk, IfSome, MatchOption, length, reverse, take};
ghost use Rattle.vs_lexer.specs.Bytes.{after_run, begins};
ghost use Rattle.vs_prep_macros.specs.Classes.{in_class};
ghost use Rattle.vs_prep_macros.specs.Parts.{seen, bytes_from};
ghost use Rattle.vs_prep_macros.specs.Answers.{Answers};
ghost use Rattle.vs_prep_macros.specs.Spaces.{has_line_feed, is_blank, is_space, skip_blank, skip_space, after_feed, after_line_end, after_joint, joins_by, skip_joined, trimmed};
ghost use Rattle.vs_prep_macros.specs.Names.{name_at, split_name, wanted_name};

use crate::fault::{Fault, Halt};
use crate::{Class, Form, NAME_LIMIT, Piece, first_and_rest, first_piece, skip_run};

/// The name at the front, if there is one, and what stands behind it.
#[tactic(auto, unfolding(crate::specs::Names::name_at))]
pub fn name_at(bytes: &[u8]) -> Option<(&[u8], &[u8])>
    ensures read { MatchOption result (name_at bytes.now ≡ None) (λ x. name_at bytes.now ≡ Some (x.0.now, x.1.now)) }
    ensures moves { IfSome result (λ x. length x.1.now < length bytes.now) }
{
    match first_piece(bytes) {
        Some(piece) => match piece.form {
            Form::Name => Some((piece.text, piece.rest)),
            _ => None,
        },
        None => None,
    }
}

/// The name at the front, or nothing, and what stands behind it.
pub fn split_name(bytes: &[u8]) -> (&[u8], &[u8])
    ensures split { (result.0.now, result.1.now) ≡ split_name bytes.now }
    ensures no_longer { length result.1.now ≤ length bytes.now }
{
    match name_at(bytes) {
        Some(found) => found,
        None => (&[], bytes),
    }
}

/// Whether bytes hold a line feed.
pub(crate) fn has_line_feed(text: &[u8]) -> bool
    ensures { result ≡ has_line_feed text.now }
{
    !skip_run(text, Class::Line).is_empty()
}

/// Whether a piece is white space, or a comment that ends on its line.
fn is_blank(piece: Piece<'_>) -> bool
    ensures { result ≡ is_blank (seen piece.entry) }
{
    match piece.form {
        Form::Blank => true,
        Form::BlockComment => !has_line_feed(piece.text),
        _ => false,
    }
}

/// Whether a piece is white space, a line feed, or a comment.
fn is_space(piece: Piece<'_>) -> bool
    ensures { result ≡ is_space (seen piece.entry) }
{
    match piece.form {
        Form::Blank | Form::LineFeed | Form::LineComment | Form::BlockComment => true,
        _ => false,
    }
}

/// What stands behind white space and comments that end on their line.
#[tactic(auto, unfolding(crate::specs::Spaces::skip_blank))]
pub fn skip_blank(bytes: &[u8]) -> &[u8]
    ensures behind { result.now ≡ skip_blank bytes.now }
    ensures no_longer { length result.now ≤ length bytes.now }
{
    let mut rest = bytes;
    while let Some(piece) = first_piece(rest) {
        if !is_blank(piece) {
            return rest;
        }
        rest = piece.rest;
    }
    rest
}

/// What stands behind white space, comments and line feeds.
#[tactic(auto, unfolding(crate::specs::Spaces::skip_space))]
pub fn skip_space(bytes: &[u8]) -> &[u8]
    ensures behind { result.now ≡ skip_space bytes.now }
    ensures no_longer { length result.now ≤ length bytes.now }
{
    let mut rest = bytes;
    while let Some(piece) = first_piece(rest) {
        if !is_space(piece) {
            return rest;
        }
        rest = piece.rest;
    }
    rest
}

/// What stands behind a line feed, if one comes next.
fn after_feed(bytes: &[u8]) -> Option<&[u8]>
    ensures behind { MatchOption result (after_feed bytes.now ≡ None) (λ rest. after_feed bytes.now ≡ Some rest.now) }
    ensures moves { IfSome result (λ rest. length rest.now < length bytes.now) }
{
    match first_and_rest(bytes) {
        Some((b'\n', rest)) => Some(rest),
        _ => None,
    }
}

/// What stands behind the end of a line, if it comes next.
fn after_line_end(bytes: &[u8]) -> Option<&[u8]>
    ensures behind { MatchOption result (after_line_end bytes.now ≡ None) (λ rest. after_line_end bytes.now ≡ Some rest.now) }
    ensures moves { IfSome result (λ rest. length rest.now < length bytes.now) }
{
    match first_and_rest(bytes) {
        Some((b'\n', rest)) => Some(rest),
        Some((b'\r', rest)) => after_feed(rest),
        _ => None,
    }
}

/// What stands behind a backslash at the end of a line, if one comes next.
pub(crate) fn after_joint(bytes: &[u8]) -> Option<&[u8]>
    ensures behind { MatchOption result (after_joint bytes.now ≡ None) (λ rest. after_joint bytes.now ≡ Some rest.now) }
    ensures moves { IfSome result (λ rest. length rest.now < length bytes.now) }
{
    match first_and_rest(bytes) {
        Some((b'\\', rest)) => after_line_end(rest),
        _ => None,
    }
}

/// Whether a line end is being joined behind a piece that stands before these bytes, among white space, comments and joined line ends;
/// none, where it is none of these.
fn joins_after(piece: Piece<'_>, bytes: &[u8], joins: bool) -> Option<bool>
    requires { bytes.now ≡ bytes_from (seen piece) }
    ensures { result ≡ joins_by piece.entry.form joins (seen piece.entry) }
{
    match piece.form {
        Form::Blank => Some(joins),
        Form::BlockComment => {
            if has_line_feed(piece.text) {
                return None;
            }
            Some(joins)
        }
        Form::LineFeed => {
            if joins {
                return Some(false);
            }
            None
        }
        Form::Escaped => match after_joint(bytes) {
            Some(_) => Some(true),
            None => None,
        },
        _ => None,
    }
}

/// What stands behind white space, comments that end on their line, and joined line ends.
#[tactic(auto, unfolding(crate::specs::Spaces::skip_joined))]
pub(crate) fn skip_joined(bytes: &[u8]) -> &[u8]
    ensures behind { result.now ≡ skip_joined bytes.now }
    ensures no_longer { length result.now ≤ length bytes.now }
{
    let mut rest = bytes;
    let mut joins = false;
    while let Some(piece) = first_piece(rest) {
        match joins_after(piece, rest, joins) {
            Some(next) => joins = next,
            None => return rest,
        }
        rest = piece.rest;
    }
    rest
}

/// The name that a directive wants on its line, and what stands behind it.
#[tactic(auto, unfolding(crate::specs::Names::wanted_name))]
pub fn wanted_name(bytes: &[u8]) -> Result<(&[u8], &[u8]), Halt>
    ensures read { Answers (λ r. wanted_name bytes.now ≡ r) (λ x. (x.0.now, x.1.now)) result }
    ensures no_longer { IfOk result (λ x. length x.1.now ≤ length bytes.now) }
{
    let at = skip_blank(bytes);
    match name_at(at) {
        Some((name, rest)) => {
            if name.len() > NAME_LIMIT {
                return Err(Halt::At(Fault::LongName, at.len()));
            }
            Ok((name, rest))
        }
        None => Err(Halt::Here(Fault::NoName)),
    }
}

/// The last byte, and those before it.
fn last_and_before(bytes: &[u8]) -> Option<(u8, &[u8])>
    ensures { MatchOption result (bytes.now ≡ []) (λ x. bytes.now ≡ x.1.now ++ x.0 ∷ []) }
{
    match bytes {
        [before @ .., last] => Some((*last, before)),
        [] => None,
    }
}

/// The bytes before those of the class at the end.
pub(crate) fn before_run(bytes: &[u8], class: Class) -> &[u8]
    ensures before { reverse result.now ≡ after_run (in_class class) (reverse bytes.now) }
    ensures front { result.now ≡ take (length result.now) bytes.now }
    ensures no_longer { length result.now ≤ length bytes.now }
{
    let mut rest = bytes;
    while let Some((last, before)) = last_and_before(rest) {
        if !class.has(last) {
            return rest;
        }
        rest = before;
    }
    rest
}

/// The bytes without the white space at both ends.
pub fn trimmed(bytes: &[u8]) -> &[u8]
    ensures bytes { result.now ≡ trimmed bytes.now }
    ensures no_longer { length result.now ≤ length bytes.now }
{
    before_run(skip_run(bytes, Class::White), Class::White)
}

/// Whether the last byte is a backslash.
pub(crate) fn ends_in_backslash(bytes: &[u8]) -> bool
    ensures { result ≡ begins (λ b. b == 92) (reverse bytes.now) }
{
    match last_and_before(bytes) {
        Some((last, _)) => last == b'\\',
        None => false,
    }
}
