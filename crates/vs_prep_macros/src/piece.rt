//! Cutting a text into pieces.
ghost use Rattle.std.specs.Prelude.{◌≡◌, ◌<◌, ◌≤◌, ◌-◌, ◌∷◌, [], length, take, IfSome, MatchOption};
ghost use Rattle.vs_prep_macros.specs.Parts.{parts_of, bytes_from, seen};
ghost use Rattle.vs_prep_macros.specs.Pieces.{cut_of, cut_by, slash_cut, quote_cut, apostrophe_cut, skip_sign};

use crate::classes::{Class, starts_name};
use crate::runs::{after_string, skip_past_pair, skip_run};

/// What a piece of a text is.
#[derive(Clone, Copy, PartialEq, Eq, Debug)]
pub enum Form {
    LineFeed,
    /// White space without a line feed.
    Blank,
    /// A comment to the line's end.
    LineComment,
    /// A comment between `/*` and `*/`.
    BlockComment,
    /// A comment that isn't closed.
    OpenComment,
    /// A text between quotes.
    Text,
    /// A text that its line cuts.
    CutText,
    /// A backslash, and the printable bytes behind it.
    Escaped,
    /// A name.
    Name,
    /// Digits with the letters that are glued to them, or a base with its digits.
    Digits,
    /// A backquote.
    Backquote,
    /// Any other byte.
    Other,
}

/// A piece at the front of bytes, and what stands behind it.
#[derive(Clone, Copy)]
pub struct Piece<'s> {
    pub form: Form,
    pub text: &'s [u8],
    pub rest: &'s [u8],
}

/// The first byte, and those after it.
pub fn first_and_rest(bytes: &[u8]) -> Option<(u8, &[u8])>
    ensures { MatchOption result (bytes.now ≡ []) (λ x. bytes.now ≡ x.0 ∷ x.1.now) }
{
    vs_lexer::first_and_rest(bytes)
}

/// What a slash begins, from the bytes after it: a comment, or a byte.
fn cut_slash(after: &[u8]) -> (Form, &[u8])
    ensures form { (result.0, result.1.now) ≡ slash_cut after.now }
    ensures no_longer { length result.1.now ≤ length after.now }
{
    match first_and_rest(after) {
        Some((b'/', line)) => (Form::LineComment, skip_run(line, Class::Line)),
        Some((b'*', body)) => match skip_past_pair(body, b'*', b'/') {
            Some(rest) => (Form::BlockComment, rest),
            None => (Form::OpenComment, &[]),
        },
        _ => (Form::Other, after),
    }
}

/// What a quote begins, from the bytes after it: a text.
fn cut_quote(after: &[u8]) -> (Form, &[u8])
    ensures form { (result.0, result.1.now) ≡ quote_cut after.now }
    ensures no_longer { length result.1.now ≤ length after.now }
{
    match after_string(after) {
        Some(rest) => (Form::Text, rest),
        None => (Form::CutText, skip_run(after, Class::Line)),
    }
}

/// The bytes behind a letter that says that a number is signed.
fn skip_sign(after: &[u8]) -> &[u8]
    ensures behind { result.now ≡ skip_sign after.now }
    ensures no_longer { length result.now ≤ length after.now }
{
    match first_and_rest(after) {
        Some((b's' | b'S', rest)) => rest,
        _ => after,
    }
}

/// What an apostrophe begins, from the bytes after it: a base with its digits, or a byte.
fn cut_apostrophe(after: &[u8]) -> (Form, &[u8])
    ensures form { (result.0, result.1.now) ≡ apostrophe_cut after.now }
    ensures no_longer { length result.1.now ≤ length after.now }
{
    match first_and_rest(skip_sign(after)) {
        Some((b'b' | b'B' | b'o' | b'O' | b'd' | b'D' | b'h' | b'H', digits)) => {
            (Form::Digits, skip_run(digits, Class::Digits))
        }
        _ => (Form::Other, after),
    }
}

/// What the first byte begins, and what stands behind it.
#[tactic(auto, unfolding(crate::specs::Pieces::cut_by))]
fn cut_by(first: u8, after: &[u8]) -> (Form, &[u8])
    ensures form { (result.0, result.1.now) ≡ cut_by first after.now }
    ensures no_longer { length result.1.now ≤ length after.now }
{
    if first == b'\n' {
        return (Form::LineFeed, after);
    }
    if first == b'/' {
        return cut_slash(after);
    }
    if first == b'"' {
        return cut_quote(after);
    }
    if first == b'\\' {
        return (Form::Escaped, skip_run(after, Class::Escaped));
    }
    if first == b'\'' {
        return cut_apostrophe(after);
    }
    if first == b'`' {
        return (Form::Backquote, after);
    }
    if first.is_ascii_digit() {
        return (Form::Digits, skip_run(after, Class::Name));
    }
    if starts_name(first) {
        return (Form::Name, skip_run(after, Class::Name));
    }
    if Class::Blank.has(first) {
        return (Form::Blank, skip_run(after, Class::Blank));
    }
    (Form::Other, after)
}

/// Cuts the piece off with which the bytes begin. Linear in its length, but for a text that its line
/// cuts and a comment that isn't closed.
pub fn cut(bytes: &[u8]) -> Piece<'_>
    requires { 0 < length bytes.now }
    ensures form { (result.form, result.rest.now) ≡ cut_of bytes.now }
    ensures text { result.text.now ≡ take (length bytes.now - length result.rest.now) bytes.now }
    ensures moves { length result.rest.now < length bytes.now }
{
    let Some((first, after)) = first_and_rest(bytes) else {
        unreachable!()
    };
    let (form, rest) = cut_by(first, after);
    Piece {
        form,
        text: &bytes[..bytes.len() - rest.len()],
        rest,
    }
}

/// Cuts the first piece off, if there are bytes.
pub fn first_piece(bytes: &[u8]) -> Option<Piece<'_>>
    ensures parts { MatchOption result (parts_of bytes.now ≡ []) (λ p. parts_of bytes.now ≡ seen p ∷ parts_of p.rest.now) }
    ensures whole { IfSome result (λ p. bytes.now ≡ bytes_from (seen p)) }
    ensures moves { IfSome result (λ p. length p.rest.now < length bytes.now) }
{
    if bytes.is_empty() {
        return None;
    }
    Some(cut(bytes))
}
