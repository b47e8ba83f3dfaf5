//! Directives (IEEE 1364-2005, clause 19).
ghost use Rattle.std.specs.Prelude.{◌≡◌, ◌∷◌, MatchOption, None, Some, nat_lt};
ghost use Rattle.vs_lexer.specs.Directives.{after_prefix, skip_white, done, text, next_is, next_is_white, number_at, unit_at, time_at, timescale_at, nettype_at, directive_at};
ghost use Rattle.vs_lexer.specs.Pieces.{directive_form};
ghost use Rattle.vs_lexer.specs.Reading.{Reads};
ghost use Rattle.vs_lexer.specs.Times.{exponent};
ghost use Rattle.vs_lexer.specs.Taking.{Gives};

use crate::{
    ByteClass, Directive, ImplicitNet, Kind, Lexed, Piece, Refusal, TextMagnitude, TextUnit, Time,
    first_and_rest, is_white, split_run,
};

/// The bytes behind a text, if they begin with it.
#[tactic(auto, unfolding(crate::specs::Directives::after_prefix))]
fn after_prefix<'s>(text: &[u8], bytes: &'s [u8]) -> Option<&'s [u8]>
    ensures { MatchOption result (after_prefix text.now bytes.now ≡ None) (λ rest. after_prefix text.now bytes.now ≡ Some rest.now) }
{
    let Some((wanted, more)) = first_and_rest(text) else {
        return Some(bytes);
    };
    let Some((found, after)) = first_and_rest(bytes) else {
        return None;
    };
    if found != wanted {
        return None;
    }
    after_prefix(more, after)
}

/// The bytes behind white space.
fn skip_white(bytes: &[u8]) -> &[u8]
    ensures { result.now ≡ skip_white bytes.now }
{
    let (_, rest) = split_run(bytes, ByteClass::White);
    rest
}

/// Whether the next byte is this one.
#[tactic(auto, unfolding(crate::specs::Directives::next_is))]
fn next_is(bytes: &[u8], wanted: u8) -> bool
    ensures { result ≡ next_is wanted bytes.now }
{
    match first_and_rest(bytes) {
        Some((first, _)) => first == wanted,
        None => false,
    }
}

/// Whether white space comes next.
#[tactic(auto, unfolding(crate::specs::Directives::next_is_white))]
fn next_is_white(bytes: &[u8]) -> bool
    ensures { result ≡ next_is_white bytes.now }
{
    match first_and_rest(bytes) {
        Some((first, _)) => is_white(first),
        None => false,
    }
}

/// Reads a text that has this meaning.
fn spelled<'s, T: Copy>(spelling: &[u8], meaning: T, bytes: &'s [u8]) -> Option<(T, &'s [u8])>
    ensures { Gives (text spelling.now (done meaning)) bytes.now result }
{
    let rest = after_prefix(spelling, bytes)?;
    Some((meaning, rest))
}

/// Reads the number of a time.
#[tactic(auto, unfolding(crate::specs::Directives::number_at))]
fn number_at(bytes: &[u8]) -> Option<(TextMagnitude, &[u8])>
    ensures { Gives number_at bytes.now result }
{
    let one = after_prefix(b"1", bytes)?;
    if !next_is(one, b'0') {
        return Some((TextMagnitude::One, one));
    }
    let ten = after_prefix(b"0", one)?;
    if !next_is(ten, b'0') {
        return Some((TextMagnitude::Ten, ten));
    }
    spelled(b"0", TextMagnitude::Hundred, ten)
}

/// Reads the unit of a time.
#[tactic(auto, unfolding(crate::specs::Directives::unit_at))]
fn unit_at(bytes: &[u8]) -> Option<(TextUnit, &[u8])>
    ensures { Gives unit_at bytes.now result }
{
    if next_is(bytes, b's') {
        return spelled(b"s", TextUnit::Seconds, bytes);
    }
    if next_is(bytes, b'm') {
        return spelled(b"ms", TextUnit::Milliseconds, bytes);
    }
    if next_is(bytes, b'u') {
        return spelled(b"us", TextUnit::Microseconds, bytes);
    }
    if next_is(bytes, b'n') {
        return spelled(b"ns", TextUnit::Nanoseconds, bytes);
    }
    if next_is(bytes, b'p') {
        return spelled(b"ps", TextUnit::Picoseconds, bytes);
    }
    spelled(b"fs", TextUnit::Femtoseconds, bytes)
}

/// Reads a number and a unit.
#[tactic(auto, unfolding(crate::specs::Directives::time_at))]
fn time_at(bytes: &[u8]) -> Option<(Time, &[u8])>
    ensures { Gives time_at bytes.now result }
{
    let (number, after) = number_at(bytes)?;
    let (unit, rest) = unit_at(skip_white(after))?;
    Some((Time { number, unit }, rest))
}

/// Whether a precision is coarser than its unit.
fn is_coarser(precision: Time, unit: Time) -> bool
    ensures { result ≡ nat_lt (exponent unit) (exponent precision) }
{
    unit.exponent() < precision.exponent()
}

/// Reads a timescale, behind its backquote.
#[tactic(auto, unfolding(crate::specs::Directives::timescale_at))]
fn timescale_at(bytes: &[u8]) -> Option<(Directive, &[u8])>
    ensures { Gives timescale_at bytes.now result }
{
    let after = after_prefix(b"timescale", bytes)?;
    if !next_is_white(after) {
        return None;
    }
    let (unit, after) = time_at(skip_white(after))?;
    let after = after_prefix(b"/", skip_white(after))?;
    let (precision, rest) = time_at(skip_white(after))?;
    if is_coarser(precision, unit) {
        return None;
    }
    Some((Directive::Timescale { unit, precision }, rest))
}

/// Reads what is said of undeclared names, behind its backquote.
#[tactic(auto, unfolding(crate::specs::Directives::nettype_at))]
fn nettype_at(bytes: &[u8]) -> Option<(Directive, &[u8])>
    ensures { Gives nettype_at bytes.now result }
{
    let after = after_prefix(b"default_nettype", bytes)?;
    if !next_is_white(after) {
        return None;
    }
    let after = skip_white(after);
    if next_is(after, b'w') {
        return spelled(b"wire", Directive::DefaultNettype(ImplicitNet::Wire), after);
    }
    spelled(
        b"none",
        Directive::DefaultNettype(ImplicitNet::Forbidden),
        after,
    )
}

/// Reads a directive behind its backquote.
#[tactic(auto, unfolding(crate::specs::Directives::directive_at))]
fn directive_at(bytes: &[u8]) -> Option<(Directive, &[u8])>
    ensures { Gives directive_at bytes.now result }
{
    if next_is(bytes, b't') {
        return timescale_at(bytes);
    }
    nettype_at(bytes)
}

/// Reads a directive, from the bytes after its backquote.
pub(crate) fn read_directive(backquote: u8, after: &[u8]) -> Lexed<'_>
    ensures { Reads directive_form (backquote ∷ after.now) result }
{
    let Some((directive, rest)) = directive_at(after) else {
        return Lexed {
            piece: Piece::Refused(Refusal::BadDirective),
            rest: after,
        };
    };
    Lexed {
        piece: Piece::Token(Kind::Directive(directive)),
        rest,
    }
}
