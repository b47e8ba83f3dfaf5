//! Beginnings of names.
ghost use Rattle.std.specs.Prelude.{◌≡◌, ◌++◌, ℕ, true, List, codes, IsTrue, ◌↔◌, MatchOption};
ghost use Rattle.std.specs.List.{list_all};
ghost use Rattle.vs_vcd_lines.specs.Names.{is_further, IsName};
ghost use Rattle.vs_vcd_lines.specs.BeginningsParts.{BeginsSome, IsAfterName, IsEscapedRest, IsFurtherCut, IsWithinName};

use crate::{after, are_printable, cut, is_body, is_first, is_further};

/// What stands in a text from the first byte on that can't go on in a simple identifier; none where all can.
fn from_other(text: &[u8]) -> Option<&[u8]>
    ensures { MatchOption result (list_all is_further text.now ≡ true) (λ rest. IsFurtherCut text.now rest.now) }
{
    let mut place = 0;
    while place < text.len() {
        let further = is_further(text[place]);
        if !further {
            return Some(&text[place..]);
        }
        place += 1;
    }
    None
}

/// What stands after the simple identifier that a text begins with, where a byte there shows that it ends.
fn after_simple(text: &[u8]) -> Option<&[u8]>
    requires { (rest : List ℕ) → text.now ≡ codes "\\" ++ rest → ⊥ }
    ensures { MatchOption result (IsWithinName text.now) (λ rest. IsAfterName text.now rest.now) }
{
    let [first, ..] = text else {
        return None;
    };
    let begins = is_first(*first);
    if !begins {
        return None;
    }
    from_other(text)
}

/// What stands after the name that a text begins with, where what stands there shows that the name ends.
pub(crate) fn after_name(text: &[u8]) -> Option<&[u8]>
    ensures { MatchOption result (IsWithinName text.now) (λ rest. IsAfterName text.now rest.now) }
{
    let Some(escaped) = after(text, b"\\") else {
        return after_simple(text);
    };
    let Some((body, rest)) = cut(escaped, b' ') else {
        return None;
    };
    let named = is_body(body);
    if named { Some(rest) } else { None }
}

/// Whether a text begins what stands in an escaped identifier after its backslash.
fn begins_escaped(text: &[u8]) -> bool
    ensures { IsTrue result ↔ BeginsSome IsEscapedRest text.now }
{
    match cut(text, b' ') {
        Some((body, rest)) => is_body(body) && rest.is_empty(),
        None => are_printable(text),
    }
}

/// Whether a text without a backslash at its head begins a name.
fn begins_simple(text: &[u8]) -> bool
    requires { (rest : List ℕ) → text.now ≡ codes "\\" ++ rest → ⊥ }
    ensures { IsTrue result ↔ BeginsSome IsName text.now }
{
    let [first, ..] = text else {
        return true;
    };
    match from_other(text) {
        Some(_) => false,
        None => is_first(*first),
    }
}

/// Whether a text begins a name.
pub(crate) fn begins_name(text: &[u8]) -> bool
    ensures { IsTrue result ↔ BeginsSome IsName text.now }
{
    match after(text, b"\\") {
        Some(rest) => begins_escaped(rest),
        None => begins_simple(text),
    }
}
