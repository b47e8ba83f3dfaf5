//! Beginnings of the lines of scopes.
ghost use Rattle.std.specs.Prelude.{◌≡◌, IsTrue, ◌↔◌};
ghost use Rattle.vs_vcd_lines.specs.Beginnings.{BeginsScope};
ghost use Rattle.vs_vcd_lines.specs.BeginningsParts.{scope_beginning, BeginsSome, IsNamedThen, IsScopeEnd, IsTurnEnd};

use crate::after;
use crate::beginnings_names::{after_name, begins_name};
use crate::beginnings_numbers::begins_last;
use crate::texts::begins;
use vs_design::ScopeKind;

/// What the line of a scope of a kind begins with.
fn scope_beginning(kind: ScopeKind) -> &'static [u8]
    ensures { result.now ≡ scope_beginning kind }
{
    match kind {
        ScopeKind::Module => b"$scope module ",
        ScopeKind::Begin => b"$scope begin ",
    }
}

/// Whether a text begins the value of a genvar in brackets and the end of a declaration.
fn begins_turn(text: &[u8]) -> bool
    ensures { IsTrue result ↔ BeginsSome IsTurnEnd text.now }
{
    match after(text, b"[") {
        Some(number) => begins_last(number),
        None => begins(text, b"["),
    }
}

/// Whether a text begins what stands in the line of a scope of a kind after a name.
fn begins_scope_end(kind: ScopeKind, text: &[u8]) -> bool
    ensures { IsTrue result ↔ BeginsSome (IsScopeEnd kind) text.now }
{
    match kind {
        ScopeKind::Module => begins(text, b" $end"),
        ScopeKind::Begin => begins(text, b" $end") || begins_turn(text),
    }
}

/// Whether a text begins the name of a scope of a kind and the end of its line.
fn begins_scope_name(kind: ScopeKind, text: &[u8]) -> bool
    ensures { IsTrue result ↔ BeginsSome (IsNamedThen (IsScopeEnd kind)) text.now }
{
    match after_name(text) {
        Some(rest) => begins_scope_end(kind, rest),
        None => begins_name(text),
    }
}

/// Whether a text begins the line of a scope of a kind.
pub fn begins_scope(kind: ScopeKind, part: &[u8]) -> bool
    ensures { IsTrue result ↔ BeginsScope kind part.now }
{
    let beginning = scope_beginning(kind);
    match after(part, beginning) {
        Some(rest) => begins_scope_name(kind, rest),
        None => begins(part, beginning),
    }
}
