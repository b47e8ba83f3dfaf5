//! The lines of the header and of times.
ghost use Rattle.std.specs.Prelude.{◌≡◌, ℕ, ◌++◌, ◌<◌, ◌^◌, List, MatchOption};
ghost use Rattle.vs_design.specs.declared.design.ScopeKind.{ScopeKind};
ghost use Rattle.vs_design.specs.declared.timescale.TimeSpan.{TimeSpan};
ghost use Rattle.vs_vcd_writing.specs.Text.{scope_line, time_line};
ghost use Rattle.vs_vcd_lines.specs.Lines.{span_line};
ghost use Rattle.vs_vcd_lines.specs.Names.{IsScopeName};

use crate::cuts::cut;
use crate::ends::{after, before};
use crate::names::is_scope_name;
use crate::numbers::unsigned_of;
use crate::words::{magnitude_of, scope_kind_of, unit_of};
use vs_design::{ScopeKind, TimeSpan};

/// What stands in a line between a beginning and an end.
fn between<'t>(line: &'t [u8], beginning: &[u8], end: &[u8]) -> Option<&'t [u8]>
    ensures { MatchOption result ((middle : List ℕ) → line.now ≡ beginning.now ++ middle ++ end.now → ⊥)
        (λ middle. line.now ≡ beginning.now ++ middle.now ++ end.now) }
{
    match after(line, beginning) {
        Some(rest) => before(rest, end),
        None => None,
    }
}

/// The time below 2^64 that a line is of.
pub fn time_of(line: &[u8]) -> Option<u64>
    ensures { MatchOption result ((time : ℕ) → time < 2 ^ 64 → line.now ≡ time_line time → ⊥)
        (λ time. (time < 2 ^ 64) × (line.now ≡ time_line time)) }
{
    match after(line, b"#") {
        Some(digits) => unsigned_of(digits),
        None => None,
    }
}

/// What a tick stands for, by its line.
pub fn span_of(line: &[u8]) -> Option<TimeSpan>
    ensures { MatchOption result ((span : TimeSpan) → line.now ≡ span_line span → ⊥) (λ span. line.now ≡ span_line span) }
{
    let Some(middle) = between(line, b"$timescale ", b" $end") else {
        return None;
    };
    let Some((count, word)) = cut(middle, b' ') else {
        return None;
    };
    let Some(magnitude) = magnitude_of(count) else {
        return None;
    };
    match unit_of(word) {
        Some(unit) => Some(TimeSpan { magnitude, unit }),
        None => None,
    }
}

/// The kind and the name of the scope that a line opens.
pub fn scope_of(line: &[u8]) -> Option<(ScopeKind, &[u8])>
    ensures { MatchOption result ((kind : ScopeKind) (name : List ℕ) → IsScopeName kind name → line.now ≡ scope_line kind name → ⊥)
        (λ scope. IsScopeName scope.0 scope.1.now × (line.now ≡ scope_line scope.0 scope.1.now)) }
{
    let Some(middle) = between(line, b"$scope ", b" $end") else {
        return None;
    };
    let Some((word, name)) = cut(middle, b' ') else {
        return None;
    };
    let Some(kind) = scope_kind_of(word) else {
        return None;
    };
    let named = is_scope_name(kind, name);
    if named { Some((kind, name)) } else { None }
}
