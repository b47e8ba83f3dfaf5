//! Beginnings of lines that can stand at a place.
ghost use Rattle.std.specs.Prelude.{◌≡◌, ◌<◌, ℕ, Bool, List, length, IsTrue, ◌↔◌};
ghost use Rattle.vs_design.specs.vs_logic4.specs.declared.digit.Digit.{Digit};
ghost use Rattle.vs_vcd_lines.specs.Lines.{are_sizes};
ghost use Rattle.vs_vcd_reader.specs.Bodies.{IsAtTime};
ghost use Rattle.vs_vcd_lines.specs.Beginnings.{BeginsSomeScope};
ghost use Rattle.vs_vcd_reader.specs.Steps.{Place as p};
ghost use Rattle.vs_vcd_reader.specs.Stops.{GoesOn};

use vs_design::ScopeKind;
use vs_design::vs_logic4::Vec4;
use vs_vcd_lines::{begins, begins_change, begins_scope, begins_variable};

/// Whether a text begins the line of a scope.
fn begins_some_scope(part: &[u8]) -> bool
    ensures { IsTrue result ↔ BeginsSomeScope part.now }
{
    begins_scope(ScopeKind::Module, part) || begins_scope(ScopeKind::Begin, part)
}

/// Whether a text is empty, or begins the line of the top module.
pub(crate) fn top_goes_on(part: &[u8]) -> bool
    ensures { IsTrue result ↔ GoesOn p.Top part.now }
{
    begins_scope(ScopeKind::Module, part)
}

/// Whether a text is empty, or begins a line of the declarations, where the code of the next variable has this number and one may or may not
/// stand next.
pub(crate) fn declaration_goes_on(part: &[u8], number: usize, own: bool) -> bool
    ensures { (ws : List ℕ) (depth : ℕ) → length ws ≡ number → 0 < depth → (IsTrue result ↔ GoesOn (p.Header ws depth own) part.now) }
{
    if begins(part, b"$upscope $end") {
        return true;
    }
    if begins_some_scope(part) {
        return true;
    }
    own && begins_variable(part, number)
}

/// Whether a text is empty, or begins the line of a value of the variable of this number.
pub(crate) fn value_goes_on(part: &[u8], number: usize, widths: &[u32]) -> bool
    requires sizes { IsTrue (are_sizes widths.now) }
    requires within { number < length widths.now }
    ensures { (vs : List (List Digit)) → length vs ≡ number → (IsTrue result ↔ GoesOn (p.Values widths.now vs) part.now) }
{
    begins_change(part, number, widths[number], None)
}

/// Whether a text, which doesn't begin with `#`, begins the line of a change of a variable from a number on, to another value than that written
/// last.
pub(crate) fn change_goes_on(part: &[u8], from: usize, widths: &[u32], values: &[Vec4]) -> bool
    requires sizes { IsTrue (are_sizes widths.now) }
    requires values { length values.now ≡ length widths.now }
    ensures { (last : ℕ) (bare : Bool) → (IsAtTime part.now → ⊥)
        → (IsTrue result ↔ GoesOn (p.Later widths.now values.now last from bare) part.now) }
{
    let mut number = from;
    while number < widths.len() {
        let found = begins_change(part, number, widths[number], Some(values[number]));
        if found {
            return true;
        }
        number += 1;
    }
    false
}
