//! The lines of changes.
ghost use Rattle.std.specs.Prelude.{◌≡◌, ◌≤◌, length, IsTrue, MatchOption};
ghost use Rattle.vs_vcd_lines.specs.declared.dump.ValueChange.{ValueChange};
ghost use Rattle.vs_vcd_lines.specs.Lines.{change_line, are_sizes, IsSized};

use crate::codes::number_of;
use crate::cuts::cut;
use crate::dump::ValueChange;
use crate::ends::after;
use crate::values::{digit_of, value_of};
use vs_design::vs_logic4::Vec4;

/// The change of a variable of one bit that a line writes.
fn narrow_change(line: &[u8], widths: &[u32]) -> Option<ValueChange>
    ensures { MatchOption result ((c : ValueChange) → length c.value ≡ 1 → IsSized widths.now c → line.now ≡ change_line c → ⊥)
        (λ c. IsSized widths.now c × (line.now ≡ change_line c)) }
{
    let [first, rest @ ..] = line else {
        return None;
    };
    let Some(digit) = digit_of(*first) else {
        return None;
    };
    let Some(number) = number_of(rest, widths.len()) else {
        return None;
    };
    let width = widths[number];
    if width != 1 {
        return None;
    }
    let value = Vec4::from_digit(digit);
    Some(ValueChange { number, value })
}

/// The change of a variable of more bits that a line writes.
fn wide_change(line: &[u8], widths: &[u32]) -> Option<ValueChange>
    requires { IsTrue (are_sizes widths.now) }
    ensures { MatchOption result ((c : ValueChange) → 2 ≤ length c.value → IsSized widths.now c → line.now ≡ change_line c → ⊥)
        (λ c. IsSized widths.now c × (line.now ≡ change_line c)) }
{
    let Some(rest) = after(line, b"b") else {
        return None;
    };
    let Some((digits, code)) = cut(rest, b' ') else {
        return None;
    };
    let Some(number) = number_of(code, widths.len()) else {
        return None;
    };
    let width = widths[number];
    if width < 2 {
        return None;
    }
    match value_of(width, digits) {
        Some(value) => Some(ValueChange { number, value }),
        None => None,
    }
}

/// The change that a line writes, of one of the variables of these sizes.
pub fn change_of(line: &[u8], widths: &[u32]) -> Option<ValueChange>
    requires { IsTrue (are_sizes widths.now) }
    ensures { MatchOption result ((c : ValueChange) → IsSized widths.now c → line.now ≡ change_line c → ⊥)
        (λ c. IsSized widths.now c × (line.now ≡ change_line c)) }
{
    match narrow_change(line, widths) {
        Some(change) => Some(change),
        None => wide_change(line, widths),
    }
}
