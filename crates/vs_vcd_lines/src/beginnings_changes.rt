//! Beginnings of the lines of changes.
ghost use Rattle.std.specs.Prelude.{◌<◌, ◌≤◌, ◌∷◌, IsTrue, ◌↔◌};
ghost use Rattle.vs_vcd_lines.specs.Beginnings.{BeginsChange, BeginsDigits, IsOther};

use crate::beginnings_codes::begins_code;
use crate::{cut, digit_of, value_of};
use vs_design::vs_logic4::Vec4;

/// Whether a value isn't the old one, where there is one.
fn is_other(value: Vec4, old: Option<Vec4>) -> bool
    ensures { IsTrue result ↔ IsOther old value }
{
    match old {
        Some(old) => !value.same(old),
        None => true,
    }
}

/// Whether a text begins the digits of a value of a size other than the old one, where there is one.
fn begins_digits(text: &[u8], width: u32, old: Option<Vec4>) -> bool
    requires some { 0 < width }
    requires most { width ≤ 64 }
    ensures { IsTrue result ↔ BeginsDigits width old text.now }
{
    if text.is_empty() {
        return true;
    }
    match value_of(width, text) {
        Some(value) => is_other(value, old) || text.len() < width as usize,
        None => false,
    }
}

/// Whether a digit and what stands after it begin the line of a change of the variable of this number and one bit, to another value than the old
/// one.
fn begins_bit(first: u8, rest: &[u8], number: usize, old: Option<Vec4>) -> bool
    ensures { IsTrue result ↔ BeginsChange number 1 old (first ∷ rest.now) }
{
    match digit_of(first) {
        Some(digit) => is_other(Vec4::from_digit(digit), old) && begins_code(rest, number),
        None => false,
    }
}

/// Whether a text begins what stands after the `b` in the line of a change of the variable of this number and size, of two bits and more, to
/// another value than the old one. There are 64 digits, a space and ten characters of a code at most, so that no long text is gone through.
fn begins_word(text: &[u8], number: usize, width: u32, old: Option<Vec4>) -> bool
    requires some { 2 ≤ width }
    requires most { width ≤ 64 }
    ensures { IsTrue result ↔ BeginsChange number width old (98 ∷ text.now) }
{
    if text.len() > 75 {
        return false;
    }
    let Some((digits, code)) = cut(text, b' ') else {
        return begins_digits(text, width, old);
    };
    match value_of(width, digits) {
        Some(value) => is_other(value, old) && begins_code(code, number),
        None => false,
    }
}

/// Whether a text begins the line of a change of the variable of this number and size, to another value than the old one.
pub fn begins_change(part: &[u8], number: usize, width: u32, old: Option<Vec4>) -> bool
    requires some { 0 < width }
    requires most { width ≤ 64 }
    ensures { IsTrue result ↔ BeginsChange number width old part.now }
{
    let [first, rest @ ..] = part else {
        return true;
    };
    if width == 1 {
        return begins_bit(*first, rest, number, old);
    }
    *first == b'b' && begins_word(rest, number, width, old)
}
