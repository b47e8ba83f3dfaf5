//! Lines of the body that can't stand where they do.
ghost use Rattle.std.specs.Prelude.{◌≡◌, false, IsTrue, ◌↔◌};
ghost use Rattle.std.specs.List.{list_all};
ghost use Rattle.vs_vcd_reader.specs.declared.fault.VcdFault.TheVariants.{Cut};
ghost use Rattle.vs_vcd_reader.specs.Stops.{IsBodyKind, IsOfOtherCode};
ghost use Rattle.vs_vcd_reader.specs.Kinds.{are_characters, is_character, AreCodeCharacters, IsOtherCode};

use crate::fault::VcdFault;
use vs_vcd_lines::{cut, number_of};

/// Whether a byte is the character of a digit.
fn is_digit(byte: u8) -> bool
    ensures { result ≡ is_character byte }
{
    byte == b'0' || byte == b'1' || byte == b'x' || byte == b'z'
}

/// Whether all bytes of a text are characters of digits.
fn are_all_digits(text: &[u8]) -> bool
    ensures { result ≡ list_all is_character text.now }
{
    text.iter().all(|byte| is_digit(*byte))
}

/// Whether a text is an identifier code.
fn is_code(text: &[u8]) -> bool
    ensures { IsTrue result ↔ AreCodeCharacters text.now }
{
    !text.is_empty() && text.iter().all(|b| *b >= 33 && *b <= 126)
}

/// Whether a text is an identifier code whose number isn't below a count.
fn is_other_code(text: &[u8], count: usize) -> bool
    ensures { IsTrue result ↔ IsOtherCode count text.now }
{
    is_code(text) && number_of(text, count).is_none()
}

/// Whether a text is of one digit or more.
fn are_digits(text: &[u8]) -> bool
    ensures { result ≡ are_characters text.now }
{
    !text.is_empty() && are_all_digits(text)
}

/// Whether a line has the shape of a change of a code whose number isn't below a count.
fn is_of_other_code(line: &[u8], count: usize) -> bool
    ensures { IsTrue result ↔ IsOfOtherCode count line.now }
{
    let [first, rest @ ..] = line else {
        return false;
    };
    if is_digit(*first) {
        return is_other_code(rest, count);
    }
    if *first != b'b' {
        return false;
    }
    match cut(rest, b' ') {
        Some((digits, code)) => are_digits(digits) && is_other_code(code, count),
        None => false,
    }
}

/// The fault of a line of the body that can't stand where it does, where there are so many variables.
pub(crate) fn body_fault(line: &[u8], count: usize) -> VcdFault
    ensures { IsBodyKind count line.now result }
{
    if line.starts_with(b"#") {
        return VcdFault::Time;
    }
    let other = is_of_other_code(line, count);
    if other {
        VcdFault::Code
    } else {
        VcdFault::Line
    }
}

/// What is told of a last line of the body that isn't ended, by whether it goes on to a line that can stand there.
pub(crate) fn body_end(goes_on: bool, part: &[u8], count: usize) -> VcdFault
    ensures cut { IsTrue goes_on → result ≡ Cut }
    ensures kind { goes_on ≡ false → IsBodyKind count part.now result }
{
    if goes_on {
        VcdFault::Cut
    } else {
        body_fault(part, count)
    }
}
