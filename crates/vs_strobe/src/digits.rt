//! Values in the bases of one, three, four and eight digits a group.
ghost use Rattle.std.specs.Prelude.{◌≡◌, ◌*◌, ◌-◌, ◌<◌, ◌≤◌, ◌++◌, ◌^◌, length, OnOk};
ghost use Rattle.std.specs.List.{list_any};
ghost use Rattle.vs_design.specs.vs_logic4.specs.declared.digit.Digit.TheVariants.{X};
ghost use Rattle.vs_design.specs.vs_logic4.specs.Vectors.{same_digit};
ghost use Rattle.vs_design.specs.vs_logic4.specs.Arithmetic.{bit_of, number};
ghost use Rattle.vs_strobe.specs.Values.{unknown_letter, hex_character, group, group_count, by_groups, group_character, without_zeros, digits_text, base_text};
ghost use Rattle.vs_strobe.specs.Values.{without_zero_bytes, bytes_text, character_text};

use std::alloc::AllocError;
use vs_design::vs_logic4::{Digit, Vec4};

/// Whether some digit is x.
fn has_x(value: Vec4) -> bool
    ensures { result ≡ list_any (same_digit X) value }
{
    for i in 0..value.width() {
        if let Digit::X = value.digit(i) {
            return true;
        }
    }
    false
}

/// The letter of digits that aren't all known (IEEE 1364-2005, clause 17.1.1.4).
pub(crate) fn unknown_letter(value: Vec4) -> u8
    ensures { result ≡ unknown_letter value }
{
    if value == Vec4::unknown(value.width()) {
        b'x'
    } else if value == Vec4::high_impedance(value.width()) {
        b'z'
    } else if has_x(value) {
        b'X'
    } else {
        b'Z'
    }
}

/// How many groups of `size` digits so many digits make.
fn group_count(size: u32, width: u32) -> u32
    requires some { 0 < size }
    requires most { size ≤ 8 }
    requires short { width ≤ 64 }
    ensures { result ≡ group_count size width }
{
    (width + (size - 1)) / size
}

/// A group of at most `size` digits, counted from the right.
fn group(size: u32, place: u32, value: Vec4) -> Vec4
    requires some { 0 < size }
    requires within { size * place < length value }
    ensures is { result ≡ group size place value }
    ensures most { length result ≤ size }
{
    let low = size * place;
    let left = value.width() - low;
    value.select(low as i64, size.min(left))
}

/// The character of a number below 16.
fn hex_character(number: u8) -> u8
    requires { number < 16 }
    ensures { result ≡ hex_character number }
{
    if number < 10 {
        b'0' + number
    } else {
        b'a' + (number - 10)
    }
}

/// The character of a group of at most four digits.
fn group_character(group: Vec4) -> u8
    requires { length group ≤ 4 }
    ensures { result ≡ group_character group }
{
    match group.to_number() {
        Some(number) => hex_character(number as u8),
        None => unknown_letter(group),
    }
}

/// How many groups are left without the zeros on the left.
fn kept_groups(size: u32, value: Vec4) -> u32
    requires some { 0 < size }
    requires most { size ≤ 4 }
    ensures most { result ≤ group_count size (length value) }
    ensures kept { by_groups group_character size result value ≡ without_zeros (digits_text size value) }
{
    let mut kept = group_count(size, value.width());
    while kept > 1 {
        if group_character(group(size, kept - 1, value)) != b'0' {
            return kept;
        }
        kept -= 1;
    }
    kept
}

/// Appends the characters of the lowest groups, the highest of them first.
fn push_groups(text: &mut Vec<u8>, size: u32, count: u32, value: Vec4) -> Result<(), AllocError>
    requires some { 0 < size }
    requires most { size ≤ 4 }
    requires there { count ≤ group_count size (length value) }
    ensures { OnOk result (text.new.items ≡ text.old.items ++ by_groups group_character size count value) }
{
    let mut left = count;
    while left > 0 {
        left -= 1;
        text.push(group_character(group(size, left, value)))?;
    }
    Ok(())
}

/// Appends a value in the base that has `size` digits a group.
pub(crate) fn push_base(
    text: &mut Vec<u8>,
    bare: bool,
    size: u32,
    value: Vec4,
) -> Result<(), AllocError>
    requires some { 0 < size }
    requires most { size ≤ 4 }
    ensures { OnOk result (text.new.items ≡ text.old.items ++ base_text bare size value) }
{
    let count = if bare {
        kept_groups(size, value)
    } else {
        group_count(size, value.width())
    };
    push_groups(text, size, count, value)
}

/// What a digit counts in the lowest place; x and z count as 0.
fn bit(digit: Digit) -> u8
    ensures is { result ≡ bit_of digit }
    ensures most { result ≤ 1 }
{
    match digit {
        Digit::One => 1,
        Digit::Zero | Digit::X | Digit::Z => 0,
    }
}

/// The number of at most eight digits, where x and z count as 0.
fn byte(value: Vec4) -> u8
    requires { length value ≤ 8 }
    ensures { result ≡ number value }
{
    let mut byte = 0;
    for i in (0..value.width()).rev() {
        byte = byte * 2 + bit(value.digit(i));
    }
    byte
}

/// How many bytes are left without the zeros on the left.
fn kept_bytes(value: Vec4) -> u32
    ensures most { result ≤ group_count 8 (length value) }
    ensures kept { by_groups number 8 result value ≡ bytes_text value }
{
    let mut kept = group_count(8, value.width());
    while kept > 0 {
        if byte(group(8, kept - 1, value)) != 0 {
            return kept;
        }
        kept -= 1;
    }
    kept
}

/// Appends the bytes of a value, from the top.
pub(crate) fn push_bytes(text: &mut Vec<u8>, value: Vec4) -> Result<(), AllocError>
    ensures { OnOk result (text.new.items ≡ text.old.items ++ bytes_text value) }
{
    let mut left = kept_bytes(value);
    while left > 0 {
        left -= 1;
        text.push(byte(group(8, left, value)))?;
    }
    Ok(())
}

/// Appends the low byte of a value.
pub(crate) fn push_character(text: &mut Vec<u8>, value: Vec4) -> Result<(), AllocError>
    ensures { OnOk result (text.new.items ≡ text.old.items ++ character_text value) }
{
    text.push(byte(group(8, 0, value)))?;
    Ok(())
}
