//! The text of values and identifier codes.
ghost use Rattle.std.specs.Int.{bit_at};
ghost use Rattle.std.specs.Prelude.{◌≡◌, ℕ, suc, ◌-◌, ◌<◌, ◌≤◌, ◌++◌, ◌∷◌, [], length, take, drop, reverse, slice_index, OnOk};
ghost use Rattle.std.specs.Prelude.{if◌then◌else◌};
ghost use Rattle.vs_design.specs.vs_logic4.specs.Planes.{digit_of_bits};
ghost use Rattle.vs_vcd_writing.specs.Codes.{code};
ghost use Rattle.vs_vcd_writing.specs.Values.{digit_character, is_extension, shortened, value_change};
ghost use Rattle.vs_vcd_writing.specs.Text.{text_of};
ghost use Rattle.vs_vcd_writing.specs.Kept.{before_code};

use std::alloc::AllocError;
use std::simd::prelude::*;
use vs_design::vs_logic4::{Digit, Vec4};

/// The character of a digit.
fn character(digit: Digit) -> u8
    ensures { result ≡ digit_character digit }
{
    match digit {
        Digit::Zero => b'0',
        Digit::One => b'1',
        Digit::X => b'x',
        Digit::Z => b'z',
    }
}

/// The places, of the digits that two planes hold, whose digit extending doesn't give back from the one below, and the
/// lowest place.
fn kept_places(value: u64, unknown: u64) -> u64
    ensures lowest { bit_at result 0 ≡ 1 }
    ensures others { (k : ℕ) → suc k < 64 → bit_at result (suc k)
        ≡ (if is_extension (digit_of_bits (bit_at value (suc k)) (bit_at unknown (suc k)))
        (digit_of_bits (bit_at value k) (bit_at unknown k)) then 0 else 1) }
{
    (unknown ^ (unknown << 1)) | (value ^ (unknown & (value << 1))) | 1
}

/// How many digits of a value are written, counted from the lowest.
fn kept_digits(value: Vec4) -> u32
    ensures most { result ≤ length value }
    ensures kept { reverse (take result value) ≡ shortened (reverse value) }
{
    let places = kept_places(value.value_plane(), value.unknown_plane());
    64 - (places & (u64::MAX >> (64 - value.width()))).leading_zeros()
}

/// The characters of the lowest eight digits of two planes, the highest of them first.
fn eight_digits(value: u64, unknown: u64) -> u8x8
    ensures long { length result ≡ 8 }
    ensures digits { (k : ℕ) → k < 8
        → slice_index result (7 - k) ≡ digit_character (digit_of_bits (bit_at value k) (bit_at unknown k)) }
{
    let places = u8x8::from_array([128, 64, 32, 16, 8, 4, 2, 1]);
    let ones = (u8x8::splat((value % 256) as u8) & places).simd_ne(u8x8::splat(0));
    let unknowns = (u8x8::splat((unknown % 256) as u8) & places).simd_ne(u8x8::splat(0));
    let known = ones.select(u8x8::splat(b'1'), u8x8::splat(b'0'));
    unknowns.select(ones.select(u8x8::splat(b'x'), u8x8::splat(b'z')), known)
}

/// Writes the characters of the lowest `count` digits of two planes to `room`, the highest of them first and the lowest at
/// place 64.
fn write_digits(room: &mut [u8], value: u64, unknown: u64, count: u32)
    requires long { length room.old ≡ 80 }
    requires most { count ≤ 64 }
    ensures { (k : ℕ) → k < count
        → slice_index room.new (64 - k) ≡ digit_character (digit_of_bits (bit_at value k) (bit_at unknown k)) }
{
    let mut done = 0;
    while done < count {
        eight_digits(value >> done, unknown >> done).copy_to_slice(&mut room[57 - done as usize..]);
        done += 8;
    }
}

/// Writes what stands before the code in the change to a value to the end of the first 66 bytes of `room`, and answers the
/// place where it begins.
fn write_value(room: &mut [u8], value: Vec4) -> usize
    requires { length room.old ≡ 80 }
    ensures most { result ≤ 66 }
    ensures text { drop result (take 66 room.new) ≡ before_code value }
{
    if value.width() == 1 {
        room[65] = character(value.digit(0));
        return 65;
    }
    let count = kept_digits(value);
    write_digits(room, value.value_plane(), value.unknown_plane(), count);
    let start = 64 - count as usize;
    room[start] = b'b';
    room[65] = b' ';
    start
}

/// Writes the identifier code of this number to `room` behind its first 66 bytes, and answers the place behind it.
fn write_code(room: &mut [u8], number: usize) -> usize
    requires { length room.old ≡ 80 }
    ensures least { 66 ≤ result }
    ensures most { result ≤ 76 }
    ensures text { take result room.new ≡ take 66 room.old ++ code number }
{
    let mut end = 66;
    let mut rest = number;
    while rest >= 94 {
        room[end] = 33 + (rest % 94) as u8;
        end += 1;
        rest = rest / 94 - 1;
    }
    room[end] = 33 + rest as u8;
    end + 1
}

/// Appends the identifier code of this number.
pub(crate) fn push_code(text: &mut Vec<u8>, number: usize) -> Result<(), AllocError>
    ensures { OnOk result (text.new.items ≡ text.old.items ++ code number) }
{
    let mut room = [b'0'; 80];
    let end = write_code(&mut room, number);
    text.extend_from_slice(&room[66..end])?;
    Ok(())
}

/// Appends the line of the change to a value of the signal whose code has this number.
///
/// It is made in room of 80 bytes, and copied once: up to place 64 the digits and `b` before them, a space at 65, from 66 on
/// the code, and the line's end. Of a value of one bit the digit stands at 65.
pub(crate) fn push_change(text: &mut Vec<u8>, value: Vec4, number: usize) -> Result<(), AllocError>
    ensures { OnOk result (text.new.items ≡ text.old.items ++ text_of (value_change value (code number) ∷ [])) }
{
    let mut room = [b'0'; 80];
    let start = write_value(&mut room, value);
    let end = write_code(&mut room, number);
    room[end] = b'\n';
    text.extend_from_slice(&room[start..end + 1])?;
    Ok(())
}
