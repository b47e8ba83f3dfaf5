//! What indices choose (IEEE 1364-2005, clauses 4.9 and 5.2).
ghost use Rattle.std.specs.Prelude.{◌≡◌, ◌<◌, ◌≤◌, ◌≤ℤ◌, ◌<ℤ◌, ◌^◌, ℤ, pos, neg_ℤ, IfSome};
ghost use Rattle.vs_design.specs.Selects.{index_number, lowest, in_reach, place_of, word_place};

use vs_design::Axis;
use vs_design::vs_logic4::Vec4;

/// The number of an index by its own size and sign, where no digit is x or z.
pub fn index_number(signed: bool, index: Vec4) -> Option<i128>
    ensures is { result ≡ index_number signed index }
    ensures least { IfSome result (λ n. neg_ℤ (pos (2 ^ 63)) ≤ℤ n) }
    ensures most { IfSome result (λ n. n <ℤ pos (2 ^ 64)) }
{
    if signed {
        match index.to_signed() {
            Some(n) => Some(n as i128),
            None => None,
        }
    } else {
        match index.to_number() {
            Some(n) => Some(n as i128),
            None => None,
        }
    }
}

/// The number of the lowest chosen element for an index of this number.
fn lowest(axis: Axis, number: i128) -> i128
    requires least { neg_ℤ (pos (2 ^ 63)) ≤ℤ number }
    requires most { number <ℤ pos (2 ^ 64) }
    ensures { result ≡ lowest axis number }
{
    let right = axis.right as i128;
    let below = axis.below as i128;
    if axis.ascending {
        right - number - below
    } else {
        number - right - below
    }
}

/// A number of the lowest of so many elements, where one of them is in range; otherwise the first number past the end.
fn in_reach(length: u32, width: u32, lowest: i128) -> i64
    ensures { result ≡ in_reach length width lowest }
{
    let past = length as i64;
    if lowest >= 0 {
        if lowest < length as i128 {
            lowest as i64
        } else {
            past
        }
    } else if lowest > -(width as i128) {
        lowest as i64
    } else {
        past
    }
}

/// The number of the lowest of so many elements that an index chooses; past the end where none is in range or a digit of the index is x or z
/// (IEEE 1364-2005, clause 5.2.1).
pub fn place_of(axis: Axis, width: u32, index: Vec4) -> i64
    ensures { result ≡ place_of axis width index }
{
    match index_number(axis.signed, index) {
        Some(number) => in_reach(axis.length, width, lowest(axis, number)),
        None => axis.length as i64,
    }
}

/// The number of the word that an index chooses.
pub fn word_place(axis: Axis, index: Vec4) -> usize
    ensures { result ≡ word_place axis index }
{
    let place = place_of(axis, 1, index);
    if place < 0 { 0 } else { place as usize }
}
