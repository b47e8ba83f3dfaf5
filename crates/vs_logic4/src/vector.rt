//! A vector as two planes of bits.
ghost use Rattle.std.specs.Prelude.{◌≡◌, ◌==◌, ◌<◌, ◌≤◌, ◌-◌, ◌^◌, length, [], ◌∷◌, slice_get, IsTrue, ◌↔◌, Some};
ghost use Rattle.vs_logic4.specs.Planes.{digits_of_planes, value_plane, unknown_plane};
ghost use Rattle.vs_logic4.specs.Vectors.{of_number, all_unknown, all_high_impedance, resized, same_digits};
ghost use Rattle.vs_logic4.specs.Sameness.{same_digits_partial, same_digits_equivalence};
ghost use Rattle.vs_logic4.specs.Extensions.{IsExtended};

use crate::digit::Digit;

mod arithmetic;
mod bitwise;
mod comparisons;
mod division;
mod numbers;
mod parts;
mod planes;
mod reductions;
mod shifts;

use std::fmt;
use std::marker::Model;

/// A vector of 1 to 64 digits. A contract sees it as the list of its digits, lowest first.
#[derive(Clone, Copy)]
pub struct Vec4 {
    width: u32,
    value: u64,
    unknown: u64,
}

impl Model for Vec4 {
    ghost use Rattle.std.specs.Prelude.{List, length, refl};
    ghost use Rattle.vs_logic4.specs.declared.digit.Digit.{Digit};
    ghost use Rattle.vs_logic4.specs.Planes.{digits_of_planes, value_plane, unknown_plane, ArePlanes};
    ghost use Rattle.vs_logic4.specs.PlaneLaws.{length-digits_of_planes, value_plane-digits_of_planes, unknown_plane-digits_of_planes};

    ghost Value = { List Digit };

    ghost view = { λ v. digits_of_planes v.width v.value v.unknown };

    ghost invariant = { λ v. ArePlanes v.width v.value v.unknown };

    ghost inverse = { λ ds. record { width = length ds; value = value_plane ds; unknown = unknown_plane ds } };

    ghost inverse_ok = { λ v h. Prim.rw (length-digits_of_planes v.width v.value v.unknown, value_plane-digits_of_planes v.width v.value v.unknown h.value_below, unknown_plane-digits_of_planes v.width v.value v.unknown h.unknown_below) refl };
}

/// `===` (IEEE 1364-2005, clause 5.1.8): the same digits, x and z too.
impl PartialEq for Vec4 {
    ghost eq = { same_digits };

    ghost laws = { same_digits_partial };

    fn eq(&self, other: &Vec4) -> bool {
        let this = *self;
        this.same(*other)
    }
}

/// Writes the vector as a binary literal, the highest digit first, as `4'b10xz`.
impl fmt::Debug for Vec4 {
    fn fmt<W: fmt::Write>(&self, f: &mut fmt::Formatter<W>) -> fmt::Result {
        let this = *self;
        let width = this.width();
        write!(f, "{width}'b")?;
        for index in (0..width).rev() {
            f.write_char(this.digit(index).letter())?;
        }
        Ok(())
    }
}

impl Eq for Vec4 {
    ghost laws = { same_digits_equivalence };
}

/// The lowest `width` bits set.
pub(crate) fn low_ones(width: u32) -> u64
    requires some { 0 < width }
    requires most { width ≤ 64 }
    ensures { result ≡ 2 ^ width - 1 }
{
    u64::MAX >> (64 - width)
}

impl Vec4 {
    /// The vector of these 1 to 64 digits, lowest first.
    pub fn from_digits(digits: &[Digit]) -> Vec4
        requires some { 0 < length digits.now }
        requires most { length digits.now ≤ 64 }
        ensures { result ≡ digits.now }
    {
        let mut value = 0;
        let mut unknown = 0;
        for i in (0..digits.len()).rev() {
            value = value << 1 | digits[i].value_bit();
            unknown = unknown << 1 | digits[i].unknown_bit();
        }
        Vec4 {
            width: digits.len() as u32,
            value,
            unknown,
        }
    }

    /// The vector of one digit.
    pub fn from_digit(digit: Digit) -> Vec4
        ensures { result ≡ digit ∷ [] }
    {
        Vec4 {
            width: 1,
            value: digit.value_bit(),
            unknown: digit.unknown_bit(),
        }
    }

    /// The vector of `width` digits (1 to 64) that two planes hold: a digit is 0, 1, z or x where the
    /// bits of the value plane and the unknown plane are 00, 10, 01 or 11. Bits above are ignored.
    pub fn from_planes(width: u32, value: u64, unknown: u64) -> Vec4
        requires some { 0 < width }
        requires most { width ≤ 64 }
        ensures { result ≡ digits_of_planes width value unknown }
    {
        let ones = low_ones(width);
        Vec4 {
            width,
            value: value & ones,
            unknown: unknown & ones,
        }
    }

    /// The value plane: a bit is set where the digit is 1 or x.
    pub fn value_plane(self) -> u64
        ensures { result ≡ value_plane self }
    {
        self.value
    }

    /// The unknown plane: a bit is set where the digit is x or z.
    pub fn unknown_plane(self) -> u64
        ensures { result ≡ unknown_plane self }
    {
        self.unknown
    }

    /// The number of digits, 1 to 64.
    pub fn width(self) -> u32
        ensures digits { result ≡ length self }
        ensures some { 0 < result }
        ensures most { result ≤ 64 }
    {
        self.width
    }

    /// The digit at `index`, counted from the lowest.
    pub fn digit(self, index: u32) -> Digit
        requires { index < length self }
        ensures { slice_get self index ≡ Some result }
    {
        Digit::of_bits(self.value >> index & 1, self.unknown >> index & 1)
    }

    /// The vector of a number, wrapped to `width` digits (1 to 64).
    pub fn from_number(width: u32, number: u64) -> Vec4
        requires some { 0 < width }
        requires most { width ≤ 64 }
        ensures { result ≡ of_number width number }
    {
        Vec4 {
            width,
            value: number & low_ones(width),
            unknown: 0,
        }
    }

    /// x in each of `width` places (1 to 64).
    pub fn unknown(width: u32) -> Vec4
        requires some { 0 < width }
        requires most { width ≤ 64 }
        ensures { result ≡ all_unknown width }
    {
        let ones = low_ones(width);
        Vec4 {
            width,
            value: ones,
            unknown: ones,
        }
    }

    /// z in each of `width` places (1 to 64).
    pub fn high_impedance(width: u32) -> Vec4
        requires some { 0 < width }
        requires most { width ≤ 64 }
        ensures { result ≡ all_high_impedance width }
    {
        Vec4 {
            width,
            value: 0,
            unknown: low_ones(width),
        }
    }

    /// This vector at another width (1 to 64): cut on the left, or extended there by 0, where
    /// `signed` by the top digit, x and z too (IEEE 1364-2005, clauses 5.5.4 and 5.6).
    pub fn resize(self, width: u32, signed: bool) -> Vec4
        requires some { 0 < width }
        requires most { width ≤ 64 }
        ensures { result ≡ resized signed width self }
    {
        Vec4 {
            width,
            value: extended(self.value, self.width, width, signed),
            unknown: extended(self.unknown, self.width, width, signed),
        }
    }

    /// Whether both vectors have the same digits.
    pub fn same(self, other: Vec4) -> bool
        ensures { IsTrue result ↔ (self ≡ other) }
    {
        (self.width == other.width) & (self.value == other.value) & (self.unknown == other.unknown)
    }
}

/// A plane of `from` bits as one of `to` bits: cut above, or filled there with 0, where `signed`
/// with its top bit.
fn extended(plane: u64, from: u32, to: u32, signed: bool) -> u64
    requires some { 0 < from }
    requires most { from ≤ 64 }
    requires some_left { 0 < to }
    requires most_left { to ≤ 64 }
    requires below { plane < 2 ^ from }
    ensures { IsExtended signed from to plane result }
{
    let negative = signed & (plane >> (from - 1) & 1 == 1);
    let above = if negative { !low_ones(from) } else { 0 };
    (plane | above) & low_ones(to)
}
