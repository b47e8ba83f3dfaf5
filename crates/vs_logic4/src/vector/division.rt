//! Division and remainder, by magnitudes and signs.
ghost use Rattle.std.specs.Prelude.{◌≡◌, ◌-◌, ◌%◌, ◌<◌, ◌≤◌, ◌^◌, ◌==◌, ◌&&◌, length, if◌then◌else◌};
ghost use Rattle.std.specs.Int.{bit_at};
ghost use Rattle.vs_logic4.specs.Arithmetic.{quotient, remainder};

use super::{Vec4, low_ones};

impl Vec4 {
    /// `/` of two vectors of one width, cut toward zero; x in every place where the divisor is 0
    /// (IEEE 1364-2005, clause 5.1.5).
    pub fn div(self, other: Vec4, signed: bool) -> Vec4
        requires { length self ≡ length other }
        ensures { result ≡ quotient signed self other }
    {
        if (self.unknown | other.unknown == 0) & (other.value != 0) {
            let dividend = magnitude(self.value, self.width, signed);
            let divisor = magnitude(other.value, other.width, signed);
            let left = is_negative(self.value, self.width, signed);
            let right = is_negative(other.value, other.width, signed);
            Vec4::from_number(self.width, with_sign(left != right, dividend / divisor))
        } else {
            Vec4::unknown(self.width)
        }
    }

    /// `%` of two vectors of one width, with the sign of the dividend; x in every place where the
    /// divisor is 0 (IEEE 1364-2005, clause 5.1.5).
    pub fn rem(self, other: Vec4, signed: bool) -> Vec4
        requires { length self ≡ length other }
        ensures { result ≡ remainder signed self other }
    {
        if (self.unknown | other.unknown == 0) & (other.value != 0) {
            let dividend = magnitude(self.value, self.width, signed);
            let divisor = magnitude(other.value, other.width, signed);
            let negative = is_negative(self.value, self.width, signed);
            Vec4::from_number(self.width, with_sign(negative, dividend % divisor))
        } else {
            Vec4::unknown(self.width)
        }
    }
}

/// Whether a number of `width` bits is negative: `signed`, and its top bit set.
pub(super) fn is_negative(value: u64, width: u32, signed: bool) -> bool
    requires some { 0 < width }
    requires most { width ≤ 64 }
    ensures { result ≡ (signed && bit_at value (width - 1) == 1) }
{
    signed & (value >> (width - 1) & 1 == 1)
}

/// The magnitude of a number of `width` bits.
pub(super) fn magnitude(value: u64, width: u32, signed: bool) -> u64
    requires some { 0 < width }
    requires most { width ≤ 64 }
    requires below { value < 2 ^ width }
    ensures { result ≡ (if signed && bit_at value (width - 1) == 1 then 2 ^ width - value else value) }
{
    if is_negative(value, width, signed) {
        low_ones(width) - (value - 1)
    } else {
        value
    }
}

/// The number of a sign and a magnitude, wrapped to 64 bits.
pub(super) fn with_sign(negative: bool, magnitude: u64) -> u64
    ensures { result ≡ (if negative then (2 ^ 64 - magnitude) % 2 ^ 64 else magnitude) }
{
    if negative {
        0u64.wrapping_sub(magnitude)
    } else {
        magnitude
    }
}
