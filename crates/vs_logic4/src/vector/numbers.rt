//! Vectors and numbers: the order, and conversions.
ghost use Rattle.std.specs.Prelude.{◌≡◌, ◌<◌, ◌≤◌, length};
ghost use Rattle.vs_logic4.specs.Arithmetic.{less_than, known_number, known_signed_number, of_integer};

use super::Vec4;
use super::division::{is_negative, magnitude, with_sign};
use crate::digit::Digit;

impl Vec4 {
    /// `<` of two vectors of one width: x if a digit is x or z (IEEE 1364-2005, clause 5.1.7).
    pub fn less(self, other: Vec4, signed: bool) -> Digit
        requires { length self ≡ length other }
        ensures { result ≡ less_than signed self other }
    {
        let top = 1 << (self.width - 1);
        let flip = if signed { top } else { 0 };
        let less = (self.value ^ flip) < (other.value ^ flip);
        Digit::from_test_if(self.unknown | other.unknown == 0, less)
    }

    /// The unsigned number of this vector, where no digit is x or z.
    pub fn to_number(self) -> Option<u64>
        ensures { result ≡ known_number self }
    {
        if self.unknown == 0 {
            Some(self.value)
        } else {
            None
        }
    }

    /// The signed number of this vector, where no digit is x or z.
    pub fn to_signed(self) -> Option<i64>
        ensures { result ≡ known_signed_number self }
    {
        if self.unknown == 0 {
            let negative = is_negative(self.value, self.width, true);
            let magnitude = magnitude(self.value, self.width, true);
            Some(with_sign(negative, magnitude).cast_signed())
        } else {
            None
        }
    }

    /// The vector of a signed number, wrapped to `width` digits (1 to 64).
    pub fn from_signed(width: u32, number: i64) -> Vec4
        requires some { 0 < width }
        requires most { width ≤ 64 }
        ensures { result ≡ of_integer width number }
    {
        Vec4::from_number(width, number.cast_unsigned())
    }
}
