//! The arithmetic and relational operators.
ghost use Rattle.std.specs.Prelude.{◌≡◌, ◌<◌, ◌≤◌, ◌^◌, ◌==◌, ◌&&◌, Bool, length, if◌then◌else◌};
ghost use Rattle.vs_logic4.specs.Vectors.{of_number, all_unknown};
ghost use Rattle.vs_logic4.specs.Arithmetic.{sum_of, difference, product, quotient, remainder, negation, unary_plus, less_than, known_number};

use super::Vec4;
use crate::digit::Digit;

impl Vec4 {
    /// `+` of two vectors of one width, signed or unsigned (IEEE 1364-2005, clause 5.1.5).
    pub fn add(self, other: Vec4) -> Vec4
        requires { length self ≡ length other }
        ensures { (signed : Bool) → result ≡ sum_of signed self other }
    {
        let known = self.unknown | other.unknown == 0;
        number_if_known(self.width, known, self.value.wrapping_add(other.value))
    }

    /// `-` of two vectors of one width, signed or unsigned (IEEE 1364-2005, clause 5.1.5).
    pub fn sub(self, other: Vec4) -> Vec4
        requires { length self ≡ length other }
        ensures { (signed : Bool) → result ≡ difference signed self other }
    {
        let known = self.unknown | other.unknown == 0;
        number_if_known(self.width, known, self.value.wrapping_sub(other.value))
    }

    /// `*` of two vectors of one width, signed or unsigned (IEEE 1364-2005, clause 5.1.5).
    pub fn mul(self, other: Vec4) -> Vec4
        requires { length self ≡ length other }
        ensures { (signed : Bool) → result ≡ product signed self other }
    {
        let known = self.unknown | other.unknown == 0;
        number_if_known(self.width, known, self.value.wrapping_mul(other.value))
    }

    /// `-` of one vector, signed or unsigned (IEEE 1364-2005, clause 5.1.5).
    pub fn neg(self) -> Vec4
        ensures { (signed : Bool) → result ≡ negation signed self }
    {
        number_if_known(self.width, self.unknown == 0, 0u64.wrapping_sub(self.value))
    }

    /// `+` of one vector: x in every place if a digit is x or z (IEEE 1364-2005, clause 5.1.5).
    pub fn plus(self) -> Vec4
        ensures { result ≡ unary_plus self }
    {
        number_if_known(self.width, self.unknown == 0, self.value)
    }
}

/// The vector of a number, wrapped to `width` digits (1 to 64), if the operands are `known`, else x
/// in every place.
fn number_if_known(width: u32, known: bool, number: u64) -> Vec4
    requires some { 0 < width }
    requires most { width ≤ 64 }
    ensures { result ≡ (if known then of_number width number else all_unknown width) }
{
    if known {
        Vec4::from_number(width, number)
    } else {
        Vec4::unknown(width)
    }
}
