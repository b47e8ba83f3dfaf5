//! The reduction operators.
ghost use Rattle.std.specs.Prelude.{◌≡◌};
ghost use Rattle.vs_logic4.specs.Bitwise.{reduced_and, reduced_or, reduced_xor};

use super::{Vec4, low_ones};
use crate::digit::Digit;

impl Vec4 {
    /// `&` of all digits (IEEE 1364-2005, clause 5.1.11).
    pub fn reduce_and(self) -> Digit
        ensures { result ≡ reduced_and self }
    {
        let zeros = (self.value | self.unknown) ^ low_ones(self.width);
        Digit::decided_or(zeros != 0, Digit::Zero, self.unknown == 0, Digit::One)
    }

    /// `|` of all digits (IEEE 1364-2005, clause 5.1.11).
    pub fn reduce_or(self) -> Digit
        ensures { result ≡ reduced_or self }
    {
        self.truth()
    }

    /// `^` of all digits (IEEE 1364-2005, clause 5.1.11).
    pub fn reduce_xor(self) -> Digit
        ensures { result ≡ reduced_xor self }
    {
        if self.unknown == 0 {
            Digit::from_test(self.value.count_ones() % 2 == 1)
        } else {
            Digit::X
        }
    }
}
