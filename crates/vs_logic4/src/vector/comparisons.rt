//! The truth of a vector and the equality operators.
ghost use Rattle.std.specs.Prelude.{◌≡◌, length};
ghost use Rattle.vs_logic4.specs.Comparisons.{is_known, truth, logical_equality, casez_equality, casex_equality};

use super::Vec4;
use crate::digit::Digit;

impl Vec4 {
    /// Whether no digit is x or z.
    pub fn is_known(self) -> bool
        ensures { result ≡ is_known self }
    {
        self.unknown == 0
    }

    /// The truth of this vector: 1 if some digit is 1, 0 if all are 0, else x
    /// (IEEE 1364-2005, clause 5.1.9).
    pub fn truth(self) -> Digit
        ensures { result ≡ truth self }
    {
        let some_one = self.value & !self.unknown != 0;
        Digit::decided_or(
            some_one,
            Digit::One,
            self.value | self.unknown == 0,
            Digit::Zero,
        )
    }

    /// `==` of two vectors of one width: 0 if two known digits differ at some position, else x if a
    /// digit is x or z, else 1 (IEEE 1364-2005, clause 5.1.8).
    pub fn eq(self, other: Vec4) -> Digit
        requires { length self ≡ length other }
        ensures { result ≡ logical_equality self other }
    {
        let unknown = self.unknown | other.unknown;
        let differ = (self.value ^ other.value) & !unknown != 0;
        Digit::decided_or(differ, Digit::Zero, unknown == 0, Digit::One)
    }

    /// Whether two vectors of one width match in `casez`: a z on either side matches all
    /// (IEEE 1364-2005, clause 9.5.1).
    pub fn casez_eq(self, other: Vec4) -> bool
        requires { length self ≡ length other }
        ensures { result ≡ casez_equality self other }
    {
        let high_impedance = self.unknown & !self.value | other.unknown & !other.value;
        let differ = self.value ^ other.value | self.unknown ^ other.unknown;
        differ & !high_impedance == 0
    }

    /// Whether two vectors of one width match in `casex`: an x or z on either side matches all
    /// (IEEE 1364-2005, clause 9.5.1).
    pub fn casex_eq(self, other: Vec4) -> bool
        requires { length self ≡ length other }
        ensures { result ≡ casex_equality self other }
    {
        (self.value ^ other.value) & !(self.unknown | other.unknown) == 0
    }
}
