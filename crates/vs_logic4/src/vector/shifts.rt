//! The shift operators.
ghost use Rattle.std.specs.Prelude.{◌≡◌};
ghost use Rattle.vs_logic4.specs.Shifts.{left_shift, right_shift};

use super::Vec4;
use super::planes::{left_within, right_within};

impl Vec4 {
    /// `<<` and `<<<` by an unsigned amount of any width: x in every place if the amount has an x or
    /// z (IEEE 1364-2005, clause 5.1.12).
    pub fn shift_left(self, amount: Vec4) -> Vec4
        ensures { result ≡ left_shift self amount }
    {
        if amount.unknown == 0 {
            Vec4 {
                width: self.width,
                value: left_within(self.value, self.width, amount.value),
                unknown: left_within(self.unknown, self.width, amount.value),
            }
        } else {
            Vec4::unknown(self.width)
        }
    }

    /// `>>`, and where `signed` the `>>>` of a signed value, by an unsigned amount of any width: x in
    /// every place if the amount has an x or z (IEEE 1364-2005, clause 5.1.12).
    pub fn shift_right(self, amount: Vec4, signed: bool) -> Vec4
        ensures { result ≡ right_shift signed self amount }
    {
        if amount.unknown == 0 {
            Vec4 {
                width: self.width,
                value: right_within(self.value, self.width, amount.value, signed),
                unknown: right_within(self.unknown, self.width, amount.value, signed),
            }
        } else {
            Vec4::unknown(self.width)
        }
    }
}
