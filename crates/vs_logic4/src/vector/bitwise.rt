//! The bitwise operators, on both planes at once.
ghost use Rattle.std.specs.Prelude.{◌≡◌, length};
ghost use Rattle.vs_logic4.specs.Bitwise.{bitwise_and, bitwise_or, bitwise_xor, bitwise_xnor, bitwise_not, merged};

use super::{Vec4, low_ones};

impl Vec4 {
    /// Bitwise `&` of two vectors of one width (IEEE 1364-2005, clause 5.1.10).
    pub fn and(self, other: Vec4) -> Vec4
        requires { length self ≡ length other }
        ensures { result ≡ bitwise_and self other }
    {
        let value = (self.value | self.unknown) & (other.value | other.unknown);
        Vec4 {
            width: self.width,
            value,
            unknown: value & (self.unknown | other.unknown),
        }
    }

    /// Bitwise `|` of two vectors of one width (IEEE 1364-2005, clause 5.1.10).
    pub fn or(self, other: Vec4) -> Vec4
        requires { length self ≡ length other }
        ensures { result ≡ bitwise_or self other }
    {
        let unknown = self.unknown | other.unknown;
        let ones = self.value & !self.unknown | other.value & !other.unknown;
        Vec4 {
            width: self.width,
            value: self.value | other.value | unknown,
            unknown: unknown & !ones,
        }
    }

    /// Bitwise `^` of two vectors of one width (IEEE 1364-2005, clause 5.1.10).
    pub fn xor(self, other: Vec4) -> Vec4
        requires { length self ≡ length other }
        ensures { result ≡ bitwise_xor self other }
    {
        let unknown = self.unknown | other.unknown;
        Vec4 {
            width: self.width,
            value: self.value ^ other.value | unknown,
            unknown,
        }
    }

    /// Bitwise `~^` of two vectors of one width (IEEE 1364-2005, clause 5.1.10).
    pub fn xnor(self, other: Vec4) -> Vec4
        requires { length self ≡ length other }
        ensures { result ≡ bitwise_xnor self other }
    {
        let unknown = self.unknown | other.unknown;
        Vec4 {
            width: self.width,
            value: self.value ^ other.value ^ low_ones(self.width) | unknown,
            unknown,
        }
    }

    /// Bitwise `~` (IEEE 1364-2005, clause 5.1.10).
    pub fn not(self) -> Vec4
        ensures { result ≡ bitwise_not self }
    {
        Vec4 {
            width: self.width,
            value: self.value ^ low_ones(self.width) | self.unknown,
            unknown: self.unknown,
        }
    }

    /// What `?:` gives of its two branches, of one width, where its condition is unknown: equal
    /// known digits stay, all else is x (IEEE 1364-2005, clause 5.1.13).
    pub fn merge(self, other: Vec4) -> Vec4
        requires { length self ≡ length other }
        ensures { result ≡ merged self other }
    {
        let unknown = self.unknown | other.unknown | self.value ^ other.value;
        Vec4 {
            width: self.width,
            value: self.value | unknown,
            unknown,
        }
    }
}
