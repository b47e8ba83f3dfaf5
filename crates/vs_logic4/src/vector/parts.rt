//! Parts of a vector, and vectors joined.
ghost use Rattle.std.specs.Prelude.{◌≡◌, ◌<◌, ◌≤◌, ◌+◌, ◌*◌, length, take};
ghost use Rattle.vs_logic4.specs.Parts.{selected, with_part, concatenation, replication};

use super::planes::{lowered, raised};
use super::{Vec4, low_ones};

impl Vec4 {
    /// The `width` digits (1 to 64) from `low` on, counted from the lowest digit: x where they are
    /// out of range (IEEE 1364-2005, clause 5.2.1).
    pub fn select(self, low: i64, width: u32) -> Vec4
        requires some { 0 < width }
        requires most { width ≤ 64 }
        ensures { result ≡ selected low width self }
    {
        let inside = low_ones(self.width);
        let ones = low_ones(width);
        Vec4 {
            width,
            value: lowered(self.value ^ inside, low) & ones ^ ones,
            unknown: lowered(self.unknown ^ inside, low) & ones ^ ones,
        }
    }

    /// This vector with `part` in the places from `low` on: nothing is written out of range
    /// (IEEE 1364-2005, clause 5.2.1).
    pub fn put(self, low: i64, part: Vec4) -> Vec4
        ensures { result ≡ with_part low part self }
    {
        let written = raised(low_ones(part.width), low) & low_ones(self.width);
        let value = raised(part.value, low);
        let unknown = raised(part.unknown, low);
        Vec4 {
            width: self.width,
            value: self.value ^ (self.value ^ value) & written,
            unknown: self.unknown ^ (self.unknown ^ unknown) & written,
        }
    }

    /// `{self, low}`: `low` in the lowest places and this vector above it, of at most 64 digits
    /// (IEEE 1364-2005, clause 5.1.14).
    pub fn concat(self, low: Vec4) -> Vec4
        requires { length self + length low ≤ 64 }
        ensures { result ≡ concatenation self low }
    {
        Vec4 {
            width: self.width + low.width,
            value: self.value << low.width | low.value,
            unknown: self.unknown << low.width | low.unknown,
        }
    }

    /// `{count{self}}`, of 1 to 64 digits (IEEE 1364-2005, clause 5.1.14).
    pub fn repeat(self, count: u32) -> Vec4
        requires some { 0 < count }
        requires most { length self * count ≤ 64 }
        ensures { result ≡ replication count self }
    {
        let width = self.width * count;
        let each = low_ones(width) / low_ones(self.width);
        Vec4 {
            width,
            value: self.value * each,
            unknown: self.unknown * each,
        }
    }

    /// `{self, low}`, cut to its lowest 64 digits (IEEE 1364-2005, clause 5.1.14).
    pub fn join(self, low: Vec4) -> Vec4
        ensures { result ≡ take 64 (concatenation self low) }
    {
        let room = 64 - low.width();
        if self.width() <= room {
            self.concat(low)
        } else if room == 0 {
            low
        } else {
            self.resize(room, false).concat(low)
        }
    }

    /// `{count{self}}`, cut to its lowest 64 digits (IEEE 1364-2005, clause 5.1.14).
    pub fn repeated(self, count: u32) -> Vec4
        requires some { 0 < count }
        requires most { count ≤ 64 }
        ensures { result ≡ take 64 (replication count self) }
    {
        let width = self.width();
        if width * count <= 64 {
            self.repeat(count)
        } else {
            self.join(self.repeat(64 / width))
        }
    }
}
