//! What a unit of time and a tick stand for (IEEE 1364-2005, clause 19.8).

/// How many of a unit.
#[derive(Clone, Copy, PartialEq, Eq)]
pub enum Magnitude {
    /// 1
    One,
    /// 10
    Ten,
    /// 100
    Hundred,
}

/// A unit of time.
#[derive(Clone, Copy, PartialEq, Eq)]
pub enum TimeUnit {
    /// `s`
    Second,
    /// `ms`
    Millisecond,
    /// `us`
    Microsecond,
    /// `ns`
    Nanosecond,
    /// `ps`
    Picosecond,
    /// `fs`
    Femtosecond,
}

/// A span of time: so many of a unit.
#[derive(Clone, Copy, PartialEq, Eq)]
pub struct TimeSpan {
    /// How many.
    pub magnitude: Magnitude,
    /// Of which unit.
    pub unit: TimeUnit,
}

/// The unit in which delays are written, and the precision, which is what a tick stands for.
#[derive(Clone, Copy, PartialEq, Eq)]
pub struct Timescale {
    /// The unit.
    pub unit: TimeSpan,
    /// The precision.
    pub precision: TimeSpan,
}

const NANOSECOND: TimeSpan = TimeSpan {
    magnitude: Magnitude::One,
    unit: TimeUnit::Nanosecond,
};

/// The time scale of a text without a directive: 1 ns for both (profile).
pub const DEFAULT_TIMESCALE: Timescale = Timescale {
    unit: NANOSECOND,
    precision: NANOSECOND,
};
