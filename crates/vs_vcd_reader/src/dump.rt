//! What a value change dump says (IEEE 1364-2005, clause 18).
use vs_design::TimeSpan;
use vs_vcd_lines::{Declaration, ValueChange};

/// A time, and the values that are written at it.
#[derive(Drop)]
pub struct Moment {
    /// The time in ticks.
    pub time: u64,
    /// The values, in the order of the codes.
    pub changes: Vec<ValueChange>,
}

/// What a value change dump says.
#[derive(Drop)]
pub struct Dump {
    /// What a tick stands for.
    pub tick: TimeSpan,
    /// The scopes and variables, in the order of their lines.
    pub declarations: Vec<Declaration>,
    /// The times, the earliest first. The last one has no values where it is the end alone.
    pub moments: Vec<Moment>,
}
