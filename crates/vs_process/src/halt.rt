//! How a step of a process ends.

use vs_design::{EventTerm, Ticks};

/// The timing control that a step of a process meets, where it meets one.
#[derive(Clone, Copy)]
pub enum Halt<'a> {
    /// None: the process goes on.
    Nothing,
    /// A delay of so many ticks, by the delay control of this number in the process's text (IEEE 1364-2005, clause 9.7.1).
    Delay(u32, Ticks),
    /// A wait for one of these terms, by the event control of this number in the process's text (clause 9.7.2).
    Wait(u32, &'a [EventTerm]),
}
