//! What the event queue keeps.

use crate::late::Held;

/// An item of the event queue.
#[derive(Drop)]
pub enum Due {
    /// The delay of a process ends (IEEE 1364-2005, clause 9.7.1).
    Wake(usize),
    /// A nonblocking update with a delay becomes due (clause 9.2.2).
    Late(Held),
}
