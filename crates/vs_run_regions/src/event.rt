//! The events of the active region (IEEE 1364-2005, clause 11.3).

/// An event that is active.
#[derive(Clone, Copy)]
pub enum Event {
    /// A process.
    Step(usize),
    /// The evaluation of a continuous assignment.
    Evaluate(usize),
    /// The update of a continuous assignment.
    Propagate(usize),
    /// Those of the continuous assignments of a group.
    Group(usize),
    /// An activated nonblocking update, by its number among these.
    Make(usize),
    /// The activated nonblocking updates, the oldest first.
    Updates,
}
