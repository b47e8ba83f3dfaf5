//! The moves of an execution.

/// How finely processes may be interleaved.
#[derive(Clone, Copy, PartialEq, Eq, Debug)]
pub enum Grain {
    /// Every process may be suspended between any two steps (IEEE 1364-2005, clause 11.4.2).
    Statement,
    /// The same, but that a combinational block, once it has taken a step after its wake, runs to its control with nothing between.
    Block,
}

/// One step of an execution.
#[derive(Clone, Copy, PartialEq, Eq, Debug)]
pub enum Move {
    /// A step of an active process, by its number.
    Step(usize),
    /// The evaluation of a continuous assignment, by its number.
    Evaluate(usize),
    /// The update of a continuous assignment, by its number.
    Propagate(usize),
    /// An activated nonblocking update: by its place among those that wait, and in a run by its number among the activated ones.
    Make(usize),
    /// The inactive processes become active.
    Rouse,
    /// The nonblocking updates that are due in this slot are activated.
    Activate,
    /// The time slot ends.
    EndSlot,
}
