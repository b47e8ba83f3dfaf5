//! Laws of writes, each the contract of a function that does nothing.
ghost use Rattle.vs_design.specs.Laws.{NamesHold};

/// The signals that `Write::names` answers for are all that a write changes.
pub fn names_hold()
    ensures { NamesHold }
{}
