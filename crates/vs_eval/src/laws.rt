//! Laws of event controls, each the contract of a function that does nothing.
ghost use Rattle.vs_eval.specs.Waking.{WakingByWords};

/// A write wakes what the changes of the words that its parts name wake, and looks at no other word.
pub fn waking_by_words()
    ensures { WakingByWords }
{}
