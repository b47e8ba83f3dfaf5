//! Laws of flat code.
ghost use Rattle.vs_process.specs.Texts.{ControlsAreApart};
ghost use Rattle.vs_process.specs.Ways.{OnePlace, WaysAre};

/// The places of the code of a body are points of its text, and the ways from each place are the paths of the text from there, with the delays
/// and the terms of its controls: every branch, both outcomes of every test (IEEE 1364-2005, clauses 9.4 to 9.7).
pub fn ways_are()
    ensures { WaysAre }
{}

/// Where the numbers of a body count up, two places of its code where statements are done and that are one point of the text are one place.
pub fn one_place()
    ensures { OnePlace }
{}

/// The event controls of a text are told apart by their numbers (IEEE 1364-2005, clause 9.7.2).
pub fn controls_are_apart()
    ensures { ControlsAreApart }
{}
