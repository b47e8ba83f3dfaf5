//! Laws of constants and clocks.
ghost use Rattle.vs_slots_constants.specs.Clocks.{ClocksByWriters};
ghost use Rattle.vs_slots_constants.specs.Givings.{GivesByPlaces};

/// What the statement at a point gives a bit is what the statement at its place on a map of the text gives it.
pub fn gives_by_places()
    ensures { GivesByPlaces }
{}

/// A signal is a clock exactly where it is one by the number of the process that is claimed to be its writer.
pub fn clocks_by_writers()
    ensures { ClocksByWriters }
{}
