//! Laws of the rules on edges and on readings.
ghost use Rattle.vs_rules_of_processes.specs.EdgePlaces.{EdgesAreByPlaces};
ghost use Rattle.vs_rules_of_processes.specs.ReadingPlaces.{ReadingsAreByPlaces};

/// A process that waits for edges keeps the rule K7 exactly where the places of its map do.
pub fn edges_are_by_places()
    ensures { EdgesAreByPlaces }
{}

/// A process that waits for edges or for times keeps the rule K9 exactly where the places of its map do.
pub fn readings_are_by_places()
    ensures { ReadingsAreByPlaces }
{}
