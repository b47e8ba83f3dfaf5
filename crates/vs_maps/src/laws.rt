//! Laws of maps.
ghost use Rattle.vs_maps.specs.Exact.{TextsAreExact};
ghost use Rattle.vs_maps.specs.Laws.{MapsAreExact};

/// What is reached on a map is what paths of the text lead to.
pub fn maps_are_exact()
    ensures { MapsAreExact }
{}

/// The tables of a process say of each place where something is done what the paths of its text say.
pub fn texts_are_exact()
    ensures { TextsAreExact }
{}
