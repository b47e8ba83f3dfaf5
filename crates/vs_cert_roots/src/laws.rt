//! Laws of roots.
ghost use Rattle.vs_cert_roots.specs.First.{FirstByPlaces};
ghost use Rattle.vs_cert_roots.specs.Roots.{RootsByPlaces};

/// A writer of a root writes it nowhere where it is hot, exactly where this holds of the places of its map.
pub fn roots_by_places()
    ensures { RootsByPlaces }
{}

/// A root is given what the rule K10 allows in the first slot, exactly where this holds of the places of maps.
pub fn first_by_places()
    ensures { FirstByPlaces }
{}
