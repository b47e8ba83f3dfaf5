//! Laws of paths and scopes: each is the contract of a function that does nothing.
ghost use Rattle.vs_elab_hierarchy.specs.Laws.{PrintedPathsDiffer, PrintedPartsDiffer, TurnsDiffer, PathsDiffer, TurnsFit, ScopesAreNumbered, ScopesAreNested};

/// Paths that are printed alike are equal.
pub fn printed_paths_differ()
    ensures { PrintedPathsDiffer }
{}

/// Parts that are printed alike have one path, and one name there.
pub fn printed_parts_differ()
    ensures { PrintedPartsDiffer }
{}

/// The turns of a generate loop that ends have different numbers.
pub fn turns_differ()
    ensures { TurnsDiffer }
{}

/// Where each scope of a source declares a name once, paths of scopes and of signals differ.
pub fn paths_differ()
    ensures { PathsDiffer }
{}

/// The turns in the paths of a source have numbers that 64 bits hold.
pub fn turns_fit()
    ensures { TurnsFit }
{}

/// Scopes are numbered in design order, and so are their signals, instances and turns.
pub fn scopes_are_numbered()
    ensures { ScopesAreNumbered }
{}

/// Each scope of a source is its top, or stands in another scope of the source.
pub fn scopes_are_nested()
    ensures { ScopesAreNested }
{}
