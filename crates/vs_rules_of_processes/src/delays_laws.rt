//! Laws of the rule K8.
ghost use Rattle.vs_rules_of_processes.specs.Residues.{ClosedAreKept};

/// A process that waits for times keeps the rule K8 exactly where `keeps_residues` says so of its text, its map and its lists; another one keeps it.
pub fn closed_are_kept()
    ensures { ClosedAreKept }
{}
