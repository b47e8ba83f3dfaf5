//! Laws of run slots and firing slots.
ghost use Rattle.vs_slots.specs.Runs.{DelayRunsAreExact, RunsAreExact};
ghost use Rattle.vs_slots.specs.Firing.{FiringIsExact};

/// A place where something is done has the run slots of its point.
pub fn runs_are_exact()
    ensures { RunsAreExact }
{}

/// So it has those that its point has by delay controls.
pub fn delay_runs_are_exact()
    ensures { DelayRunsAreExact }
{}

/// An event term can fire where a place of the writer of its root can make it fire.
pub fn firing_is_exact()
    ensures { FiringIsExact }
{}
