//! The laws of independence.
ghost use Rattle.vs_independence.specs.Discipline.{DisciplineMakesIndependent};
ghost use Rattle.vs_independence.specs.Displays.{DisciplineMakesDisplaysAlike, LinesAreOfSlots};

/// All executions of a well formed, disciplined design that are complete to a moment have the same trace to it, at both grains. Its combinational
/// blocks are drivers, as its continuous assignments are; the event controls of its other processes wait for variables of one bit, and for nets that
/// copy such a variable or its inverse.
pub fn discipline_makes_independent()
    ensures { DisciplineMakesIndependent }
{}

/// In two such executions each process that is no combinational block prints the same lines by `$display`, in the same order, in each slot that
/// ended at the moment or before it, where no other process and no unsettled driver can change in its slot what the process prints
/// (IEEE 1364-2005, clause 17.1.1).
pub fn discipline_makes_displays_alike()
    ensures { DisciplineMakesDisplaysAlike }
{}

/// The lines of an execution are those of its slots: in each the lines of `$display`, in the order of their steps, and then those of its
/// `$strobe` calls.
pub fn lines_are_of_slots()
    ensures { LinesAreOfSlots }
{}
