//! A text is one dump, or has faults.
ghost use Rattle.vs_vcd_reader.specs.Laws.{DumpsAreOne, FaultsAreOfNone};

/// A text says one thing.
pub fn dumps_are_one()
    ensures { DumpsAreOne }
{}

/// A text with a fault other than want of memory is no dump.
pub fn faults_are_of_none()
    ensures { FaultsAreOfNone }
{}
