//! Laws of steps of one process that are taken one after another.
ghost use Rattle.vs_run_active.specs.Taken.{NoneAreTaken, StepsAreTaken, StepsLeaveSo};

/// The state after steps of a process is what each leaves, with the process at the place where the last one leads.
pub fn steps_are_taken()
    ensures none { NoneAreTaken }
    ensures more { StepsAreTaken }
    ensures leave { StepsLeaveSo }
{}
