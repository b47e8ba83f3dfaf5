//! Laws of what processes write.
ghost use Rattle.vs_process.specs.ThreadLaws.{WritesAreNamed, UpdatesAreNamed, NoneIsAdded, AllAreThere, ProcessesWriteWhatIsNamed, WritesHaveParts};

/// What a step of a process writes is named by a statement that the process still had to do, and behind the step it has none to do that names
/// anything else (IEEE 1364-2005, clauses 9.2 and 11.3).
pub fn steps_write_what_is_named()
    ensures written { WritesAreNamed }
    ensures updated { UpdatesAreNamed }
    ensures left { NoneIsAdded }
    ensures begun { AllAreThere }
{}

/// However many steps a process takes, and whatever the stores that it finds, it writes no bit that its body doesn't name (IEEE 1364-2005,
/// clauses 9.2 and 9.9).
pub fn processes_write_what_is_named()
    ensures { ProcessesWriteWhatIsNamed }
{}

/// No write of a well-formed design is empty, neither one of a process, at once or by an update, nor one of a continuous assignment (IEEE 1364-2005,
/// clauses 6.1 and 9.2).
pub fn writes_have_parts()
    ensures { WritesHaveParts }
{}
