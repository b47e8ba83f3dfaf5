//! Laws of what processes read.
ghost use Rattle.vs_process.specs.Reads.{StepsReadWhatIsNamed, ReadsAreNamed, LinesReadWhatIsNamed, StrobesReadWhatIsNamed, NoReadIsAdded, AllReadsAreThere, ProcessesReadWhatIsNamed};

/// A step of a process hangs on no more of the store than what it reads, and each range of that is named by a statement which the process still had to
/// do; what a `$display` and a `$strobe` print hangs on what the text of such a statement names. Behind the step the process has no statement to do that
/// names anything else (IEEE 1364-2005, clauses 9, 17.1 and 11.3).
pub fn steps_read_what_is_named()
    ensures kept { StepsReadWhatIsNamed }
    ensures named { ReadsAreNamed }
    ensures lines { LinesReadWhatIsNamed }
    ensures strobes { StrobesReadWhatIsNamed }
    ensures left { NoReadIsAdded }
    ensures begun { AllReadsAreThere }
{}

/// However many steps a process takes, and whatever the stores that it finds, it reads no bit that its body doesn't name: where none of these differs, its
/// next step is the same in two stores, with all that it writes and prints (IEEE 1364-2005, clause 9).
pub fn processes_read_what_is_named()
    ensures { ProcessesReadWhatIsNamed }
{}
