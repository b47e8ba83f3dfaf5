//! Laws of what `$strobe` prints.
ghost use Rattle.vs_sign_off.specs.Strobes.{AllLinesAreStrobed, SameTracesPrintRowsAsOften};

/// The lines of an execution of a design without `$display` are those of `$strobe` of the slots that ended.
pub fn all_lines_are_strobed()
    ensures { AllLinesAreStrobed }
{}

/// In what `$strobe` prints of two executions with the same trace each row stands equally often, whatever the order.
pub fn same_traces_print_rows_as_often()
    ensures { SameTracesPrintRowsAsOften }
{}
