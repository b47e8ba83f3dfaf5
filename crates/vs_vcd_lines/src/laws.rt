//! What a line says, it says alone.
ghost use Rattle.vs_vcd_lines.specs.Laws.{VariableLinesAreOne};

/// A line declares one variable, whose code has one number.
pub fn variable_lines_are_one()
    ensures { VariableLinesAreOne }
{}
