//! Outlines of designs.
ghost use Rattle.vs_vcd_reader.specs.Outlined.{NamesArePrinted, OutlinesAreInOrder, OutlinesOfTextsAreInOrder};

use vs_elaborate::{names_are_of_source, names_are_printable, names_of_modules_are_tokens};

/// The outline of a design that a source and a top define declares each signal once, in design order, in scopes below one top module, where the
/// names of the design are as they are printed.
pub fn outlines_are_in_order()
    ensures { OutlinesAreInOrder }
{}

/// The names of a design that a text and a top define are as they are printed: a simple identifier, or an escaped one with its backslash and one
/// space after it; of a turn of a generate loop with the value of its genvar.
pub fn names_are_printed()
    ensures { NamesArePrinted }
{
    names_are_printable();
    names_of_modules_are_tokens();
    names_are_of_source();
}

/// The outline of a design that a text and a top define declares each signal once, in design order, in scopes below one top module, under printed
/// names.
pub fn outlines_of_texts_are_in_order()
    ensures { OutlinesOfTextsAreInOrder }
{
    names_are_printed();
    outlines_are_in_order();
}
