//! Beginnings of the line that says what a tick stands for.
ghost use Rattle.std.specs.Prelude.{IsTrue, ◌↔◌};
ghost use Rattle.vs_vcd_reader.specs.Steps.{Place as p};
ghost use Rattle.vs_vcd_reader.specs.Stops.{GoesOn};

use vs_vcd_lines::{after, begins, begins_span};

/// Whether a text is empty, or begins a line that says what a tick stands for.
pub(crate) fn tick_goes_on(part: &[u8]) -> bool
    ensures { IsTrue result ↔ GoesOn p.Start part.now }
{
    match after(part, b"$timescale ") {
        Some(rest) => begins_span(rest),
        None => begins(part, b"$timescale "),
    }
}
