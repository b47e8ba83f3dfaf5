//! Beginnings of the lines of times.
ghost use Rattle.std.specs.Prelude.{ℕ, List, IsTrue, ◌↔◌};
ghost use Rattle.vs_design.specs.vs_logic4.specs.declared.digit.Digit.{Digit};
ghost use Rattle.vs_vcd_reader.specs.Bodies.{IsFromTime};
ghost use Rattle.vs_vcd_reader.specs.Steps.{Place as p};
ghost use Rattle.vs_vcd_reader.specs.Stops.{GoesOn};

use vs_vcd_lines::{is_same, reaches, time_of};

/// Whether a text is empty, or begins the line of a time above the last one, where that one doesn't stand alone.
pub(crate) fn time_goes_on(part: &[u8], last: u64, bare: bool) -> bool
    ensures { (ws : List ℕ) (vs : List (List Digit)) (from : ℕ) → IsFromTime ws from part.now
        → (IsTrue result ↔ GoesOn (p.Later ws vs last from bare) part.now) }
{
    if part.is_empty() {
        return true;
    }
    if bare {
        return false;
    }
    let alone = is_same(part, b"#");
    if alone {
        return last < u64::MAX;
    }
    match time_of(part) {
        Some(time) => reaches(time, last),
        None => false,
    }
}
