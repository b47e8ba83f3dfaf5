//! What a run of a source wrote, read back.
ghost use Rattle.std.specs.Prelude.{ℕ, List};
ghost use Rattle.vs_vcd_reader.specs.Conditions.{IsOutlined};
ghost use Rattle.vs_simulate.specs.Honesty.{Defines};
ghost use Rattle.vs_vcd_reader.specs.BackReadBack.{RunsReadBack};

use crate::ranges::bounds_are_short;
use crate::{complete_runs_end_slots, outlines_of_texts_are_in_order, run_dumps_are_read};
use vs_design::Design;

/// The outline of a design in memory that the bytes of a source and the name of a top module define declares each signal once, in design order, in
/// scopes below one top module, under printed names: so its value change dumps read back.
pub fn outline_is_in_order(design: &Design)
    ensures { (bytes top : List ℕ) → Defines bytes top design.now → IsOutlined design.now }
{
    outlines_of_texts_are_in_order();
    bounds_are_short(design.signals());
}

/// The value change dump of each run of a source that defines this design is of the layout, where the run went to its end, and else once a slot has
/// ended. At each time its variables have the values that the signals have at the end of the last slot at or before that time, and whatever `read`
/// answers of it is this dump.
pub fn dumps_of_runs_are_read(design: &Design)
    ensures { RunsReadBack design.now }
{
    run_dumps_are_read();
    complete_runs_end_slots();
    outline_is_in_order(design);
}
