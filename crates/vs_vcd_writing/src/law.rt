//! Laws of the text of a value change dump.
ghost use Rattle.std.specs.Prelude.{ℕ, ◌++◌, List, IfSome};
ghost use Rattle.std.specs.List.{Contains};
ghost use Rattle.vs_design.specs.OneLine.{HasNamesOfOneLine};
ghost use Rattle.vs_design.specs.Parts.{Parts};
ghost use Rattle.vs_design.specs.Traces.{Slot, Trace, AreRising};
ghost use Rattle.vs_vcd_writing.specs.Codes.{shown};
ghost use Rattle.vs_vcd_writing.specs.Values.{shown_value};
ghost use Rattle.vs_vcd_writing.specs.Text.{vcd_text, vcd_header, vcd_slots};
ghost use Rattle.vs_vcd_writing.specs.Shown.{HasSize, Shows, ShowsOne, slot_at};

/// A dump shows of each signal that is no array, at each time, its value at the end of the last slot at or before that time, where this has the
/// signal's size. It does so with its end, and without it.
pub fn shows_values_at_slot_ends()
    ensures whole { (d : Parts) (trace : Trace) (until time signal : ℕ)
        → HasNamesOfOneLine d → AreRising trace.slots → Contains (shown d) signal
        → IfSome (slot_at time trace.slots)
        (λ s. HasSize d s.store signal → Shows (vcd_text d trace until) d time signal (shown_value s.store signal)) }
    ensures begun { (d : Parts) (slots : List Slot) (time signal : ℕ)
        → HasNamesOfOneLine d → AreRising slots → Contains (shown d) signal
        → IfSome (slot_at time slots)
        (λ s. HasSize d s.store signal → Shows (vcd_header d ++ vcd_slots d slots) d time signal (shown_value s.store signal)) }
{}

/// A dump shows no two values of one signal at one time.
pub fn shows_one_value()
    ensures { ShowsOne }
{}
