//! Written dumps, read back.
ghost use Rattle.std.specs.Prelude.{◌≡◌, ℕ, ◌++◌, List, IfSome, map};
ghost use Rattle.vs_design.specs.Parts.{Parts};
ghost use Rattle.vs_design.specs.Traces.{Slot, Trace};
ghost use Rattle.vs_vcd_writing.specs.Codes.{shown};
ghost use Rattle.vs_vcd_writing.specs.Shown.{slot_at};
ghost use Rattle.vs_vcd_writing.specs.Text.{end_time, vcd_header, vcd_slots, vcd_text};
ghost use Rattle.vs_vcd_writing.specs.Values.{shown_value};
ghost use Rattle.vs_vcd_reader.specs.declared.dump.Dump.{Dump};
ghost use Rattle.vs_vcd_reader.specs.declared.fault.VcdFault.{VcdFault};
ghost use Rattle.vs_vcd_reader.specs.declared.fault.VcdFault.TheVariants.{Memory};
ghost use Rattle.vs_vcd_reader.specs.Faults.{IsFault};
ghost use Rattle.vs_vcd_reader.specs.Layout.{IsDump, IsLayout};
ghost use Rattle.vs_vcd_reader.specs.Plain.{plain_dump};
ghost use Rattle.vs_vcd_reader.specs.Conditions.{AreWhole, IsEnd, IsOutlined};
ghost use Rattle.vs_vcd_reader.specs.OneFault.{FaultsAreOne};
ghost use Rattle.vs_vcd_reader.specs.Said.{dump_begun, dump_of};
ghost use Rattle.vs_vcd_reader.specs.Values.{values_at};

/// The text that is written of a trace is a value change dump, and says what the trace shows. So it does without its end.
///
/// Whatever `read` answers of the text by its contract is this dump, and no fault of the text.
pub fn written_dumps_are_read()
    ensures whole { (d : Parts) (trace : Trace) (until : ℕ) → IsOutlined d → AreWhole d trace.slots
        → IsEnd trace.slots (end_time trace until)
        → IsLayout (vcd_text d trace until) (dump_of d trace until) }
    ensures begun { (d : Parts) (slots : List Slot) → IsOutlined d → AreWhole d slots
        → IsLayout (vcd_header d ++ vcd_slots d slots) (dump_begun d slots) }
    ensures alone { (d : Parts) (trace : Trace) (until : ℕ) → IsOutlined d → AreWhole d trace.slots
        → IsEnd trace.slots (end_time trace until)
        → ((x : Dump) → IsDump (vcd_text d trace until) x → plain_dump x ≡ dump_of d trace until)
        × ((fault : VcdFault) → IsFault (vcd_text d trace until) fault → fault ≡ Memory) }
{}

/// The values of the variables at each time, in the order of their codes, are those that the signals have in the store at the end of the last slot
/// at or before that time.
pub fn dumps_give_values()
    ensures whole { (d : Parts) (trace : Trace) (until time : ℕ) → AreWhole d trace.slots
        → IfSome (slot_at time trace.slots) (λ s. values_at time (dump_of d trace until).moments ≡ map (shown_value s.store) (shown d)) }
    ensures begun { (d : Parts) (slots : List Slot) (time : ℕ) → AreWhole d slots
        → IfSome (slot_at time slots) (λ s. values_at time (dump_begun d slots).moments ≡ map (shown_value s.store) (shown d)) }
{}

/// A text has one fault, other than want of memory.
pub fn faults_are_one()
    ensures { FaultsAreOne }
{}
