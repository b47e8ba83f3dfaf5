//! What a run records of its value change dump.
ghost use Rattle.std.specs.Prelude.{◌≡◌, ◌≤◌, ◌^◌, ◌++◌, ◌∷◌, [], List, IfOk, OnOk, is_some, length};
ghost use Rattle.vs_design.specs.Parts.{Parts};
ghost use Rattle.vs_design.specs.Traces.{Slot};
ghost use Rattle.vs_run_steps.specs.Recording.{HasNoted, CoversNoted};
ghost use Rattle.vs_vcd_writing.specs.Progress.{vcd_slot, IsSlotAt, is_write_fault, WritesPiece};
ghost use Rattle.vs_vcd_writing.specs.Sinks.{failed_after};
ghost use Rattle.vs_vcd_writing.specs.Text.{vcd_header, vcd_slots, vcd_end};

use std::alloc::Global;
use std::marker::Model;
use vs_design::{Design, Store};
use vs_vcd_writing::{Sink, Writer, WriterFault};

/// The writer of a run's dump; none for a sink that keeps nothing. A contract sees how far it has come.
pub struct Recorder {
    writer: Option<Writer>,
}

impl Drop for Recorder {
    fn drop(self) {
        let Self { writer: _ } = self;
    }
}

impl Model for Recorder {
    ghost use Rattle.std.specs.Prelude.{Option};
    ghost use Rattle.vs_vcd_writing.specs.Progress.{Progress};

    ghost Value = { Option Progress };

    ghost view = { λ r. r.writer };
}

impl Recorder {
    /// Writes the header of a design, unless the sink keeps nothing.
    pub fn start<S: Sink>(alloc: Global, sink: &mut S, design: &Design) -> Result<Self, WriterFault>
        ensures written { IfOk result (λ r. HasNoted r (S.bytes sink.new) design.now []) }
        ensures bytes { WritesPiece result (S.bytes sink.old) (S.bytes sink.new) (vcd_header design.now) }
        ensures failures { S.failed sink.new ≡ failed_after (is_write_fault result) (S.failed sink.old) }
    {
        if sink.keeps_nothing() {
            return Ok(Recorder { writer: None });
        }
        let writer = Writer::header(alloc, sink, design)?;
        Ok(Recorder {
            writer: Some(writer),
        })
    }

    /// Whether slots are written.
    #[inline(always)]
    pub fn is_writing(&self) -> bool
        ensures { result ≡ is_some self.now }
    {
        self.writer.is_some()
    }

    /// Writes the next slot, of which only the signals whose blocks are marked need be looked at.
    #[inline(always)]
    pub fn slot<S: Sink>(
        &mut self,
        sink: &mut S,
        time: u64,
        store: &Store,
        marks: &[u64],
    ) -> Result<(), WriterFault>
        requires few { length marks.now ≤ 2 ^ 57 }
        requires covers { CoversNoted marks.now self.old store.now }
        ensures written { OnOk result ((d : Parts) (slots : List Slot) (s : Slot)
            → HasNoted self.old (S.bytes sink.old) d slots → IsSlotAt s time store.now
            → HasNoted self.new (S.bytes sink.new) d (slots ++ s ∷ [])) }
        ensures bytes { (d : Parts) (slots : List Slot) (s : Slot)
            → HasNoted self.old (S.bytes sink.old) d slots → IsSlotAt s time store.now
            → WritesPiece result (S.bytes sink.old) (S.bytes sink.new) (vcd_slot d slots s) }
        ensures failures { S.failed sink.new ≡ failed_after (is_write_fault result) (S.failed sink.old) }
        ensures covered { OnOk result (CoversNoted [] self.new store.now) }
        ensures writes { OnOk result (is_some self.new ≡ is_some self.old) }
        ensures pieces { (d : Parts) (slots : List Slot) (s : Slot)
            → vcd_slots d (slots ++ s ∷ []) ≡ vcd_slots d slots ++ vcd_slot d slots s }
    {
        match &mut self.writer {
            Some(writer) => writer.slot_marked(sink, time, store, marks),
            None => Ok(()),
        }
    }

    /// Writes the end of the dump.
    pub fn finish<S: Sink>(mut self, sink: &mut S, time: u64) -> Result<(), WriterFault>
        ensures bytes { (d : Parts) (slots : List Slot) → HasNoted self (S.bytes sink.old) d slots
            → WritesPiece result (S.bytes sink.old) (S.bytes sink.new) (vcd_end d slots time) }
        ensures failures { S.failed sink.new ≡ failed_after (is_write_fault result) (S.failed sink.old) }
    {
        match self.writer.take() {
            Some(writer) => writer.finish(sink, time),
            None => Ok(()),
        }
    }
}
