//! The writer of a value change dump.
ghost use Rattle.std.specs.Prelude.{◌≡◌, ◌≤◌, ◌^◌, ℕ, ◌++◌, ◌∷◌, [], List, IfOk, OnOk, OnErr, None, is_none, length};
ghost use Rattle.vs_design.specs.Parts.{Parts};
ghost use Rattle.vs_design.specs.Traces.{Slot};
ghost use Rattle.vs_vcd_writing.specs.Sinks.{failed_after};
ghost use Rattle.vs_vcd_writing.specs.Kept.{codes_of, next_changes, change_texts, slot_lines, slot_time, next_kept, time_kept};
ghost use Rattle.vs_vcd_writing.specs.Rooms.{IsRoom};
ghost use Rattle.vs_vcd_writing.specs.Text.{text_of, end_lines, vcd_header, vcd_slots, vcd_end};
ghost use Rattle.vs_vcd_writing.specs.Progress.{vcd_slot, HasWritten, Covers, Follows, IsSlotAt, is_write_fault, WritesPiece};

use crate::changes::list_changes;
use crate::codes::code_numbers;
use crate::fault::WriterFault;
use crate::header::header_text;
use crate::kept::{DumpChange, Written};
use crate::lines::{push_first, push_later, push_time};
use crate::room::LineRoom;
use crate::sink::{Sink, write_all};
use std::alloc::{AllocError, Global};
use std::marker::Model;
use vs_design::{Design, Store};

/// Appends the lines of a slot by its changes, and answers the last time written.
fn push_slot(
    text: &mut Vec<u8>,
    changes: &[DumpChange],
    last: Option<u64>,
    time: u64,
) -> Result<u64, AllocError>
    ensures text { OnOk result (text.new.items ≡ text.old.items ++ text_of (slot_lines last time (change_texts changes.now))) }
    ensures time { IfOk result (λ written. written ≡ slot_time last time (change_texts changes.now)) }
{
    let Some(before) = last else {
        push_first(text, changes, time)?;
        return Ok(time);
    };
    if changes.is_empty() {
        return Ok(before);
    }
    push_later(text, changes, time)?;
    Ok(time)
}

/// Appends the line of the end, unless its time is the last one written.
fn push_end(text: &mut Vec<u8>, last: Option<u64>, time: u64) -> Result<(), AllocError>
    ensures { OnOk result (text.new.items ≡ text.old.items ++ text_of (end_lines last time)) }
{
    match last {
        None => push_time(text, time),
        Some(last) => {
            if last == time {
                Ok(())
            } else {
                push_time(text, time)
            }
        }
    }
}

/// Writes the lines of the next slot, and answers the last time written. `text` and `room` are room to work in, and
/// `changes` has the slot's changes behind it.
fn write_slot<S: Sink>(
    sink: &mut S,
    text: &mut Vec<u8>,
    changes: &mut Vec<DumpChange>,
    room: &mut LineRoom,
    kept: &Written,
    last: Option<u64>,
    all: bool,
    marks: &[u64],
    time: u64,
    store: &Store,
) -> Result<u64, WriterFault>
    requires few { length marks.now ≤ 2 ^ 57 }
    requires room { IsRoom room.old (length kept.now) }
    ensures room { IsRoom room.new (length kept.now) }
    ensures changes { OnOk result (changes.new.items ≡ next_changes kept.now last all marks.now store.now) }
    ensures time { IfOk result (λ written. written ≡ time_kept kept.now last all marks.now time store.now) }
    ensures bytes { WritesPiece result (S.bytes sink.old) (S.bytes sink.new)
        (text_of (next_kept kept.now last all marks.now time store.now)) }
    ensures failures { S.failed sink.new ≡ failed_after (is_write_fault result) (S.failed sink.old) }
{
    list_changes(changes, room, store, kept, last, all, marks)?;
    text.clear();
    let written = push_slot(text, changes, last, time)?;
    write_all(sink, text)?;
    Ok(written)
}

/// Writes the end.
fn write_end<S: Sink>(
    sink: &mut S,
    text: &mut Vec<u8>,
    last: Option<u64>,
    time: u64,
) -> Result<(), WriterFault>
    ensures bytes { WritesPiece result (S.bytes sink.old) (S.bytes sink.new) (text_of (end_lines last time)) }
    ensures failures { S.failed sink.new ≡ failed_after (is_write_fault result) (S.failed sink.old) }
{
    text.clear();
    push_end(text, last, time)?;
    write_all(sink, text)?;
    Ok(())
}

/// The writer of a design's value change dump, slot by slot. A contract sees how far it has come.
pub struct Writer {
    // Of each signal of the design the number of its code and the value written last, in flat planes.
    kept: Written,
    // The last time written.
    last: Option<u64>,
    // Room to work in: the text of a slot, its changes, and the values to compare.
    text: Vec<u8>,
    changes: Vec<DumpChange>,
    room: LineRoom,
}

impl Drop for Writer {
    fn drop(self) {
        let Self {
            kept: _,
            last: _,
            text: _,
            changes: _,
            room: _,
        } = self;
    }
}

impl Model for Writer {
    ghost use Rattle.std.specs.Prelude.{length};
    ghost use Rattle.vs_vcd_writing.specs.Progress.{Progress};
    ghost use Rattle.vs_vcd_writing.specs.Rooms.{IsRoom};

    ghost Value = { Progress };

    ghost view = { λ w. record { kept = w.kept; last = w.last } };

    ghost invariant = { λ w. IsRoom w.room (length w.kept) };
}

impl Writer {
    /// The writer before the first slot. The table has of each signal the number of its code.
    fn begun(alloc: Global, table: Vec<Option<usize>>) -> Result<Self, AllocError>
        ensures codes { IfOk result (λ w. codes_of w.kept ≡ table.items) }
        ensures last { IfOk result (λ w. w.last ≡ None) }
    {
        let room = LineRoom::new(alloc, table.len())?;
        let kept = Written::new(alloc, table)?;
        Ok(Writer {
            kept,
            last: None,
            text: Vec::new(alloc),
            changes: Vec::new(alloc),
            room,
        })
    }

    /// Writes the header of a design, and answers the writer of the slots. Where the sink fails, it holds a beginning of the header.
    pub fn header<S: Sink>(
        alloc: Global,
        sink: &mut S,
        design: &Design,
    ) -> Result<Self, WriterFault>
        ensures written { IfOk result (λ w. HasWritten w design.now []) }
        ensures bytes { WritesPiece result (S.bytes sink.old) (S.bytes sink.new) (vcd_header design.now) }
        ensures failures { S.failed sink.new ≡ failed_after (is_write_fault result) (S.failed sink.old) }
    {
        let table = code_numbers(alloc, design.signals())?;
        let text = header_text(alloc, design, &table)?;
        let writer = Writer::begun(alloc, table)?;
        write_all(sink, &text)?;
        Ok(writer)
    }

    /// Whether no slot is written yet.
    fn is_first(&self) -> bool
        ensures { result ≡ is_none self.now.last }
    {
        self.last.is_none()
    }

    /// Writes the next slot, and keeps its values. It looks at all signals, or at those whose blocks are marked.
    fn write_next<S: Sink>(
        &mut self,
        sink: &mut S,
        all: bool,
        marks: &[u64],
        time: u64,
        store: &Store,
    ) -> Result<(), WriterFault>
        requires few { length marks.now ≤ 2 ^ 57 }
        ensures follows { OnOk result (Follows self.old self.new all marks.now time store.now) }
        ensures bytes { WritesPiece result (S.bytes sink.old) (S.bytes sink.new)
            (text_of (next_kept self.old.kept self.old.last all marks.now time store.now)) }
        ensures failures { S.failed sink.new ≡ failed_after (is_write_fault result) (S.failed sink.old) }
        ensures err { OnErr result (self.new ≡ self.old) }
    {
        let written = write_slot(
            sink,
            &mut self.text,
            &mut self.changes,
            &mut self.room,
            &self.kept,
            self.last,
            all,
            marks,
            time,
            store,
        )?;
        self.kept.keep(&self.changes);
        self.last = Some(written);
        Ok(())
    }

    /// Writes a slot that ended at a time in ticks with a store. On an error the writer is as before.
    ///
    /// It compares the words of all signals with those that were written last, plane by plane, and takes memory for nothing but the text and the
    /// list of what changed.
    pub fn slot<S: Sink>(
        &mut self,
        _alloc: Global,
        sink: &mut S,
        time: u64,
        store: &Store,
    ) -> Result<(), WriterFault>
        ensures written { OnOk result ((d : Parts) (slots : List Slot) (s : Slot)
            → HasWritten self.old d slots → IsSlotAt s time store.now
            → HasWritten self.new d (slots ++ s ∷ [])) }
        ensures bytes { (d : Parts) (slots : List Slot) (s : Slot) → HasWritten self.old d slots → IsSlotAt s time store.now
            → WritesPiece result (S.bytes sink.old) (S.bytes sink.new) (vcd_slot d slots s) }
        ensures failures { S.failed sink.new ≡ failed_after (is_write_fault result) (S.failed sink.old) }
        ensures err { OnErr result (self.new ≡ self.old) }
        // Behind it no signal need be marked.
        ensures covered { OnOk result (Covers [] self.new store.now) }
        // The pieces of the slots make up the text of the slots.
        ensures pieces { (d : Parts) (slots : List Slot) (s : Slot)
            → vcd_slots d (slots ++ s ∷ []) ≡ vcd_slots d slots ++ vcd_slot d slots s }
    {
        self.write_next(sink, true, &[], time, store)
    }

    /// Writes a slot as `slot` does, and looks only at the signals whose blocks are marked; at the first slot at all of them.
    ///
    /// The marks are words of 64 bits, a bit for each `BLOCK` signals, the lowest bit first. A signal whose value isn't the
    /// one that was written last must be marked; what is marked beyond that costs a look at it.
    pub fn slot_marked<S: Sink>(
        &mut self,
        sink: &mut S,
        time: u64,
        store: &Store,
        marks: &[u64],
    ) -> Result<(), WriterFault>
        requires few { length marks.now ≤ 2 ^ 57 }
        requires covers { Covers marks.now self.old store.now }
        ensures written { OnOk result ((d : Parts) (slots : List Slot) (s : Slot)
            → HasWritten self.old d slots → IsSlotAt s time store.now
            → HasWritten self.new d (slots ++ s ∷ [])) }
        ensures bytes { (d : Parts) (slots : List Slot) (s : Slot) → HasWritten self.old d slots → IsSlotAt s time store.now
            → WritesPiece result (S.bytes sink.old) (S.bytes sink.new) (vcd_slot d slots s) }
        ensures failures { S.failed sink.new ≡ failed_after (is_write_fault result) (S.failed sink.old) }
        ensures err { OnErr result (self.new ≡ self.old) }
        // Behind it no signal need be marked.
        ensures covered { OnOk result (Covers [] self.new store.now) }
        // The pieces of the slots make up the text of the slots.
        ensures pieces { (d : Parts) (slots : List Slot) (s : Slot)
            → vcd_slots d (slots ++ s ∷ []) ≡ vcd_slots d slots ++ vcd_slot d slots s }
    {
        let all = self.is_first();
        self.write_next(sink, all, marks, time, store)
    }

    /// Writes the end of the dump: a time in ticks, unless it was the last one written.
    pub fn finish<S: Sink>(mut self, sink: &mut S, time: u64) -> Result<(), WriterFault>
        ensures bytes { (d : Parts) (slots : List Slot) → HasWritten self d slots
            → WritesPiece result (S.bytes sink.old) (S.bytes sink.new) (vcd_end d slots time) }
        ensures failures { S.failed sink.new ≡ failed_after (is_write_fault result) (S.failed sink.old) }
    {
        write_end(sink, &mut self.text, self.last, time)
    }
}
