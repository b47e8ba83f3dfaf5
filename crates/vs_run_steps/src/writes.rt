//! The store of a run, and what its changes wake.
ghost use Rattle.std.specs.Prelude.{◌≡◌, ◌*◌, ◌%◌, ◌^◌, List, length, bit_and, OnOk};
ghost use Rattle.std.specs.Int.RustNames.{bit_xor};
ghost use Rattle.vs_design.specs.vs_logic4.specs.Planes.{ArePlanes, digits_of_planes};
ghost use Rattle.vs_design.specs.declared.signal.Signal.{Signal};
ghost use Rattle.vs_design.specs.InOrder.{IsStoreOf};
ghost use Rattle.vs_design.specs.Stores.{put};
ghost use Rattle.vs_run_active.specs.vs_eval.specs.Masks.{IsChangeOf};
ghost use Rattle.vs_run_active.specs.Changes.{MarkChanges};
ghost use Rattle.vs_process.specs.Spots.{IsSpotIn, spot_write};
ghost use Rattle.vs_run_steps.specs.Writes.{AreNamed, Follows, Makes, MakesWritten};

use crate::marks::{mark, mark_signals};
use std::alloc::AllocError;
use vs_design::vs_logic4::Vec4;
use vs_design::{Design, Store, Write};
use vs_process::{Change, Spot, make, spot_of_write};
use vs_run_active::vs_eval::WordChange;
use vs_run_active::{Events, Tables};

/// The store, the tables of who watches its signals, what is active, and the marks of the signals that were written.
#[derive(Drop)]
pub struct Watched<'a> {
    pub store: Store<'a>,
    pub tables: Tables,
    pub events: Events<'a>,
    pub marks: Vec<u64>,
}

/// The planes of a word before and after a write.
#[inline(always)]
fn change_of(before: Vec4, after: Vec4) -> WordChange
    requires { length before ≡ length after }
    ensures { IsChangeOf result before after }
{
    let _size = before.width();
    WordChange {
        value: before.value_plane(),
        unknown: before.unknown_plane(),
        new_value: after.value_plane(),
        new_unknown: after.unknown_plane(),
    }
}

/// A plane of a word with that of digits in the bits of a spot.
#[inline(always)]
fn laid(spot: &Spot, plane: u64, digits: u64) -> u64
    ensures { result ≡ bit_xor plane (bit_and (bit_xor plane (digits * 2 ^ spot.now.shift % 2 ^ 64)) spot.now.mask) }
{
    plane ^ (plane ^ digits << spot.shift) & spot.mask
}

impl<'a> Watched<'a> {
    /// Writes both planes of digits to bits of one word.
    #[inline(always)]
    pub fn write(&mut self, spot: &Spot, value: u64, unknown: u64) -> Result<(), AllocError>
        ghost signals: { List Signal }
        requires spot { IsSpotIn signals spot.now }
        requires planes { ArePlanes spot.now.width value unknown }
        requires store { IsStoreOf signals self.old.store }
        requires rows { length signals ≡ length self.old.tables.rows.items }
        ensures store { self.new.store ≡ put self.old.store (spot_write spot.now (digits_of_planes spot.now.width value unknown)) }
        ensures tables { self.new.tables ≡ self.old.tables }
        ensures made { OnOk result (Makes self.old.tables self.old.store
            (spot_write spot.now (digits_of_planes spot.now.width value unknown))
            self.old.events.assigns self.old.events.processes self.new.events.assigns self.new.events.processes) }
        ensures marked { MarkChanges self.old.marks.items self.new.marks.items self.old.store self.new.store }
    {
        let (old_value, old_unknown) = self.store.planes_of(spot.index);
        let change = WordChange {
            value: old_value,
            unknown: old_unknown,
            new_value: laid(spot, old_value, value),
            new_unknown: laid(spot, old_unknown, unknown),
        };
        if change.differing() == 0 {
            return Ok(());
        }
        self.store
            .set_planes(spot.index, change.new_value, change.new_unknown);
        mark(&mut self.marks, spot.signal);
        self.events
            .wake(&self.tables, spot.signal, spot.word, change)
    }

    /// What the words that a write has changed wake, one after another.
    fn wake_changes(&mut self, changes: &Vec<Change>) -> Result<(), AllocError>
        requires named { AreNamed (length self.old.tables.rows.items) changes.now.items }
        ensures store { self.new.store ≡ self.old.store }
        ensures tables { self.new.tables ≡ self.old.tables }
        ensures marks { self.new.marks ≡ self.old.marks }
        ensures followed { OnOk result (Follows self.old.tables changes.now.items
            self.old.events.assigns self.old.events.processes self.new.events.assigns self.new.events.processes) }
    {
        for change in changes {
            self.events.wake_word(
                &self.tables,
                change.signal,
                change.word,
                change_of(change.before, change.behind),
                true,
            )?;
        }
        Ok(())
    }

    /// Makes a write word by word; the words that it changes are noted in `changes`, in place of what was there.
    #[inline(never)]
    fn write_words(&mut self, write: &Write, changes: &mut Vec<Change>) -> Result<(), AllocError>
        ghost signals: { List Signal }
        requires store { IsStoreOf signals self.old.store }
        requires rows { length signals ≡ length self.old.tables.rows.items }
        ensures store { OnOk result (self.new.store ≡ put self.old.store write.now) }
        ensures tables { self.new.tables ≡ self.old.tables }
        ensures made { OnOk result (Makes self.old.tables self.old.store write.now
            self.old.events.assigns self.old.events.processes self.new.events.assigns self.new.events.processes) }
        ensures marked { MarkChanges self.old.marks.items self.new.marks.items self.old.store self.new.store }
    {
        changes.clear();
        make(&mut self.store, write, changes)?;
        mark_signals(&mut self.marks, changes);
        let from = self.events.queue.len();
        self.wake_changes(changes)?;
        self.events.queue.sort_from(from);
        Ok(())
    }

    /// Makes a write of any kind. Where it is one of bits of one word, all in range, no more is looked at; else `changes` has room for the words that
    /// it changes.
    #[inline(never)]
    pub fn write_any(
        &mut self,
        design: &Design,
        write: &Write,
        changes: &mut Vec<Change>,
    ) -> Result<(), AllocError>
        ghost signals: { List Signal }
        requires design { design.now.signals ≡ signals }
        requires store { IsStoreOf signals self.old.store }
        requires rows { length signals ≡ length self.old.tables.rows.items }
        ensures store { OnOk result (self.new.store ≡ put self.old.store write.now) }
        ensures tables { self.new.tables ≡ self.old.tables }
        ensures made { OnOk result (Makes self.old.tables self.old.store write.now
            self.old.events.assigns self.old.events.processes self.new.events.assigns self.new.events.processes) }
        ensures marked { MarkChanges self.old.marks.items self.new.marks.items self.old.store self.new.store }
    {
        let Some(found) = spot_of_write(design, write) else {
            return self.write_words(write, changes);
        };
        let (spot, digits) = found;
        let value = digits.value_plane();
        let unknown = digits.unknown_plane();
        self.write(&spot, value, unknown)?;
        Ok(())
    }
}

/// What a write makes of the store, the continuous assignments and the processes is the definition's state after it.
pub fn makes_written()
    ensures { MakesWritten }
{}
