//! The updates of a slot, as records in two lists.
ghost use Rattle.std.specs.Prelude.{◌≡◌, ◌<◌, ◌++◌, ◌∷◌, [], Some, None, map, length, get_or, slice_get, slice_set, IfSome, OnOk, OnErr, OnSome, IfNone, MatchOption, true, false};
ghost use Rattle.std.specs.List.{list_any};
ghost use Rattle.vs_design.specs.Writes as specs;
ghost use Rattle.vs_run_regions.specs.FilterLaws.{is_filled};
ghost use Rattle.vs_process.specs.Spots.{IsSpotIn};
ghost use Rattle.vs_run_regions.specs.Updates.{IsIn, bits_write, is_first_left, is_shared, is_there, left_of, somes, what_of};

use crate::claims::{Claim, claim_all, is_alone, make_room};
use crate::update::{Bits, Update};
use std::alloc::{AllocError, Global};
use std::marker::Model;
use std::mem;
use vs_design::{Design, Write};

/// The updates that are activated, of which the first so many are made, and those that are due and aren't activated.
#[derive(Drop)]
pub struct SlotUpdates<'a> {
    design: &'a Design,
    active: Vec<Update<'a>>,
    made: usize,
    /// How many of the activated ones are left.
    left: usize,
    due: Vec<Update<'a>>,
    /// The writes of any kind, of the activated ones and of those that are due.
    writes: Vec<Write>,
    due_writes: Vec<Write>,
    /// How often the activated ones name each signal, where that was counted.
    claims: Vec<Claim>,
    claimed: bool,
}

impl<'a> Model for SlotUpdates<'a> {
    ghost use Rattle.std.specs.Prelude.{map, drop};
    ghost use Rattle.vs_run_regions.specs.Claims.{AreClaimed};
    ghost use Rattle.vs_run_regions.specs.Updates.{AreSlotUpdates, SlotView, left_of, what_of};

    ghost Value = { SlotView };

    ghost view = { λ s. record {
      signals = s.design.now.signals;
      active = map (left_of s.writes.items) (drop s.made s.active.items);
      due = map (what_of s.due_writes.items) s.due.items;
      writes = s.writes.items;
    } };

    ghost invariant = { λ s. AreSlotUpdates s.design.now.signals s.active.items s.made s.left s.writes.items s.due.items s.due_writes.items
        × AreClaimed s.claimed s.claims.items (map (left_of s.writes.items) (drop s.made s.active.items)) };
}

impl<'a> SlotUpdates<'a> {
    /// None, in a run of a design.
    pub fn new(alloc: Global, design: &'a Design) -> Self
        ensures { result ≡ record { signals = design.entry.now.signals; active = []; due = []; writes = [] } }
    {
        SlotUpdates {
            design,
            active: Vec::new(alloc),
            made: 0,
            left: 0,
            due: Vec::new(alloc),
            writes: Vec::new(alloc),
            due_writes: Vec::new(alloc),
            claims: Vec::new(alloc),
            claimed: false,
        }
    }

    /// Adds one of bits of one word to those that are due.
    #[inline(always)]
    pub fn push_bits(&mut self, bits: Bits<'a>) -> Result<(), AllocError>
        requires { IsSpotIn self.old.signals bits.spot.now }
        ensures pushed { OnOk result (self.new ≡ record self.old { due = self.old.due ++ bits_write bits.entry ∷ [] }) }
        ensures unpushed { OnErr result (self.new ≡ self.old) }
    {
        self.due.push(Update::Bits(bits))?;
        Ok(())
    }

    /// Adds a write of any kind to those that are due.
    pub fn push_any(&mut self, write: Write) -> Result<(), AllocError>
        ensures pushed { OnOk result (self.new ≡ record self.old { due = self.old.due ++ write ∷ [] }) }
        ensures unpushed { OnErr result (self.new ≡ self.old) }
    {
        let number = self.due_writes.len();
        self.due_writes.push(write)?;
        self.due.push(Update::Any(number))?;
        Ok(())
    }

    /// The oldest activated one that isn't made; one that is gone is none.
    #[inline(always)]
    pub fn next(&mut self) -> Option<Update<'a>>
        ensures taken { MatchOption result (self.old.active ≡ []) (λ u. self.old.active ≡ left_of self.old.writes u ∷ self.new.active) }
        ensures others { self.new ≡ record self.old { active = self.new.active } }
        ensures unchanged { IfNone result (self.new ≡ self.old) }
        ensures known { IfSome result (λ u. IsIn self.old.signals self.old.writes u) }
    {
        let update = *self.active.get(self.made)?;
        self.made += 1;
        if let Update::Gone = update {
            return Some(update);
        }
        self.left -= 1;
        Some(update)
    }

    /// Takes out the activated one of this number, where it is left.
    pub fn take(&mut self, number: usize) -> Option<Update<'a>>
        ensures taken { MatchOption result (is_there (slice_get self.old.active number) ≡ false)
            (λ u. slice_get self.old.active number ≡ Some (Some (what_of self.old.writes u))) }
        ensures rest { OnSome result (self.new ≡ record self.old { active = slice_set self.old.active number None }) }
        ensures kept { IfNone result (self.new ≡ self.old) }
        ensures left { IfSome result (λ u. left_of self.old.writes u ≡ Some (what_of self.old.writes u)) }
        ensures known { IfSome result (λ u. IsIn self.old.signals self.old.writes u) }
    {
        let at = self.made.checked_add(number)?;
        let update = *self.active.get(at)?;
        if let Update::Gone = update {
            return None;
        }
        self.active[at] = Update::Gone;
        self.left -= 1;
        Some(update)
    }

    /// What an update of any kind writes, by its number among those.
    #[inline(always)]
    pub fn write_of(&self, number: usize) -> &Write
        requires { number < length self.now.writes }
        ensures { result.now ≡ get_or self.now.writes number [] }
    {
        &self.writes[number]
    }

    /// How many were activated last.
    pub fn active_len(&self) -> usize {
        self.active.len()
    }

    /// Adds the signals that the activated one of a number names.
    pub fn name_all(&self, number: usize, signals: &mut Vec<usize>) -> Result<(), AllocError> {
        match self.active.get(number) {
            Some(Update::Bits(bits)) => signals.push(bits.spot.signal)?,
            Some(Update::Any(write)) => {
                if let Some(write) = self.writes.get(*write) {
                    for part in write.parts() {
                        signals.push(part.signal)?;
                    }
                }
            }
            _ => {}
        }
        Ok(())
    }

    /// Whether the activated one of this number is left, and no older one names a signal that it names.
    pub fn is_first(&self, number: usize) -> bool
        ensures { result ≡ is_first_left self.now.active number }
    {
        let from = self.made;
        let Some(at) = from.checked_add(number) else {
            return false;
        };
        let Some(update) = self.active.get(at) else {
            return false;
        };
        if let Update::Gone = update {
            return false;
        }
        if self.claimed && is_alone(&self.claims, &self.writes, *update) {
            return true;
        }
        !any_shares(&self.writes, &self.active[from..at], *update)
    }

    /// The number of an activated one that is left and of whose signals no older one names one, where any is left.
    pub fn oldest(&self) -> Option<usize>
        ensures { MatchOption result (somes self.now.active ≡ []) (λ number. is_first_left self.now.active number ≡ true) }
    {
        for number in 0..self.active.len() {
            if self.is_first(number) {
                return Some(number);
            }
        }
        None
    }

    /// Whether an activated one is left.
    #[inline(always)]
    pub fn has_active(&self) -> bool
        ensures { result ≡ is_filled (somes self.now.active) }
    {
        self.left != 0
    }

    /// Whether one is due that isn't activated.
    #[inline(always)]
    pub fn has_due(&self) -> bool
        ensures { result ≡ is_filled self.now.due }
    {
        !self.due.is_empty()
    }

    /// Those that are due are activated, where no other one is left.
    #[inline(never)]
    pub fn activate(&mut self)
        requires { somes self.old.active ≡ [] }
        ensures active { self.new.active ≡ map Some self.old.due }
        ensures due { self.new.due ≡ [] }
        ensures signals { self.new.signals ≡ self.old.signals }
    {
        self.claimed = false;
        self.active.clear();
        self.writes.clear();
        self.made = 0;
        self.left = self.due.len();
        mem::swap(&mut self.active, &mut self.due);
        mem::swap(&mut self.writes, &mut self.due_writes);
    }

    /// Counts how often the activated ones name each signal, so that `is_first` needn't look at the older ones where one part alone names it.
    pub fn claim(&mut self) -> Result<(), AllocError>
        ensures { self.new ≡ self.old }
    {
        self.claimed = false;
        make_room(&mut self.claims, self.design.signals().len())?;
        claim_all(&mut self.claims, &self.writes, &self.active, true);
        claim_all(&mut self.claims, &self.writes, &self.active, false);
        self.claimed = true;
        Ok(())
    }

    /// Those that are due are lost.
    pub fn lose(&mut self)
        ensures { self.new ≡ record self.old { due = [] } }
    {
        self.due.clear();
        self.due_writes.clear();
    }
}

/// Whether an update names a signal.
fn names(writes: &[Write], update: Update, signal: usize) -> bool
    ensures { result ≡ specs.names (what_of writes.now update.entry) signal }
{
    match update {
        Update::Bits(bits) => bits.spot.signal == signal,
        Update::Any(number) => match writes.get(number) {
            Some(write) => write.names(signal),
            None => false,
        },
        Update::Gone => false,
    }
}

/// Whether an older update names a signal that a newer one names.
fn shares(writes: &[Write], older: Update, newer: Update) -> bool
    ensures { result ≡ specs.shares (what_of writes.now older.entry) (what_of writes.now newer.entry) }
{
    match older {
        Update::Bits(bits) => names(writes, newer, bits.spot.signal),
        Update::Any(number) => any_named(writes, number, newer),
        Update::Gone => false,
    }
}

/// Whether an update names a signal that the write of a number names.
fn any_named(writes: &[Write], number: usize, newer: Update) -> bool
    ensures { result ≡ specs.shares (get_or writes.now number []) (what_of writes.now newer.entry) }
{
    match writes.get(number) {
        Some(write) => write
            .parts()
            .iter()
            .any(|part| names(writes, newer, part.signal)),
        None => false,
    }
}

/// Whether one of some older updates names a signal that a newer one names.
fn any_shares(writes: &[Write], older: &[Update], newer: Update) -> bool
    ensures { result ≡ list_any (is_shared (what_of writes.now newer.entry)) (map (left_of writes.now) older.now) }
{
    for update in older {
        if shares(writes, *update, newer) {
            return true;
        }
    }
    false
}
