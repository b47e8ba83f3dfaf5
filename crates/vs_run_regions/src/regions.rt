//! What waits in a slot and after it.
ghost use Rattle.std.specs.Prelude.{ℕ, ◌≡◌, ◌≢◌, ◌++◌, ◌∷◌, ◌&&◌, [], ◌<◌, ◌≤◌, ◌+◌, ◌^◌, ◌↔◌, true, false, length, filter, map, get_or, slice_get, slice_set, option_map, Some, None, IsTrue, IfNone, IfSome, OnSome, OnOk, OnErr, MatchOption};
ghost use Rattle.std.specs.List.{list_any};
ghost use Rattle.std.specs.Option.{ForSome};
ghost use Rattle.vs_time_wheel.specs.Bag.{SameBag, events_at, least_time};
ghost use Rattle.vs_process.specs.Executions as executions;
ghost use Rattle.vs_process.specs.States as states;
ghost use Rattle.vs_run_regions.specs.Active.{is_active, not_due, place_of_active};
ghost use Rattle.vs_run_regions.specs.Regions.{place_of_number, without_oldest};
ghost use Rattle.vs_process.specs.Spots.{IsSpotIn};
ghost use Rattle.vs_run_regions.specs.Updates.{IsIn, bits_write, is_there, left_of, what_of};

use crate::entry::{enter_queue, take_due};
use crate::ghost_list::GhostList;
use crate::item::Due;
use crate::late::LateUpdate;
use crate::listing::SlotUpdates;
use crate::update::{Bits, Update};
use std::alloc::{AllocError, Global};
use std::marker::Model;
use std::mem;
use vs_design::{Design, Write};
use vs_time_wheel::EventQueue;

/// What waits in a slot and after it: the inactive processes in the order of their arrival, the nonblocking updates, and the ends of delays.
/// A contract sees the time of the slot, which is the last one that `advance` went to, the numbers of the inactive processes, the ends of delays
/// as a bag, and all updates in the order of execution.
#[derive(Drop)]
pub struct Regions<'a, Q: EventQueue<Due>> {
    alloc: Global,
    /// The ends of delays, and the updates of later slots.
    queue: Q,
    inactive: Vec<usize>,
    /// The updates that are activated or due in this slot.
    listed: SlotUpdates<'a>,
    /// All updates, for proofs alone.
    updates: GhostList<LateUpdate>,
}

impl<'a, Q: EventQueue<Due>> Model for Regions<'a, Q> {
    ghost use Rattle.vs_run_regions.specs.Regions.{Waiting, AreHeld};
    ghost use Rattle.vs_run_regions.specs.Items.{sleepers_of};

    ghost Value = { Waiting };

    ghost view = { λ r. record {
      time = Q.clock r.queue;
      inactive = r.inactive.items;
      sleepers = sleepers_of (Q.bag r.queue);
      updates = r.updates.items;
      listed = r.listed;
    } };

    ghost invariant = { λ r. AreHeld r.updates.items r.listed (Q.bag r.queue) (Q.clock r.queue) };
}

impl<'a, Q: EventQueue<Due>> Regions<'a, Q> {
    /// Nothing waits yet; the queue keeps the ends of delays and the updates of later slots.
    pub fn start(alloc: Global, design: &'a Design, queue: Q) -> Self
        requires empty { Q.bag queue ≡ [] }
        requires at_zero { Q.clock queue ≡ 0 }
        ensures { result ≡ record {
          time = 0;
          inactive = [];
          sleepers = [];
          updates = [];
          listed = record { signals = design.entry.now.signals; active = []; due = []; writes = [] };
        } }
    {
        Regions {
            alloc,
            queue,
            inactive: Vec::new(alloc),
            listed: SlotUpdates::new(alloc, design),
            updates: GhostList::new(),
        }
    }

    /// The time of the slot, in ticks.
    #[inline(always)]
    pub fn time(&self) -> u64
        ensures { result ≡ self.now.time }
    {
        self.queue.now()
    }

    /// Appends a nonblocking update of bits of one word that is due in this slot; without memory nothing changes.
    #[inline(always)]
    pub fn push_bits(&mut self, by: usize, bits: Bits<'a>) -> Result<(), AllocError>
        requires { IsSpotIn self.old.listed.signals bits.spot.now }
        ensures pushed { OnOk result (self.new ≡ record self.old {
          updates = self.old.updates ++ record { by = by; due = self.old.time; active = false; what = bits_write bits.entry } ∷ [];
          listed = record self.old.listed { due = self.old.listed.due ++ bits_write bits.entry ∷ [] };
        }) }
        ensures unpushed { OnErr result (self.new ≡ self.old) }
    {
        let time = self.queue.now();
        self.listed.push_bits(bits)?;
        self.updates = self.updates.next(&((by, time), bits));
        Ok(())
    }

    /// Appends a nonblocking update of any kind that is due in this slot; without memory nothing changes.
    pub fn push_any(&mut self, by: usize, what: Write) -> Result<(), AllocError>
        ensures pushed { OnOk result (self.new ≡ record self.old {
          updates = self.old.updates ++ record { by = by; due = self.old.time; active = false; what = what } ∷ [];
          listed = record self.old.listed { due = self.old.listed.due ++ what ∷ [] };
        }) }
        ensures unpushed { OnErr result (self.new ≡ self.old) }
    {
        let time = self.queue.now();
        let updates = self.updates.next(&((by, time), &what));
        self.listed.push_any(what)?;
        self.updates = updates;
        Ok(())
    }

    /// Appends a nonblocking update of a later slot, which is due at a time, in ticks; without memory the updates are as they were.
    #[inline(never)]
    pub fn push_late(&mut self, by: usize, due: u64, what: Write) -> Result<(), AllocError>
        requires { self.old.time < due }
        ensures pushed { OnOk result (self.new.updates
            ≡ self.old.updates ++ record { by = by; due = due; active = false; what = what } ∷ []) }
        ensures unpushed { OnErr result (self.new.updates ≡ self.old.updates) }
        ensures time { self.new.time ≡ self.old.time }
        ensures inactive { self.new.inactive ≡ self.old.inactive }
        ensures sleepers { SameBag self.new.sleepers self.old.sleepers }
        ensures listed { self.new.listed ≡ self.old.listed }
    {
        let update = LateUpdate::new(by, due, what);
        let updates = self.updates.next(&update);
        enter_queue(self.alloc, &mut self.queue, update)?;
        self.updates = updates;
        Ok(())
    }

    /// Whether an update is activated.
    #[inline(always)]
    pub fn has_active(&self) -> bool
        ensures { result ≡ list_any is_active self.now.updates }
    {
        self.listed.has_active()
    }

    /// Whether an update is due in this slot and not activated.
    #[inline(always)]
    pub fn has_due(&self) -> bool
        ensures { result ≡ list_any (states.is_due self.now.time) self.now.updates }
    {
        self.listed.has_due()
    }

    /// Takes out the oldest activated update; where that is one that is gone, no update.
    #[inline(always)]
    pub fn next(&mut self) -> Option<Update<'a>>
        ensures none { IfNone result (list_any is_active self.old.updates ≡ false) }
        ensures unchanged { IfNone result (self.new ≡ self.old) }
        ensures what { IfSome result (λ u. self.old.listed.active ≡ left_of self.new.listed.writes u ∷ self.new.listed.active) }
        ensures taken { IfSome result (λ u. IfSome (left_of self.new.listed.writes u)
            (λ what. option_map (λ v. v.what) (slice_get self.old.updates (place_of_active 0 self.old.updates)) ≡ Some what)) }
        ensures first { IfSome result (λ u. IfSome (left_of self.new.listed.writes u)
            (λ what. executions.if_some (executions.is_first self.old.updates (place_of_active 0 self.old.updates))
            (slice_get self.old.updates (place_of_active 0 self.old.updates)) ≡ true)) }
        ensures rest { IfSome result (λ u. self.new ≡ record self.old {
          updates = without_oldest u self.old.updates;
          listed = record self.old.listed { active = self.new.listed.active };
        }) }
        ensures known { IfSome result (λ u. IsIn self.new.listed.signals self.new.listed.writes u) }
    {
        let update = self.listed.next()?;
        self.updates = self.updates.next(&update);
        Some(update)
    }

    /// How many updates were activated last.
    pub fn active_len(&self) -> usize {
        self.listed.active_len()
    }

    /// Adds the signals that the activated update of a number names.
    pub fn name_all(&self, number: usize, signals: &mut Vec<usize>) -> Result<(), AllocError> {
        self.listed.name_all(number, signals)
    }

    /// Whether the activated update of this number is left, and no older one names a signal that it names.
    pub fn is_first(&self, number: usize) -> bool
        ensures { result ≡ (is_there (slice_get self.now.listed.active number)
            && executions.if_some (executions.is_first self.now.updates (place_of_number number self.now))
            (slice_get self.now.updates (place_of_number number self.now))) }
    {
        self.listed.is_first(number)
    }

    /// The number of an activated update that is left and of whose signals no older one names one, where any is left.
    pub fn oldest(&self) -> Option<usize>
        ensures { MatchOption result (list_any is_active self.now.updates ≡ false)
            (λ number. (is_there (slice_get self.now.listed.active number)
            && executions.if_some (executions.is_first self.now.updates (place_of_number number self.now))
            (slice_get self.now.updates (place_of_number number self.now))) ≡ true) }
    {
        match self.listed.oldest() {
            Some(number) => Some(number),
            None => None,
        }
    }

    /// Takes out the activated update of this number, where it is left.
    pub fn take(&mut self, number: usize) -> Option<Update<'a>>
        ensures none { IfNone result (is_there (slice_get self.old.listed.active number) ≡ false) }
        ensures unchanged { IfNone result (self.new ≡ self.old) }
        ensures taken { IfSome result (λ u. option_map (λ v. v.what)
            (slice_get self.old.updates (place_of_number number self.old)) ≡ Some (what_of self.new.listed.writes u)) }
        ensures left { IfSome result (λ u. left_of self.new.listed.writes u ≡ Some (what_of self.new.listed.writes u)) }
        ensures rest { OnSome result (self.new ≡ record self.old {
          updates = states.without (place_of_number number self.old) self.old.updates;
          listed = record self.old.listed { active = slice_set self.old.listed.active number None };
        }) }
        ensures known { IfSome result (λ u. IsIn self.new.listed.signals self.new.listed.writes u) }
    {
        let updates = self.updates.pick(&number, &self.listed);
        let update = self.listed.take(number)?;
        self.updates = updates;
        Some(update)
    }

    /// What an update of any kind writes, by its number among those of the activated ones.
    #[inline(always)]
    pub fn write_of(&self, number: usize) -> &Write
        requires { number < length self.now.listed.writes }
        ensures { result.now ≡ get_or self.now.listed.writes number [] }
    {
        self.listed.write_of(number)
    }

    /// The updates that are due in this slot are activated.
    pub fn activate(&mut self)
        requires { list_any is_active self.old.updates ≡ false }
        ensures updates { self.new.updates ≡ map (states.activated self.old.time) self.old.updates }
        ensures active { self.new.listed.active ≡ map Some self.old.listed.due }
        ensures due { self.new.listed.due ≡ [] }
        ensures signals { self.new.listed.signals ≡ self.old.listed.signals }
        ensures time { self.new.time ≡ self.old.time }
        ensures inactive { self.new.inactive ≡ self.old.inactive }
        ensures sleepers { self.new.sleepers ≡ self.old.sleepers }
    {
        let time = self.queue.now();
        self.listed.activate();
        self.updates = self.updates.next(&time);
    }

    /// Counts how often the activated updates name each signal, so that `is_first` is quick.
    pub fn claim(&mut self) -> Result<(), AllocError>
        ensures { self.new ≡ self.old }
    {
        self.listed.claim()
    }

    /// Whether a process is inactive.
    #[inline(always)]
    pub fn has_inactive(&self) -> bool
        ensures { IsTrue result ↔ (0 < length self.now.inactive) }
    {
        !self.inactive.is_empty()
    }

    /// A process becomes inactive; without memory nothing changes.
    #[inline(always)]
    pub fn wait(&mut self, process: usize) -> Result<(), AllocError>
        ensures waits { OnOk result (self.new ≡ record self.old { inactive = self.old.inactive ++ process ∷ [] }) }
        ensures unchanged { OnErr result (self.new ≡ self.old) }
    {
        self.inactive.push(process)?;
        Ok(())
    }

    /// Hands out the inactive processes in the order of their arrival.
    pub fn rouse(&mut self, woken: &mut Vec<usize>)
        ensures handed_out { woken.new.items ≡ self.old.inactive }
        ensures none_left { self.new ≡ record self.old { inactive = [] } }
    {
        mem::swap(&mut self.inactive, woken);
        self.inactive.clear();
    }

    /// The delay of a process begins, which ends at a time, in ticks; without memory nothing changes.
    #[inline(always)]
    pub fn sleep(&mut self, process: usize, until: u64) -> Result<(), AllocError>
        requires { self.old.time ≤ until }
        ensures sleeps { OnOk result (SameBag self.new.sleepers (self.old.sleepers ++ record { time = until; event = process } ∷ [])) }
        ensures unchanged { OnErr result (SameBag self.new.sleepers self.old.sleepers) }
        ensures time { self.new.time ≡ self.old.time }
        ensures inactive { self.new.inactive ≡ self.old.inactive }
        ensures updates { self.new.updates ≡ self.old.updates }
        ensures listed { self.new.listed ≡ self.old.listed }
    {
        if let Err(_) = self.queue.schedule(until, Due::Wake(process)) {
            return Err(AllocError);
        }
        Ok(())
    }

    /// The least time at which a delay ends or an update is due, in ticks, where no update is activated or due in this slot.
    pub fn next_time(&self) -> Option<u64>
        requires idle { list_any is_active self.now.updates ≡ false }
        requires done { list_any (states.is_due self.now.time) self.now.updates ≡ false }
        ensures least { result ≡ executions.next_update (least_time self.now.sleepers) self.now.updates }
        ensures not_over { IfSome result (λ time. self.now.time ≤ time) }
    {
        self.queue.next_time()
    }

    /// Time goes to the least at which something is due, in ticks: the processes whose delay ends then are noted in `woken`, after what is there,
    /// and the updates of that time are due in the slot. Without memory these updates are lost, and `woken` may lack some of the processes.
    #[inline(always)]
    pub fn advance(&mut self, time: u64, woken: &mut Vec<usize>) -> Result<(), AllocError>
        requires idle { list_any is_active self.old.updates ≡ false }
        requires done { list_any (states.is_due self.old.time) self.old.updates ≡ false }
        requires not_over { self.old.time ≤ time }
        requires none_before { ForSome (executions.next_update (least_time self.old.sleepers) self.old.updates) (λ next. time ≤ next) }
        ensures woken { OnOk result (woken.new.items ≡ woken.old.items ++ events_at time self.old.sleepers) }
        ensures updates { OnOk result (self.new.updates ≡ self.old.updates) }
        ensures lost { OnErr result (self.new.updates ≡ filter (not_due time) self.old.updates) }
        ensures taken { events_at time self.new.sleepers ≡ [] }
        ensures others { (t : ℕ) → time ≢ t → events_at t self.new.sleepers ≡ events_at t self.old.sleepers }
        ensures inactive { self.new.inactive ≡ self.old.inactive }
        ensures time { self.new.time ≡ time }
        ensures active { self.new.listed.active ≡ self.old.listed.active }
        ensures signals { self.new.listed.signals ≡ self.old.listed.signals }
    {
        if take_due(&mut self.queue, &mut self.listed, woken, time) {
            return Ok(());
        }
        self.listed.lose();
        self.updates = self.updates.next(&time);
        Err(AllocError)
    }
}
