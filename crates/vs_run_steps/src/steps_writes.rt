//! Writes in a run, and its nonblocking updates (IEEE 1364-2005, clauses 9.2 and 11.2).
ghost use Rattle.std.specs.Prelude.{◌≡◌, ◌<◌, ◌^◌, [], Some, length, get_or, OnOk};
ghost use Rattle.vs_design.specs.vs_logic4.specs.Planes.{ArePlanes, digits_of_planes};
ghost use Rattle.vs_process.specs.ChosenPlaces.{IsChosenIn, chosen_value, chosen_write};
ghost use Rattle.vs_process.specs.Spots.{IsSpotIn, spot_write};
ghost use Rattle.vs_process.specs.Steps.{assignment};
ghost use Rattle.vs_run_active.specs.vs_process.specs.States.{updates_after, written};
ghost use Rattle.vs_run_steps.specs.Runs.{Agrees, Keeps, Plan, state_of};

use crate::run::RunState;
use std::alloc::AllocError;
use vs_design::vs_logic4::Vec4;
use vs_design::{Target, Ticks, Typed, Write};
use vs_eval::{Resolved, cut_value, write_of};
use vs_process::{ChosenPlace, Spot, spot_of_part};
use vs_run_regions::vs_time_wheel::EventQueue;
use vs_run_regions::{Bits, Due};

impl<'a, Q: EventQueue<Due>> RunState<'a, Q> {
    /// Writes digits to bits of one word, and what that wakes goes on.
    #[inline(always)]
    pub fn write(&mut self, spot: &Spot, digits: Vec4) -> Result<(), AllocError>
        ghost plan: { Plan }
        requires agrees { Agrees plan.design plan.terms self.old }
        requires spot { IsSpotIn plan.design.signals spot.now }
        requires size { length digits ≡ spot.now.width }
        ensures state { OnOk result (state_of self.new ≡ written (state_of self.old) (spot_write spot.now digits)) }
        ensures keeps { OnOk result (Keeps plan.design plan.terms self.old self.new) }
        ensures others { self.new ≡ record self.old { watched = self.new.watched } }
    {
        let value = digits.value_plane();
        let unknown = digits.unknown_plane();
        self.watched.write(spot, value, unknown)?;
        Ok(())
    }

    /// Writes both planes of digits to bits of one word, and what that wakes goes on.
    #[inline(always)]
    pub fn write_planes(&mut self, spot: &Spot, value: u64, unknown: u64) -> Result<(), AllocError>
        ghost plan: { Plan }
        requires agrees { Agrees plan.design plan.terms self.old }
        requires spot { IsSpotIn plan.design.signals spot.now }
        requires planes { ArePlanes spot.now.width value unknown }
        ensures state { OnOk result (state_of self.new
            ≡ written (state_of self.old) (spot_write spot.now (digits_of_planes spot.now.width value unknown))) }
        ensures keeps { OnOk result (Keeps plan.design plan.terms self.old self.new) }
        ensures others { self.new ≡ record self.old { watched = self.new.watched } }
    {
        self.watched.write(spot, value, unknown)?;
        Ok(())
    }

    /// Makes a write of any kind, and what that wakes goes on.
    #[inline(always)]
    pub fn write_any(&mut self, write: &Write) -> Result<(), AllocError>
        ghost plan: { Plan }
        requires { Agrees plan.design plan.terms self.old }
        ensures state { OnOk result (state_of self.new ≡ written (state_of self.old) write.now) }
        ensures keeps { OnOk result (Keeps plan.design plan.terms self.old self.new) }
        ensures others { self.new ≡ record self.old { watched = self.new.watched; changes = self.new.changes } }
    {
        self.watched
            .write_any(self.design, write, &mut self.changes)?;
        Ok(())
    }

    /// Makes the write of an activated update of any kind, by its number among those.
    #[inline(always)]
    pub fn write_activated(&mut self, number: usize) -> Result<(), AllocError>
        ghost plan: { Plan }
        requires agrees { Agrees plan.design plan.terms self.old }
        requires there { number < length self.old.regions.listed.writes }
        ensures state { OnOk result (state_of self.new ≡ written (state_of self.old) (get_or self.old.regions.listed.writes number [])) }
        ensures keeps { OnOk result (Keeps plan.design plan.terms self.old self.new) }
        ensures others { self.new ≡ record self.old { watched = self.new.watched; changes = self.new.changes } }
    {
        let write = self.regions.write_of(number);
        self.watched
            .write_any(self.design, write, &mut self.changes)?;
        Ok(())
    }

    /// Gives a target the value of an expression.
    #[inline(never)]
    pub fn assign_any(&mut self, target: &Target, e: &Typed) -> Result<(), AllocError>
        ghost plan: { Plan }
        requires { Agrees plan.design plan.terms self.old }
        ensures state { OnOk result (state_of self.new
            ≡ written (state_of self.old) (assignment target.now e.now self.old.watched.store self.old.regions.time)) }
        ensures keeps { OnOk result (Keeps plan.design plan.terms self.old self.new) }
        ensures others { OnOk result (self.new ≡ record self.old { watched = self.new.watched; changes = self.new.changes }) }
    {
        let time = self.regions.time();
        let digits = cut_value(target, e, &self.watched.store, time);
        let write = write_of(self.alloc, target, digits, &self.watched.store, time)?;
        self.write_any(&write)?;
        Ok(())
    }

    /// Gives a place that indices choose the value of an expression.
    #[inline(never)]
    pub(crate) fn assign_chosen(
        &mut self,
        place: &ChosenPlace,
        e: &Resolved,
    ) -> Result<(), AllocError>
        ghost plan: { Plan }
        requires agrees { Agrees plan.design plan.terms self.old }
        requires place { IsChosenIn plan.design.signals place.now }
        requires value { e.now.signals ≡ plan.design.signals }
        ensures state { OnOk result (state_of self.new ≡ written (state_of self.old) (chosen_write place.now
            (chosen_value place.now e.now self.old.watched.store self.old.regions.time) self.old.watched.store self.old.regions.time)) }
        ensures keeps { OnOk result (Keeps plan.design plan.terms self.old self.new) }
        ensures others { OnOk result (self.new ≡ record self.old { watched = self.new.watched; changes = self.new.changes }) }
    {
        let time = self.regions.time();
        let value = e.cut_value(place.width, &self.watched.store, time);
        let part = place.part(value, &self.watched.store, time);
        let Some(found) = spot_of_part(self.design, &part) else {
            let write = Write::one(self.alloc, part);
            return self.write_any(&write);
        };
        let (spot, digits) = found;
        self.write(&spot, digits)?;
        Ok(())
    }

    /// A nonblocking update of bits of one word by a process, due in this slot.
    #[inline(always)]
    pub(crate) fn update(
        &mut self,
        process: usize,
        spot: &'a Spot,
        digits: Vec4,
    ) -> Result<(), AllocError>
        ghost plan: { Plan }
        requires agrees { Agrees plan.design plan.terms self.old }
        requires spot { IsSpotIn plan.design.signals spot.now }
        requires size { length digits ≡ spot.now.width }
        ensures state { OnOk result (state_of self.new ≡ record (state_of self.old) {
          updates = updates_after process self.old.regions.time (Some (0, spot_write spot.now digits)) self.old.regions.updates;
        }) }
        ensures keeps { OnOk result (Keeps plan.design plan.terms self.old self.new) }
        ensures others { self.new ≡ record self.old { regions = self.new.regions } }
    {
        let bits = Bits {
            spot,
            value: digits.value_plane(),
            unknown: digits.unknown_plane(),
        };
        self.regions.push_bits(process, bits)?;
        Ok(())
    }

    /// A nonblocking update of a place that indices choose by a process, due in this slot.
    #[inline(never)]
    pub(crate) fn update_chosen(
        &mut self,
        process: usize,
        place: &ChosenPlace,
        e: &Resolved,
    ) -> Result<(), AllocError>
        ghost plan: { Plan }
        requires agrees { Agrees plan.design plan.terms self.old }
        requires place { IsChosenIn plan.design.signals place.now }
        requires value { e.now.signals ≡ plan.design.signals }
        ensures state { OnOk result (state_of self.new ≡ record (state_of self.old) {
          updates = updates_after process self.old.regions.time (Some (
            0,
            chosen_write place.now
                (chosen_value place.now e.now self.old.watched.store self.old.regions.time) self.old.watched.store self.old.regions.time,
          )) self.old.regions.updates;
        }) }
        ensures keeps { OnOk result (Keeps plan.design plan.terms self.old self.new) }
        ensures others { self.new ≡ record self.old { regions = self.new.regions } }
    {
        let time = self.regions.time();
        let digits = e.cut_value(place.width, &self.watched.store, time);
        let part = place.part(digits, &self.watched.store, time);
        let write = Write::one(self.alloc, part);
        self.regions.push_any(process, write)?;
        Ok(())
    }

    /// A nonblocking update of a target by a process, due in so many ticks.
    #[inline(never)]
    pub(crate) fn update_any(
        &mut self,
        process: usize,
        ticks: Ticks,
        target: &Target,
        e: &Typed,
    ) -> Result<(), AllocError>
        ghost plan: { Plan }
        requires agrees { Agrees plan.design plan.terms self.old }
        requires early { self.old.regions.time < 2 ^ 62 }
        ensures state { OnOk result (state_of self.new ≡ record (state_of self.old) {
          updates = updates_after process self.old.regions.time
              (Some (ticks.count, assignment target.now e.now self.old.watched.store self.old.regions.time)) self.old.regions.updates;
        }) }
        ensures keeps { OnOk result (Keeps plan.design plan.terms self.old self.new) }
        ensures others { self.new ≡ record self.old { regions = self.new.regions } }
    {
        let time = self.regions.time();
        let digits = cut_value(target, e, &self.watched.store, time);
        let write = write_of(self.alloc, target, digits, &self.watched.store, time)?;
        if ticks.count == 0 {
            self.regions.push_any(process, write)?;
            return Ok(());
        }
        let due = time + ticks.count;
        self.regions.push_late(process, due, write)?;
        Ok(())
    }
}
