//! One step of a process in a run, but for the process's own place (IEEE 1364-2005, clause 9).
ghost use Rattle.std.specs.Prelude.{◌≡◌, ◌<◌, ◌^◌, Some, length, slice_set, IfOk, OnOk, OnErr};
ghost use Rattle.std.specs.Io.KnownBytes.{Appends};
ghost use Rattle.vs_design.specs.vs_logic4.specs.Comparisons.{truth};
ghost use Rattle.vs_design.specs.InOrder.{IsStoreOf};
ghost use Rattle.vs_eval.specs.Values.{value_of};
ghost use Rattle.vs_process.specs.vs_strobe.specs.Lines.{full_line};
ghost use Rattle.vs_process.specs.Choices.{index_of, repeat_lands, turns_lands};
ghost use Rattle.vs_process.specs.Steps.{branch};
ghost use Rattle.vs_run_active.specs.vs_process.specs.States.{calls_after};
ghost use Rattle.vs_run_steps.specs.Runs.{Agrees, Keeps, Plan, counters_at, counters_of, state_of};
ghost use Rattle.vs_run_steps.specs.Stepping.{Acts, IsKnown, action_text};
ghost use Rattle.vs_vcd_writing.specs.Progress.{is_write_fault};
ghost use Rattle.vs_vcd_writing.specs.Sinks.{AppendsPart, failed_after};

use crate::called::Called;
use crate::run::RunState;
use std::alloc::AllocError;
use vs_design::vs_logic4::Digit;
use vs_eval::Resolved;
use vs_process::vs_strobe::{Format, full_line};
use vs_process::{Action, Instruction, Repeat, Turns, case_of};
use vs_run_active::{Wait, pause};
use vs_run_regions::Due;
use vs_run_regions::vs_time_wheel::EventQueue;
use vs_vcd_writing::{Sink, WriterFault, write_all};

/// Where a step of a process leads: the index where it stands then, and what it waits for there.
#[derive(Clone, Copy)]
pub(crate) enum Went<'a> {
    /// It stays active.
    On(usize),
    /// It waits.
    Rests(usize, Wait<'a>),
}

impl<'a, Q: EventQueue<Due>> RunState<'a, Q> {
    /// Writes the line of a `$display` (IEEE 1364-2005, clause 17.1.1).
    #[inline(never)]
    fn display<L: Sink>(&self, format: &Format, lines: &mut L) -> Result<(), WriterFault>
        ensures ok { OnOk result (Appends (L.bytes lines.old) (L.bytes lines.new)
            (full_line format.now self.now.watched.store self.now.regions.time)) }
        ensures err { OnErr result (AppendsPart (L.bytes lines.old) (L.bytes lines.new)
            (full_line format.now self.now.watched.store self.now.regions.time)) }
        ensures failures { L.failed lines.new ≡ failed_after (is_write_fault result) (L.failed lines.old) }
    {
        let time = self.regions.time();
        let text = full_line(self.alloc, format, &self.watched.store, time)?;
        write_all(lines, &text)?;
        Ok(())
    }

    /// Writes the line that an instruction makes, where it makes one.
    #[inline(always)]
    pub(crate) fn print<L: Sink>(&self, action: &Action, lines: &mut L) -> Result<(), WriterFault>
        ensures ok { OnOk result (Appends (L.bytes lines.old) (L.bytes lines.new)
            (action_text action.now self.now.watched.store self.now.regions.time)) }
        ensures err { OnErr result (AppendsPart (L.bytes lines.old) (L.bytes lines.new)
            (action_text action.now self.now.watched.store self.now.regions.time)) }
        ensures failures { L.failed lines.new ≡ failed_after (is_write_fault result) (L.failed lines.old) }
    {
        match action {
            Action::Display(format) => self.display(format, lines),
            _ => Ok(()),
        }
    }

    /// The index where a condition leads, of where it is true and of where it isn't.
    #[inline(always)]
    fn branch(&self, e: &Resolved, then: usize, other: usize) -> usize
        requires { IsStoreOf e.now.signals self.now.watched.store }
        ensures { result ≡ branch (truth (value_of e.now.expression self.now.watched.store self.now.regions.time)) then other }
    {
        let digits = e.value(&self.watched.store, self.regions.time());
        match digits.truth() {
            Digit::One => then,
            Digit::Zero | Digit::X | Digit::Z => other,
        }
    }

    /// The index where a `repeat` leads that reads its count.
    #[inline(always)]
    fn repeat(&mut self, number: usize, choice: &Repeat) -> usize
        requires { number < length (counters_of self.old) }
        ensures index { result ≡ index_of choice.now.count
            (repeat_lands choice.now (counters_at number self.old) self.old.watched.store self.old.regions.time).place }
        ensures counters { counters_of self.new ≡ slice_set (counters_of self.old) number
            (repeat_lands choice.now (counters_at number self.old) self.old.watched.store self.old.regions.time).counters }
        ensures others { self.new ≡ record self.old { counters = self.new.counters } }
    {
        let time = self.regions.time();
        choice.index(&mut self.counters[number], &self.watched.store, time)
    }

    /// The index where one leads that has its count.
    #[inline(always)]
    fn turn(&mut self, number: usize, choice: &Turns) -> usize
        requires { number < length (counters_of self.old) }
        ensures index { result ≡ index_of choice.now.count (turns_lands choice.now (counters_at number self.old)).place }
        ensures counters { counters_of self.new ≡ slice_set (counters_of self.old) number
            (turns_lands choice.now (counters_at number self.old)).counters }
        ensures others { self.new ≡ record self.old { counters = self.new.counters } }
    {
        choice.index(&mut self.counters[number])
    }

    /// Notes a call of `$strobe` by a process.
    #[inline(never)]
    fn strobe(&mut self, process: usize, format: &'a Format<'a>) -> Result<(), AllocError>
        ensures state { OnOk result (state_of self.new ≡ record (state_of self.old) {
          calls = calls_after process (Some format.entry.now) self.old.calls.items;
        }) }
        ensures others { self.new ≡ record self.old { calls = self.new.calls } }
    {
        self.calls.push(Called {
            by: process,
            format,
        })?;
        Ok(())
    }

    /// Does what an instruction of a process does but print, and answers where it leads. The process's own place stays.
    #[inline(always)]
    pub(crate) fn act(
        &mut self,
        number: usize,
        x: &'a Instruction<'a>,
    ) -> Result<Went<'a>, AllocError>
        ghost plan: { Plan }
        requires agrees { Agrees plan.design plan.terms self.old }
        requires early { self.old.regions.time < 2 ^ 62 }
        requires known { IsKnown plan.design.signals x.now.action }
        requires there { number < length (counters_of self.old) }
        ensures acts { IfOk result (λ went. Acts number x.entry.now.action x.entry.now.next self.old self.new went) }
        ensures keeps { OnOk result (Keeps plan.design plan.terms self.old self.new) }
    {
        let time = self.regions.time();
        match &x.action {
            Action::Nothing => Ok(Went::On(x.next)),
            Action::Assign(spot, e) => {
                let digits = e.cut_value(spot.width, &self.watched.store, time);
                self.write(spot, digits)?;
                Ok(Went::On(x.next))
            }
            Action::AssignChosen(place, e) => {
                self.assign_chosen(place, e)?;
                Ok(Went::On(x.next))
            }
            Action::AssignAny(target, e) => {
                self.assign_any(target, e)?;
                Ok(Went::On(x.next))
            }
            Action::Update(spot, e) => {
                let digits = e.cut_value(spot.width, &self.watched.store, time);
                self.update(number, spot, digits)?;
                Ok(Went::On(x.next))
            }
            Action::UpdateChosen(place, e) => {
                self.update_chosen(number, place, e)?;
                Ok(Went::On(x.next))
            }
            Action::UpdateAny(ticks, target, e) => {
                self.update_any(number, *ticks, target, e)?;
                Ok(Went::On(x.next))
            }
            Action::Branch(e, other) => Ok(Went::On(self.branch(e, x.next, *other))),
            Action::Case(all) => Ok(Went::On(case_of(all, x.next, &self.watched.store, time))),
            Action::Repeat(choice) => Ok(Went::On(self.repeat(number, choice))),
            Action::Turns(choice) => Ok(Went::On(self.turn(number, choice))),
            Action::Display(_) => Ok(Went::On(x.next)),
            Action::Strobe(format) => {
                self.strobe(number, format)?;
                Ok(Went::On(x.next))
            }
            Action::Finish => {
                self.finishing = true;
                Ok(Went::On(x.next))
            }
            Action::Delay(_, ticks) => Ok(Went::Rests(x.next, pause(time, ticks.count))),
            Action::Wait(control, terms) => Ok(Went::Rests(x.next, Wait::Terms(*control, terms))),
        }
    }
}
