//! The processes of a run.
ghost use Rattle.std.specs.Prelude.{◌≡◌, ◌++◌, ◌∷◌, [], Some, None, length, slice_get, slice_set, MatchOption, OnOk, OnErr};
ghost use Rattle.std.specs.List.{list_any};
ghost use Rattle.vs_design.specs.Stores.{changed_at};
ghost use Rattle.vs_run_active.specs.ProcessPlaces.{is_active, roused_in, triggered_at, waits_at, woken_in};

use crate::{Process, Wait, recount};
use std::alloc::{AllocError, Global};
use std::marker::Model;

/// A process in its place among the others.
#[derive(Drop)]
struct Kept<'a> {
    process: Process<'a>,
}

impl<'a> Model for Kept<'a> {
    ghost use Rattle.std.specs.Coded.{codes};
    ghost use Rattle.vs_design.specs.contracts.statement.Statement as statement;
    ghost use Rattle.vs_run_active.specs.declared.process.Process.{Process};

    ghost Value = { Process };

    ghost coded = { Prim.hlevel (codes, statement.the_row.coded) };

    ghost view = { λ k. k.process };
}

impl<'a> Kept<'a> {
    /// The process.
    #[inline(always)]
    fn process(&self) -> &Process<'a>
        ensures { result.now ≡ self.now }
    {
        &self.process
    }

    /// Another one takes its place.
    #[inline(always)]
    fn set(&mut self, process: Process<'a>)
        ensures { self.new ≡ process.entry }
    {
        self.process = process;
    }
}

/// The processes, and how many of these are active. A contract sees the processes.
#[derive(Drop)]
pub struct Processes<'a> {
    items: Vec<Kept<'a>>,
    going: usize,
}

impl<'a> Model for Processes<'a> {
    ghost use Rattle.std.specs.Prelude.{◌≡◌, List};
    ghost use Rattle.std.specs.Coded.{codes};
    ghost use Rattle.vs_design.specs.contracts.statement.Statement as statement;
    ghost use Rattle.vs_run_active.specs.declared.process.Process.{Process};
    ghost use Rattle.vs_run_active.specs.ProcessPlaces.{is_active};
    ghost use Rattle.vs_run_active.specs.ListCounts.{count};

    ghost Value = { List Process };

    ghost coded = { Prim.hlevel (codes, statement.the_row.coded) };

    ghost view = { λ p. p.items.items };

    ghost invariant = { λ p. p.going ≡ count is_active p.items.items };
}

/// Whether a process is active.
#[inline(always)]
fn is_active(process: &Process) -> bool
    ensures { result ≡ is_active process.now }
{
    process.is_going()
}

/// Whether a process waits for the event control of a number.
#[inline(always)]
fn waits_at(process: &Process, control: u32) -> bool
    ensures { result ≡ waits_at control process.now.wait }
{
    match process.wait {
        Wait::Terms(number, _) => number == control,
        _ => false,
    }
}

impl<'a> Processes<'a> {
    /// None.
    pub fn new(alloc: Global) -> Self
        ensures { result ≡ [] }
    {
        Processes {
            items: Vec::new(alloc),
            going: 0,
        }
    }

    /// Adds one; without memory they are as they were.
    pub fn push(&mut self, process: Process<'a>) -> Result<(), AllocError>
        ensures pushed { OnOk result (self.new ≡ self.old ++ process.entry ∷ []) }
        ensures unpushed { OnErr result (self.new ≡ self.old) }
    {
        let active = is_active(&process);
        self.items.push(Kept { process })?;
        self.going = recount(self.going, false, active);
        Ok(())
    }

    /// How many there are.
    pub fn len(&self) -> usize
        ensures { result ≡ length self.now }
    {
        self.items.len()
    }

    /// A process.
    #[inline(always)]
    pub fn get(&self, process: usize) -> Option<&Process<'a>>
        ensures { MatchOption result (slice_get self.now process ≡ None) (λ x. slice_get self.now process ≡ Some x.now) }
    {
        match self.items.get(process) {
            Some(kept) => Some(kept.process()),
            None => None,
        }
    }

    /// One takes the place of another; past the end there is none.
    #[inline(always)]
    pub fn put(&mut self, number: usize, process: Process<'a>)
        ensures { self.new ≡ slice_set self.old number process.entry }
    {
        let Some(x) = self.items.get_mut(number) else {
            return;
        };
        let was = is_active(x.process());
        let active = is_active(&process);
        x.set(process);
        self.going = recount(self.going, was, active);
    }

    /// Whether one is active.
    #[inline(always)]
    pub fn has_going(&self) -> bool
        ensures { result ≡ list_any is_active self.now }
    {
        self.going > 0
    }

    /// One that waits for the event control of a number goes on, and the answer is whether it is active now and wasn't before; one past the end is
    /// none.
    #[inline(always)]
    pub(crate) fn wake(&mut self, process: usize, control: u32) -> bool
        ensures { self.new ≡ changed_at (triggered_at control) process self.old }
    {
        let Some(x) = self.get(process) else {
            return false;
        };
        if !waits_at(x, control) {
            return false;
        }
        let mut woken = *x;
        let active = woken.trigger(control);
        self.put(process, woken);
        active
    }

    /// One goes on where it is inactive, and the answer is whether it is active now; one past the end is none.
    #[inline(always)]
    pub(crate) fn rouse(&mut self, process: usize) -> bool
        ensures { self.new ≡ changed_at roused_in process self.old }
    {
        let Some(x) = self.get(process) else {
            return false;
        };
        let mut roused = *x;
        roused.rouse();
        let active = is_active(&roused);
        self.put(process, roused);
        active
    }

    /// One goes on where its delay ends at a time in ticks, and the answer is whether it is active now; one past the end is none.
    #[inline(always)]
    pub(crate) fn wake_at(&mut self, process: usize, time: u64) -> bool
        ensures { self.new ≡ changed_at (woken_in time) process self.old }
    {
        let Some(x) = self.get(process) else {
            return false;
        };
        let mut woken = *x;
        woken.wake(time);
        let active = is_active(&woken);
        self.put(process, woken);
        active
    }
}
