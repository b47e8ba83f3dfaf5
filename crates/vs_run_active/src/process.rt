//! Where a process of a run stands in its script, and what it waits for (IEEE 1364-2005, clauses 9.7 and 11.3).
ghost use Rattle.std.specs.Prelude.{ℕ, List, ◌≡◌, ◌<◌, ◌^◌, ◌&&◌, not};
ghost use Rattle.vs_design.specs.declared.statement.Statement.{Statement};
ghost use Rattle.vs_process.specs.Places.{Todo, is_going, is_inactive, is_inside, start_place, stepped_gait};
ghost use Rattle.vs_process.specs.Scripts.{StartsWith, todo_on};
ghost use Rattle.vs_process.specs.Steps.{has_nothing};
ghost use Rattle.vs_process.specs.States as states;
ghost use Rattle.vs_run_active.specs.ProcessPlaces.{ActiveIsDetermined, IsWaitOf, OthersStay, RousedAreDetermined, WakesAreDetermined, WokenAreDetermined, place_by, place_in, roused_in, triggered_at, waits_at, woken_in};

use vs_design::EventTerm;
use vs_process::{Gait, Script};

/// What a process waits for.
#[derive(Clone, Copy)]
pub enum Wait<'a> {
    /// Nothing: it is active, unless it is at its end.
    Nothing(Gait),
    /// The end of a delay, at this time in ticks.
    Until(u64),
    /// The end of a delay of zero ticks.
    Inactive,
    /// One of these terms, by the event control of this number in the process's text.
    Terms(u32, &'a [EventTerm]),
}

/// A process of a run: its script, the index where it stands there, and what it waits for. The counters of its statements `repeat` are kept apart.
#[derive(Clone, Copy)]
pub struct Process<'a> {
    pub script: &'a Script<'a>,
    pub index: usize,
    pub wait: Wait<'a>,
}

/// The gait after a step.
#[inline(always)]
pub fn gait_after(gait: Gait) -> Gait
    ensures { result ≡ stepped_gait gait }
{
    match gait {
        Gait::Fresh => Gait::Fresh,
        Gait::Woken => Gait::Inside,
        Gait::Inside => Gait::Inside,
    }
}

/// What a process waits for when a delay of so many ticks begins.
#[inline(always)]
pub fn pause<'a>(time: u64, ticks: u64) -> Wait<'a>
    requires early { time < 2 ^ 62 }
    requires short { ticks < 2 ^ 62 }
    ensures place { (todo : Todo) → place_by result todo ≡ states.paused time ticks todo }
{
    if ticks == 0 {
        Wait::Inactive
    } else {
        Wait::Until(time + ticks)
    }
}

impl<'a> Process<'a> {
    /// A process at the start of its script.
    pub fn start(script: &'a Script<'a>) -> Self
        ensures place { (body : Statement) (counters : List ℕ) → StartsWith script.entry.now body
            → place_in result counters ≡ start_place body }
        ensures script { result.script.now ≡ script.entry.now }
        ensures waits { IsWaitOf result.script.now result.wait }
    {
        Process {
            script,
            index: script.start(),
            wait: Wait::Nothing(Gait::Fresh),
        }
    }

    /// Whether something is left to do where it stands.
    #[inline(always)]
    fn has_more(&self) -> bool
        ensures { (counters : List ℕ) → has_nothing (todo_on self.now.script.now counters self.now.index) ≡ not result }
    {
        let script = self.script;
        let instructions = script.instructions();
        self.index < instructions.len()
    }

    /// Whether it is active.
    #[inline(always)]
    pub fn is_going(&self) -> bool
        ensures { (counters : List ℕ) → result ≡ is_going (place_in self.now counters) }
    {
        match self.wait {
            Wait::Nothing(_) => self.has_more(),
            _ => false,
        }
    }

    /// Whether it is inactive: a delay of zero ticks (IEEE 1364-2005, clause 11.3).
    #[inline(always)]
    pub fn is_inactive(&self) -> bool
        ensures { (counters : List ℕ) → result ≡ is_inactive (place_in self.now counters) }
    {
        match self.wait {
            Wait::Inactive => true,
            _ => false,
        }
    }

    /// The time in ticks at which its delay ends, where it waits for one.
    #[inline(always)]
    pub fn due(&self) -> Option<u64>
        ensures { (counters : List ℕ) → result ≡ states.due_of (place_in self.now counters) }
    {
        match self.wait {
            Wait::Until(due) => Some(due),
            _ => None,
        }
    }

    /// Whether it is active and has taken a step since its timing control ended.
    #[inline(always)]
    pub fn is_inside(&self) -> bool
        ensures { (counters : List ℕ) → result ≡ is_inside (place_in self.now counters) }
    {
        match self.wait {
            Wait::Nothing(Gait::Inside) => self.has_more(),
            _ => false,
        }
    }

    /// A process that waits at the event control of this number goes on: whether it does, and is active then.
    #[inline(always)]
    pub fn trigger(&mut self, control: u32) -> bool
        ensures new { self.new ≡ triggered_at control self.old }
        ensures going { (counters : List ℕ) → result ≡ (waits_at control self.old.wait && is_going (place_in self.new counters)) }
    {
        match self.wait {
            Wait::Terms(n, _) => {
                if n == control {
                    self.wait = Wait::Nothing(Gait::Woken);
                    self.has_more()
                } else {
                    false
                }
            }
            _ => false,
        }
    }

    /// An inactive process goes on.
    #[inline(always)]
    pub fn rouse(&mut self)
        ensures { self.new ≡ roused_in self.old }
    {
        match self.wait {
            Wait::Inactive => self.wait = Wait::Nothing(Gait::Woken),
            _ => {}
        }
    }

    /// A process whose delay ends at this time, in ticks, goes on.
    #[inline(always)]
    pub fn wake(&mut self, time: u64)
        ensures { self.new ≡ woken_in time self.old }
    {
        match self.wait {
            Wait::Until(due) => {
                if due == time {
                    self.wait = Wait::Nothing(Gait::Woken);
                }
            }
            _ => {}
        }
    }
}

/// Whether a process is active is known without its counters, what a change wakes of the processes that wait at event controls by the controls'
/// numbers, and what becomes of an inactive process and of one whose delay ends by what it waits for (IEEE 1364-2005, clauses 9.7.2 and 11.3).
pub fn wakes_are_determined()
    ensures active { ActiveIsDetermined }
    ensures told { WakesAreDetermined }
    ensures others { OthersStay }
    ensures roused { RousedAreDetermined }
    ensures woken { WokenAreDetermined }
{}
