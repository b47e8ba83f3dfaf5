//! Which event made which other one active.

use std::alloc::{AllocError, Global};
use vs_kernel::vs_run_regions::Due;
use vs_kernel::vs_run_regions::vs_time_wheel::EventQueue;
use vs_kernel::vs_run_steps::needs;
use vs_run_active::Wait;
use vs_run_steps::RunState;

/// What is kept of the events of a slot so far, by their numbers.
#[derive(Drop)]
pub(crate) struct Tracks {
    /// Of each process whether it waits at an event control.
    waits: Vec<bool>,
    /// Of each process its last step.
    pub(crate) stepped: Vec<Option<usize>>,
    /// Of each process the event that has woken it since.
    pub(crate) woken: Vec<Option<usize>>,
    /// Of each continuous assignment whether it is to be evaluated.
    needs: Vec<bool>,
    /// Of each the event that made it so.
    pub(crate) changed: Vec<Option<usize>>,
    /// Of each its last evaluation.
    pub(crate) evaluated: Vec<Option<usize>>,
    /// The steps whose updates are due.
    pub(crate) due: Vec<usize>,
    /// The steps whose updates are activated; none for one of an earlier slot.
    pub(crate) active: Vec<Option<usize>>,
}

// Whether a process waits at an event control.
fn waits<Q: EventQueue<Due>>(run: &RunState<Q>, process: usize) -> bool {
    match run.watched.events.processes.get(process) {
        Some(process) => matches!(process.wait, Wait::Terms(_, _)),
        None => false,
    }
}

/// Puts a number in its place, where there is one.
pub(crate) fn put(numbers: &mut Vec<Option<usize>>, place: usize, number: Option<usize>) {
    if let Some(at) = numbers.get_mut(place) {
        *at = number;
    }
}

/// The number of a place.
pub(crate) fn number_at(numbers: &[Option<usize>], place: usize) -> Option<usize> {
    numbers.get(place).copied().unwrap_or(None)
}

// Puts a mark in its place, where there is one.
fn set(marks: &mut Vec<bool>, place: usize, mark: bool) {
    if let Some(at) = marks.get_mut(place) {
        *at = mark;
    }
}

impl Tracks {
    /// Those of a slot that begins.
    pub(crate) fn new<Q: EventQueue<Due>>(
        alloc: Global,
        run: &RunState<Q>,
    ) -> Result<Self, AllocError> {
        let processes = run.watched.events.processes.len();
        let assigns = run.watched.events.assigns.len();
        let mut tracks = Tracks {
            waits: vec![in alloc; false; processes]?,
            stepped: vec![in alloc; None; processes]?,
            woken: vec![in alloc; None; processes]?,
            needs: vec![in alloc; false; assigns]?,
            changed: vec![in alloc; None; assigns]?,
            evaluated: vec![in alloc; None; assigns]?,
            due: Vec::new(alloc),
            active: Vec::new(alloc),
        };
        tracks.follow(run, None);
        Ok(tracks)
    }

    /// Sees what an event has made active.
    pub(crate) fn follow<Q: EventQueue<Due>>(&mut self, run: &RunState<Q>, event: Option<usize>) {
        for process in 0..self.waits.len() {
            let now = waits(run, process);
            if self.waits.get(process).copied().unwrap_or(false) && !now {
                put(&mut self.woken, process, event);
            }
            set(&mut self.waits, process, now);
        }
        for assign in 0..self.needs.len() {
            let now = needs(run, assign);
            if now && !self.needs.get(assign).copied().unwrap_or(false) {
                put(&mut self.changed, assign, event);
            }
            set(&mut self.needs, assign, now);
        }
    }

    /// The updates that are due are activated: so many, those of earlier slots first.
    pub(crate) fn activate(&mut self, count: usize) -> Result<(), AllocError> {
        self.active.clear();
        for _ in 0..count.saturating_sub(self.due.len()) {
            self.active.push(None)?;
        }
        for number in &self.due {
            self.active.push(Some(*number))?;
        }
        self.due.clear();
        Ok(())
    }
}
