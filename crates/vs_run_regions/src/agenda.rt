//! The list of enabled events, in the order in which they are offered to a policy that chooses.
//!
//! It is a hint: what stands in it is tested before it is made, so that nothing of a run's contract rests on it.

use crate::entries::{AgendaEntry, Entries};
use crate::event::Event;
use crate::vs_time_wheel::EventQueue;
use crate::{Due, Pick, Regions};
use std::alloc::{AllocError, Global};
use vs_run_active::Queue;

/// Where the signals that an activated update names begin and end.
#[derive(Clone, Copy)]
struct Named {
    from: usize,
    to: usize,
}

/// The enabled events in the order in which they came.
///
/// Events are taken from either end in constant time. One that leaves from within leaves a gap, which goes as soon as it stands at an end. The place of
/// a chosen event is sought from the nearer end where some are hidden or gaps, and an update that uncovers another one of one of its signals costs a
/// scan of what stands after it.
pub struct Agenda {
    entries: Entries,
    /// How many entries have left at the front, modulo 2^64.
    passed: usize,
    /// How many entries are hidden.
    hidden: usize,
    /// How many entries are gaps.
    gaps: usize,
    /// For each signal, how many parts of listed updates name it.
    claims: Vec<usize>,
    /// The updates that were activated last, and the signals that they name.
    activated: Vec<Named>,
    signals: Vec<usize>,
    /// For each continuous assignment whose update is listed, the number of its entry among all that have entered at the end.
    proposed: Vec<Option<usize>>,
    /// The index of the last move's event, where it stood in the list.
    last: Option<usize>,
}

impl Drop for Agenda {
    fn drop(self) {
        let Self {
            entries: _,
            passed: _,
            hidden: _,
            gaps: _,
            claims: _,
            activated: _,
            signals: _,
            proposed: _,
            last: _,
        } = self;
    }
}

impl Agenda {
    /// An empty list, for a design with so many signals and continuous assignments.
    pub fn new(alloc: Global, signals: usize, assigns: usize) -> Result<Self, AllocError> {
        Ok(Agenda {
            entries: Entries {
                items: Vec::new(alloc),
                from: 0,
            },
            passed: 0,
            hidden: 0,
            gaps: 0,
            claims: vec![in alloc; 0; signals]?,
            activated: Vec::new(alloc),
            signals: Vec::new(alloc),
            proposed: vec![in alloc; None; assigns]?,
            last: None,
        })
    }

    /// Puts an event at the end.
    fn add(&mut self, event: Event) -> Result<(), AllocError> {
        self.entries.push_back(AgendaEntry {
            event: Some(event),
            hidden: false,
        })?;
        Ok(())
    }

    /// Whether a listed update names one of the signals that were noted from a place on.
    fn are_claimed(&self, from: usize) -> bool {
        for i in from..self.signals.len() {
            if let Some(signal) = self.signals.get(i)
                && let Some(count) = self.claims.get(*signal)
                && *count > 0
            {
                return true;
            }
        }
        false
    }

    /// Each part of an update that names one of the signals that were noted from a place on is counted.
    fn claim_all(&mut self, from: usize) {
        for i in from..self.signals.len() {
            if let Some(signal) = self.signals.get(i) {
                let signal = *signal;
                if let Some(count) = self.claims.get_mut(signal) {
                    *count = count.saturating_add(1);
                }
            }
        }
    }

    /// Puts an activated update at the end; it is hidden where an older one which names one of its signals is listed.
    fn add_update<Q: EventQueue<Due>>(
        &mut self,
        number: usize,
        regions: &Regions<Q>,
    ) -> Result<(), AllocError> {
        let from = self.signals.len();
        regions.name_all(number, &mut self.signals)?;
        let to = self.signals.len();
        let hidden = self.are_claimed(from);
        self.claim_all(from);
        self.activated.push(Named { from, to })?;
        let event = Some(Event::Make(number));
        self.entries.push_back(AgendaEntry { event, hidden })?;
        if hidden {
            self.hidden = self.hidden.saturating_add(1);
        }
        Ok(())
    }

    /// The signals that an event names, if it is an update.
    fn signals_of(&self, event: Option<Event>) -> &[usize] {
        let Some(Event::Make(number)) = event else {
            return &[];
        };
        let Some(update) = self.activated.get(number) else {
            return &[];
        };
        match self.signals.get(update.from..update.to) {
            Some(signals) => signals,
            None => &[],
        }
    }

    /// The index of the event that the policy chooses among those that aren't hidden.
    pub fn pick<P: Pick>(&self, policy: &mut P) -> Option<usize> {
        let others = self.hidden.saturating_add(self.gaps);
        let count = self.entries.len().saturating_sub(others);
        if count == 0 {
            return None;
        }
        let number = policy.pick(count);
        if others == 0 {
            return Some(number);
        }
        self.index_of(number, count)
    }

    /// The index of an event by its number among so many that aren't hidden. It is sought from the nearer end.
    fn index_of(&self, number: usize, count: usize) -> Option<usize> {
        let last = count.saturating_sub(1);
        let from_end = number > last / 2;
        let mut left = if from_end {
            last.saturating_sub(number)
        } else {
            number
        };
        let len = self.entries.len();
        for step in 0..len {
            let index = if from_end { len - 1 - step } else { step };
            if self.is_shown(index) {
                if left == 0 {
                    return Some(index);
                }
                left -= 1;
            }
        }
        None
    }

    /// Whether there is an event at an index, and it isn't hidden.
    fn is_shown(&self, index: usize) -> bool {
        match self.entries.get(index) {
            Some(entry) => !entry.hidden && !entry.event.is_none(),
            None => false,
        }
    }

    /// Where the last move's event stood.
    pub fn last(&self) -> Option<usize> {
        self.last
    }

    /// The event at an index.
    pub fn event_at(&self, index: usize) -> Option<Event> {
        self.entries.get(index)?.event
    }

    /// Takes the event at an index out of the list.
    pub fn remove(&mut self, index: Option<usize>) {
        if let Some(index) = index {
            self.remove_within(index);
        }
    }

    /// Takes the event at an index out of a list that may have updates; within the list it leaves a gap.
    #[inline(never)]
    fn remove_within(&mut self, index: usize) {
        let Some(entry) = self.entries.get_mut(index) else {
            return;
        };
        let left = *entry;
        entry.event = None;
        entry.hidden = false;
        if !left.event.is_none() {
            self.gaps = self.gaps.saturating_add(1);
        }
        if left.hidden {
            self.hidden = self.hidden.saturating_sub(1);
        }
        let passed = self.passed;
        self.trim_front();
        self.trim_back();
        let trimmed = self.passed.wrapping_sub(passed);
        self.release_all(left.event, index.saturating_sub(trimmed));
    }

    /// Takes the gaps at the front away.
    #[inline(never)]
    fn trim_front(&mut self) {
        for _ in 0..self.entries.len() {
            match self.entries.get(0) {
                Some(entry) if entry.event.is_none() => {}
                _ => return,
            }
            self.entries.pop_front();
            self.passed = self.passed.wrapping_add(1);
            self.gaps = self.gaps.saturating_sub(1);
        }
    }

    /// Takes the gaps at the end away.
    fn trim_back(&mut self) {
        for _ in 0..self.entries.len() {
            match self.entries.get(self.entries.len().wrapping_sub(1)) {
                Some(entry) if entry.event.is_none() => {}
                _ => return,
            }
            let _ = self.entries.items.pop();
            self.gaps = self.gaps.saturating_sub(1);
        }
    }

    /// An event has left the list, and what stood after it begins at an index: where it is an update, its parts no longer hide others.
    fn release_all(&mut self, event: Option<Event>, from: usize) {
        for i in 0..self.signals_of(event).len() {
            if let Some(signal) = self.signals_of(event).get(i) {
                let signal = *signal;
                self.release(signal, from);
            }
        }
    }

    /// A part of an update that names this signal has left the list: the oldest of the other updates that name it is no longer hidden,
    /// unless it waits for another signal. None of those in front of an index names it, since the one that has left wasn't hidden.
    fn release(&mut self, signal: usize, from: usize) {
        let Some(count) = self.claims.get_mut(signal) else {
            return;
        };
        *count = count.saturating_sub(1);
        if *count == 0 {
            return;
        }
        for index in from..self.entries.len() {
            if let Some(entry) = self.entries.get(index)
                && self.signals_of(entry.event).contains(&signal)
            {
                self.show(index);
                return;
            }
        }
    }

    /// An update is no longer hidden, unless it waits for another one.
    fn show(&mut self, index: usize) {
        if self.waits(index) {
            return;
        }
        if let Some(entry) = self.entries.get_mut(index)
            && entry.hidden
        {
            entry.hidden = false;
            self.hidden = self.hidden.saturating_sub(1);
        }
    }

    /// Whether an older update than the one at an index names one of its signals, where it has several parts.
    fn waits(&self, index: usize) -> bool {
        let Some(update) = self.entries.get(index) else {
            return false;
        };
        let signals = self.signals_of(update.event);
        if signals.len() < 2 {
            return false;
        }
        for older in 0..index {
            if let Some(entry) = self.entries.get(older)
                && self.shares(entry.event, signals)
            {
                return true;
            }
        }
        false
    }

    /// Whether an event is an update that names one of these signals.
    fn shares(&self, event: Option<Event>, signals: &[usize]) -> bool {
        let named = self.signals_of(event);
        signals.iter().any(|signal| named.contains(signal))
    }

    /// Puts what the last move has woken at the end.
    pub fn add_woken(&mut self, queue: &mut Queue, first_process: usize) -> Result<(), AllocError> {
        for _ in 0..queue.len() {
            let Some(number) = queue.pop() else {
                return Ok(());
            };
            if number < first_process {
                self.add(Event::Evaluate(number))?;
            } else {
                self.add(Event::Step(number - first_process))?;
            }
        }
        Ok(())
    }

    /// Brings the list up to date after the move of an event: what it has woken enters at the end, and the event leaves, unless its process goes on.
    ///
    /// An evaluation writes nothing, so that it wakes nothing: where its value waits to be written, it stands in the queue alone.
    pub fn follow(
        &mut self,
        event: Event,
        index: Option<usize>,
        goes_on: bool,
        queue: &mut Queue,
        first_process: usize,
    ) -> Result<(), AllocError> {
        self.last = index;
        if let Event::Evaluate(assign) = event {
            let waits = queue.pop().is_some();
            return self.follow_evaluation(assign, index, waits);
        }
        self.add_woken(queue, first_process)?;
        if goes_on {
            return Ok(());
        }
        self.remove(index);
        if let Event::Propagate(assign) = event {
            self.set_proposed(assign, None);
        }
        Ok(())
    }

    /// Brings the list up to date after an evaluation: its event leaves, and the update enters at the end, or leaves, with the value that waits.
    fn follow_evaluation(
        &mut self,
        assign: usize,
        index: Option<usize>,
        waits: bool,
    ) -> Result<(), AllocError> {
        self.remove(index);
        let listed = self.proposed.get(assign).copied().unwrap_or(None);
        if waits {
            if listed.is_none() {
                let place = self.passed.wrapping_add(self.entries.len());
                self.add(Event::Propagate(assign))?;
                self.set_proposed(assign, Some(place));
            }
            return Ok(());
        }
        if let Some(place) = listed {
            self.remove(Some(place.wrapping_sub(self.passed)));
            self.set_proposed(assign, None);
        }
        Ok(())
    }

    /// Notes where the update of a continuous assignment is listed.
    fn set_proposed(&mut self, assign: usize, place: Option<usize>) {
        if let Some(proposed) = self.proposed.get_mut(assign) {
            *proposed = place;
        }
    }

    /// Lists the updates that were activated.
    pub fn list_updates<Q: EventQueue<Due>>(
        &mut self,
        regions: &Regions<Q>,
    ) -> Result<(), AllocError> {
        self.activated.clear();
        self.signals.clear();
        for number in 0..regions.active_len() {
            self.add_update(number, regions)?;
        }
        Ok(())
    }
}
