//! Exact times: the processes with delays run alone, without nets, and without what waits for events.

use crate::facts::Facts;
use crate::lists::{empty_lists, note};
use crate::mark;
use crate::points::Point;
use crate::texts::{TextFacts, TextKind};
use std::alloc::{AllocError, Global};
use std::mem;
use vs_design::vs_logic4::{CaseKind, Digit, Vec4};
use vs_design::{Statement, Store, Target, Typed, Write};
use vs_process::vs_eval::{cut_value, value, write_of};

/// How many statements are run in all, and how many in one slot by one process.
const MAX_STEPS: usize = 200_000;

const MAX_SLOT_STEPS: usize = 10_000;

/// How many times delays end in all.
const MAX_ENDS: usize = 20_000;

/// How many pairs of an end and a process that waits are looked at.
const MAX_LOOKS: usize = 4_000_000;

/// When the statements of processes with delays run, and when the signals that edges are awaited of change.
#[derive(Drop)]
pub struct Course {
    times: Vec<Vec<Vec<u64>>>,
    rises: Vec<Vec<u64>>,
    falls: Vec<Vec<u64>>,
}

/// A process on its way.
#[derive(Drop)]
struct Thread {
    process: usize,
    /// The statement that comes next.
    place: usize,
    /// When it goes on, where it does.
    due: Option<u64>,
    /// For each `repeat` that it is in, how many turns are left.
    counters: Vec<Option<u64>>,
    /// Which statements have a control in them.
    has_control: Vec<bool>,
}

/// How a thread goes on.
#[derive(Clone, Copy)]
enum Step {
    /// At once, at a statement.
    To(usize),
    /// At a statement, so many ticks later.
    After(u64, usize),
    /// Never.
    Stop,
}

/// An update of a nonblocking assignment that is due.
#[derive(Drop)]
struct Update {
    time: u64,
    write: Write,
}

/// A run of threads.
#[derive(Drop)]
struct Runner<'d> {
    alloc: Global,
    store: Store<'d>,
    course: Course,
    /// Which signals' edges are noted.
    is_watched: Vec<bool>,
    updates: Vec<Update>,
    /// When the first of them is due.
    next_update: u64,
    left: usize,
}

/// The truth of an expression.
fn truth_of(e: &Typed, store: &Store, time: u64) -> Digit {
    value(e, store, time).truth()
}

/// Which item of a `case` is taken; the number of items where none is.
fn item_taken(
    kind: CaseKind,
    selector: Vec4,
    items: &[(Vec<Typed>, Statement)],
    store: &Store,
    time: u64,
) -> usize {
    let mut taken = items.len();
    for (index, (labels, _)) in items.iter().enumerate() {
        if labels.is_empty() && taken == items.len() {
            taken = index;
        }
        for label in labels {
            if kind.matches(selector, value(label, store, time)) {
                return index;
            }
        }
    }
    taken
}

/// How many turns a `repeat` has.
fn turns_of(signed: bool, e: &Typed, store: &Store, time: u64) -> u64 {
    let digits = value(e, store, time);
    if signed {
        match digits.to_signed() {
            Some(count) => if count < 0 { 0 } else { count as u64 },
            None => 0,
        }
    } else {
        digits.to_number().unwrap_or(0)
    }
}

/// The statement to which one leads, by a number among its ways; the last way where there are fewer.
fn way(text: &TextFacts, place: usize, index: usize) -> Step {
    let Some(nexts) = text.flow.nexts.get(place) else {
        return Step::Stop;
    };
    match nexts.get(index) {
        Some(to) => Step::To(*to),
        None => match nexts.last() {
            Some(to) => Step::To(*to),
            None => Step::Stop,
        },
    }
}

/// Which statements of a text have a control in them. It takes as long as the text.
fn controls_in(alloc: Global, points: &[Point]) -> Result<Vec<bool>, AllocError> {
    let mut marks = vec![in alloc; false; points.len()]?;
    let mut next_control = usize::MAX;
    for number in (0..points.len()).rev() {
        if let Some(point) = points.get(number) {
            if let Some(mark) = marks.get_mut(number) {
                *mark = next_control < point.behind;
            }
            if point.is_delay() || point.is_event() {
                next_control = number;
            }
        }
    }
    Ok(marks)
}

impl Thread {
    /// A process at its start.
    fn start(alloc: Global, process: usize, text: &TextFacts) -> Result<Thread, AllocError> {
        Ok(Thread {
            process,
            place: text.flow.start,
            due: Some(0),
            counters: vec![in alloc; None; text.points.len()]?,
            has_control: controls_in(alloc, &text.points)?,
        })
    }

    /// Whether the statement that comes next has a control in it.
    fn is_over_control(&self) -> bool {
        match self.has_control.get(self.place) {
            Some(mark) => *mark,
            None => false,
        }
    }

    /// Begins a turn of the `repeat` that comes next, where one is left; `count` is how many there are in all.
    fn turn(&mut self, count: u64) -> bool {
        let Some(counter) = self.counters.get_mut(self.place) else {
            return false;
        };
        let left = counter.unwrap_or(count);
        if left == 0 {
            *counter = None;
            return false;
        }
        *counter = Some(left.saturating_sub(1));
        true
    }
}

impl<'d> Runner<'d> {
    /// Notes that a statement runs.
    fn note(&mut self, process: usize, place: usize, time: u64) -> Result<(), AllocError> {
        if let Some(lists) = self.course.times.get_mut(process) {
            note(lists, place, time)?;
        }
        Ok(())
    }

    /// The lowest bit of a signal: whether it is 1, and whether it is known.
    fn lowest(&self, signal: usize) -> (bool, bool) {
        match self.store.word(signal, 0) {
            Some(word) => (word.value_plane() & 1 == 1, word.unknown_plane() & 1 == 0),
            None => (false, false),
        }
    }

    /// Makes a write to signals, and notes the edges of those that are watched.
    fn put(&mut self, write: &Write, signals: &[usize], time: u64) -> Result<(), AllocError> {
        let watched = match signals.first() {
            Some(signal) => match self.is_watched.get(*signal) {
                Some(true) => Some(*signal),
                _ => None,
            },
            None => None,
        };
        let Some(signal) = watched else {
            self.store.put(write);
            return Ok(());
        };
        let before = self.lowest(signal);
        self.store.put(write);
        let (is_one, is_known) = self.lowest(signal);
        if is_known && before != (is_one, true) && time > 0 {
            let lists = if is_one {
                &mut self.course.rises
            } else {
                &mut self.course.falls
            };
            note(lists, signal, time)?;
        }
        Ok(())
    }

    /// The write of an assignment.
    fn write_by(&self, target: &Target, e: &Typed, time: u64) -> Result<Write, AllocError> {
        let digits = cut_value(target, e, &self.store, time);
        write_of(self.alloc, target, digits, &self.store, time)
    }

    /// Makes the updates that are due before a time.
    fn update_before(&mut self, time: u64) -> Result<(), AllocError> {
        if self.next_update >= time {
            return Ok(());
        }
        self.next_update = u64::MAX;
        let mut later = Vec::new(self.alloc);
        for update in mem::replace(&mut self.updates, Vec::new(self.alloc)) {
            if update.time < time {
                self.store.put(&update.write);
            } else {
                self.next_update = self.next_update.min(update.time);
                later.push(update)?;
            }
        }
        self.updates = later;
        Ok(())
    }

    /// Notes all statements in one.
    fn note_inner(
        &mut self,
        point: &Point,
        process: usize,
        place: usize,
        time: u64,
    ) -> Result<(), AllocError> {
        for inner in place.saturating_add(1)..point.behind {
            self.note(process, inner, time)?;
            self.left = self.left.saturating_sub(1);
        }
        Ok(())
    }

    /// How a thread goes on behind a test.
    fn choose(
        &mut self,
        text: &TextFacts,
        point: &Point,
        thread: &Thread,
        time: u64,
    ) -> Result<Step, AllocError> {
        let place = thread.place;
        if !thread.is_over_control() {
            self.note_inner(point, thread.process, place, time)?;
        }
        match point.statement {
            Statement::If(_, e, _, _) | Statement::While(_, e, _) => {
                match truth_of(e, &self.store, time) {
                    Digit::One => Ok(way(text, place, 0)),
                    Digit::Zero => Ok(way(text, place, 1)),
                    _ if thread.is_over_control() => Ok(Step::Stop),
                    _ => Ok(way(text, place, 1)),
                }
            }
            Statement::Case(_, kind, e, items) => {
                let selector = value(e, &self.store, time);
                let taken = item_taken(*kind, selector, items, &self.store, time);
                Ok(way(text, place, taken))
            }
            _ => Ok(way(text, place, 0)),
        }
    }

    /// One step of a thread.
    fn step(
        &mut self,
        text: &TextFacts,
        point: &Point,
        thread: &mut Thread,
        time: u64,
    ) -> Result<Step, AllocError> {
        let place = thread.place;
        self.note(thread.process, place, time)?;
        match point.statement {
            Statement::Assign(_, target, e) => {
                let write = self.write_by(target, e, time)?;
                self.put(&write, &point.writes, time)?;
                Ok(way(text, place, 0))
            }
            Statement::Later(_, ticks, target, e) => {
                let write = self.write_by(target, e, time)?;
                let time = time.saturating_add(ticks.count);
                self.next_update = self.next_update.min(time);
                self.updates.push(Update { time, write })?;
                Ok(way(text, place, 0))
            }
            Statement::Delay(_, ticks, _) => match way(text, place, 0) {
                Step::To(to) => Ok(Step::After(ticks.count, to)),
                other => Ok(other),
            },
            Statement::Event(_, _, _) => Ok(Step::Stop),
            Statement::Repeat(_, signed, e, _) => {
                let count = turns_of(*signed, e, &self.store, time);
                let index = usize::from(!thread.turn(count));
                Ok(way(text, place, index))
            }
            _ => self.choose(text, point, thread, time),
        }
    }

    /// Runs a thread in one slot.
    fn run_slot(
        &mut self,
        text: &TextFacts,
        thread: &mut Thread,
        time: u64,
    ) -> Result<(), AllocError> {
        thread.due = None;
        for _ in 0..MAX_SLOT_STEPS {
            let Some(point) = text.points.get(thread.place) else {
                return Ok(());
            };
            if self.left == 0 {
                return Ok(());
            }
            self.left = self.left.saturating_sub(1);
            match self.step(text, point, thread, time)? {
                Step::To(to) => thread.place = to,
                Step::After(ticks, to) => {
                    thread.place = to;
                    thread.due = Some(time.saturating_add(ticks));
                    return Ok(());
                }
                Step::Stop => return Ok(()),
            }
        }
        Ok(())
    }

    /// Runs all threads, each when its time comes.
    fn run(&mut self, facts: &Facts, threads: &mut [Thread]) -> Result<(), AllocError> {
        let looks = MAX_LOOKS.checked_div(threads.len()).unwrap_or(0);
        for _ in 0..MAX_ENDS.min(looks) {
            let Some(index) = earliest(threads) else {
                return Ok(());
            };
            let Some(thread) = threads.get_mut(index) else {
                return Ok(());
            };
            let (Some(time), Some(text)) = (thread.due, facts.texts.get(thread.process)) else {
                return Ok(());
            };
            self.update_before(time)?;
            self.run_slot(text, thread, time)?;
        }
        Ok(())
    }
}

/// The thread that goes on first: of those at one time the first one.
fn earliest(threads: &[Thread]) -> Option<usize> {
    let mut found = None;
    let mut least = u64::MAX;
    for (index, thread) in threads.iter().enumerate() {
        if let Some(due) = thread.due {
            if due < least {
                least = due;
                found = Some(index);
            }
        }
    }
    found
}

/// Which signals edges are awaited of, or of nets that show them.
fn watched_of(alloc: Global, facts: &Facts) -> Result<Vec<bool>, AllocError> {
    let mut marks = vec![in alloc; false; facts.design.signals().len()]?;
    for text in &facts.texts {
        for term in &text.terms {
            mark(&mut marks, facts.root(term.term.range.signal));
        }
    }
    Ok(marks)
}

/// The threads of what waits for delays, or for nothing; of other processes what comes before their first wait.
fn threads_of(alloc: Global, facts: &Facts) -> Result<Vec<Thread>, AllocError> {
    let mut threads = Vec::new(alloc);
    for (process, text) in facts.texts.iter().enumerate() {
        if text.kind != TextKind::Block {
            threads.push(Thread::start(alloc, process, text)?)?;
        }
    }
    Ok(threads)
}

/// The threads that have more to do.
fn going(alloc: Global, threads: Vec<Thread>) -> Result<Vec<Thread>, AllocError> {
    let mut left = Vec::new(alloc);
    for thread in threads {
        if thread.due.is_some() {
            left.push(thread)?;
        }
    }
    Ok(left)
}

impl<'d> Runner<'d> {
    /// A run that has not begun.
    fn new(alloc: Global, facts: &Facts<'d>) -> Result<Runner<'d>, AllocError> {
        let count = facts.design.signals().len();
        let mut times = Vec::new(alloc);
        for text in &facts.texts {
            times.push(empty_lists(alloc, text.points.len())?)?;
        }
        Ok(Runner {
            alloc,
            store: Store::start(alloc, facts.design)?,
            course: Course {
                times,
                rises: empty_lists(alloc, count)?,
                falls: empty_lists(alloc, count)?,
            },
            is_watched: watched_of(alloc, facts)?,
            updates: Vec::new(alloc),
            next_update: u64::MAX,
            left: MAX_STEPS,
        })
    }

    /// Runs each thread once, from the start.
    fn begin(&mut self, facts: &Facts, threads: &mut [Thread]) -> Result<(), AllocError> {
        for thread in threads {
            if let Some(text) = facts.texts.get(thread.process) {
                self.run_slot(text, thread, 0)?;
            }
        }
        Ok(())
    }
}

impl Course {
    /// The course of a design's processes, up to a bound.
    pub fn of(alloc: Global, facts: &Facts) -> Result<Course, AllocError> {
        let mut runner = Runner::new(alloc, facts)?;
        let mut threads = threads_of(alloc, facts)?;
        runner.begin(facts, &mut threads)?;
        let mut threads = going(alloc, threads)?;
        runner.run(facts, &mut threads)?;
        let Runner { course, .. } = runner;
        Ok(course)
    }

    /// When a statement of a process runs, rising, as far as that was followed. One under a test without a control in it counts each time.
    pub fn times(&self, process: usize, number: usize) -> &[u64] {
        match self.times.get(process) {
            Some(lists) => match lists.get(number) {
                Some(list) => list,
                None => &[],
            },
            None => &[],
        }
    }

    /// When a variable changes to 1 behind time 0, rising, as far as that was followed.
    pub fn rises(&self, signal: usize) -> &[u64] {
        match self.rises.get(signal) {
            Some(list) => list,
            None => &[],
        }
    }

    /// When a variable changes to 0 behind time 0, rising, as far as that was followed.
    pub fn falls(&self, signal: usize) -> &[u64] {
        match self.falls.get(signal) {
            Some(list) => list,
            None => &[],
        }
    }
}
