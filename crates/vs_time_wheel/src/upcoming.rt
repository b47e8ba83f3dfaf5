// The events behind the one in front: some in a short list, the others in a calendar.
ghost use Rattle.std.specs.Prelude.{◌≡◌, ◌↔◌, ◌≢◌, ◌≤◌, IsTrue, [], ◌∷◌, ◌++◌, reverse, None, Some, IfErr, IfOk, OnOk, OnErr};
ghost use Rattle.std.specs.Option.{ForSome};
ghost use Rattle.vs_time_wheel.specs.Bag.{SameBag, least_time, oldest_at, sooner, without_oldest};
ghost use Rattle.vs_time_wheel.specs.Front.{IsAhead};
ghost use Rattle.vs_time_wheel.specs.ShortList.{AreInOrder, IsShortList, IsNextDue, next_in_order};
ghost use Rattle.vs_time_wheel.specs.Queue.{Queue};

use crate::calendar::Calendar;
use crate::law::EventQueue;
use crate::timing::{Full, Memory, Timed};
use std::alloc::Global;
use std::marker::Model;

/// The room of the list, in events.
const ROOM: usize = 16;

/// Events in a short sorted list, and the others in a calendar. A handful of timers never touch the calendar.
/// An event goes to the list where there is room and all of the calendar is due later, so that of one time the listed ones are older.
/// The list never grows: it takes no memory but its room, and no call moves more events than that.
#[derive(Drop)]
pub struct Upcoming<E> {
    // The soonest last, and of one time the oldest last.
    list: Vec<Timed<E>>,
    // The least time of the calendar.
    least: Option<u64>,
    calendar: Calendar<E>,
    // The least time of all.
    next: Option<u64>,
}

impl<E> Model for Upcoming<E> {
    ghost Value = { Queue E };

    ghost view = { λ u. record { bag = reverse u.list.items ++ u.calendar.bag; clock = u.calendar.clock } };

    ghost invariant = { λ u. IsShortList u.list.items u.least u.calendar u.next };
}

// Whether a time is before the least time of a bag.
#[inline(always)]
pub fn is_before(time: u64, least: Option<u64>) -> bool
    ensures { IsTrue result ↔ IsAhead time least }
{
    match least {
        Some(next) => time < next,
        None => true,
    }
}

// The sooner of a time and the least time of a bag.
#[inline(always)]
pub fn sooner_of(time: u64, least: Option<u64>) -> Option<u64>
    ensures { result ≡ sooner time least }
{
    match least {
        Some(next) => Some(time.min(next)),
        None => Some(time),
    }
}

// Moves a calendar on to the time now, where all of it is due later. No event is taken.
#[inline(never)]
fn catch_up<E: Drop>(calendar: &mut Calendar<E>, least: Option<u64>, now: u64)
    requires not_over { calendar.old.clock ≤ now }
    requires least { least ≡ least_time calendar.old.bag }
    ensures same_bag { SameBag calendar.new.bag calendar.old.bag }
    ensures not_over { calendar.new.clock ≤ now }
{
    if calendar.now() < now && is_before(now, least) {
        calendar.take_due(now);
    }
}

// Takes the oldest event of a calendar that is due at a time.
#[inline(never)]
fn take_from_calendar<E: Drop>(
    calendar: &mut Calendar<E>,
    least: &mut Option<u64>,
    time: u64,
) -> Option<E>
    requires not_over { calendar.old.clock ≤ time }
    requires none_before { ForSome (least_time calendar.old.bag) (λ next. time ≤ next) }
    ensures oldest { result ≡ oldest_at time calendar.old.bag }
    ensures rest { SameBag calendar.new.bag (without_oldest time calendar.old.bag) }
    ensures moved_on { calendar.new.clock ≡ time }
    ensures least { least.new ≡ least_time calendar.new.bag }
{
    let event = calendar.take_due(time);
    *least = calendar.next_time();
    event
}

// Puts an event at its place in a list, behind those that are due no later.
#[inline(always)]
fn enlist<E>(list: &mut Vec<Timed<E>>, time: u64, event: E) -> Result<(), Full<E>>
    requires { AreInOrder (reverse list.old.items) }
    ensures added { OnOk result (SameBag (reverse list.new.items) (reverse list.old.items ++ record { time = time; event = event } ∷ [])) }
    ensures handed_back { IfErr result (λ full. full.event ≡ event) }
    ensures unchanged { OnErr result (list.new.items ≡ list.old.items) }
    ensures in_order { AreInOrder (reverse list.new.items) }
{
    let mut place = list.len();
    if let Err(refused) = list.push(Timed { time, event }) {
        return Err(Full {
            event: refused.value.event,
        });
    }
    while place > 0 && list[place - 1].time <= time {
        list.swap(place - 1, place);
        place -= 1;
    }
    Ok(())
}

// Whether the soonest event of a list, its last, is due at a time.
#[inline(always)]
fn is_next_due<E>(list: &[Timed<E>], time: u64) -> bool
    ensures { IsTrue result ↔ IsNextDue time (reverse list.now) }
{
    match list.last() {
        Some(next) => next.time == time,
        None => false,
    }
}

// The least time of a list, and of others with this least time.
#[inline(always)]
fn next_of<E>(list: &[Timed<E>], least: Option<u64>) -> Option<u64>
    ensures { result ≡ next_in_order (reverse list.now) least }
{
    match list.last() {
        Some(next) => sooner_of(next.time, least),
        None => least,
    }
}

impl<E: Drop> Upcoming<E> {
    /// No events, at time 0. It is refused only where memory ran out.
    pub fn new(alloc: Global) -> Result<Self, Memory>
        ensures empty { IfOk result (λ upcoming. upcoming.bag ≡ []) }
        ensures at_zero { IfOk result (λ upcoming. upcoming.clock ≡ 0) }
    {
        let Ok(list) = Vec::with_capacity(alloc, ROOM) else {
            return Err(Memory);
        };
        let calendar = Calendar::new(alloc)?;
        Ok(Upcoming {
            list,
            least: None,
            calendar,
            next: None,
        })
    }

    // Adds an event to the calendar.
    #[inline(never)]
    fn add_to_calendar(&mut self, now: u64, time: u64, event: E) -> Result<(), Full<E>>
        requires not_over { self.old.clock ≤ now }
        requires from_now { now ≤ time }
        ensures added { OnOk result (SameBag self.new.bag (self.old.bag ++ record { time = time; event = event } ∷ [])) }
        ensures handed_back { IfErr result (λ full. full.event ≡ event) }
        ensures unchanged { OnErr result (SameBag self.new.bag self.old.bag) }
        ensures not_over { self.new.clock ≤ now }
    {
        catch_up(&mut self.calendar, self.least, now);
        self.calendar.schedule(time, event)?;
        self.least = sooner_of(time, self.least);
        self.next = sooner_of(time, self.next);
        Ok(())
    }

    /// Adds an event. It is refused only where memory ran out.
    #[inline(always)]
    pub fn add(&mut self, now: u64, time: u64, event: E) -> Result<(), Full<E>>
        requires not_over { self.old.clock ≤ now }
        requires from_now { now ≤ time }
        ensures added { OnOk result (SameBag self.new.bag (self.old.bag ++ record { time = time; event = event } ∷ [])) }
        ensures handed_back { IfErr result (λ full. full.event ≡ event) }
        ensures unchanged { OnErr result (SameBag self.new.bag self.old.bag) }
        ensures not_over { self.new.clock ≤ now }
    {
        if self.list.len() < self.list.capacity() && is_before(time, self.least) {
            enlist(&mut self.list, time, event)?;
            self.next = sooner_of(time, self.next);
            return Ok(());
        }
        self.add_to_calendar(now, time, event)
    }

    /// The least time at which an event is due. It takes no memory.
    #[inline(always)]
    pub fn next_time(&self) -> Option<u64>
        ensures { result ≡ least_time self.now.bag }
    {
        self.next
    }

    /// Takes the oldest event that is due at a time. `None` where there is none. It takes no memory.
    #[inline(never)]
    pub fn take(&mut self, time: u64) -> Option<E>
        requires not_over { self.old.clock ≤ time }
        requires none_before { ForSome (least_time self.old.bag) (λ next. time ≤ next) }
        ensures oldest { result ≡ oldest_at time self.old.bag }
        ensures rest { SameBag self.new.bag (without_oldest time self.old.bag) }
        ensures not_over { self.new.clock ≤ time }
    {
        if is_next_due(&self.list, time) {
            let Timed { time: _, event } = self.list.pop()?;
            self.next = next_of(&self.list, self.least);
            return Some(event);
        }
        let event = take_from_calendar(&mut self.calendar, &mut self.least, time);
        self.next = next_of(&self.list, self.least);
        event
    }
}
