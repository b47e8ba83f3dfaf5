// The wheel: an event in front of all others.
ghost use Rattle.std.specs.Prelude.{◌≡◌, ◌↔◌, ◌<◌, ◌≤◌, IsTrue, [], ◌∷◌, ◌++◌, None, Some, IfSome, IfErr, IfOk, OnOk, OnErr};
ghost use Rattle.std.specs.Option.{ForSome};
ghost use Rattle.vs_time_wheel.specs.Bag.{SameBag, least_time, oldest_at, sooner, without_oldest};
ghost use Rattle.vs_time_wheel.specs.Front.{front, IsAhead, IsDue, IsInFront, MakesWay, Adds};
ghost use Rattle.vs_time_wheel.specs.Queue.{Queue};

use crate::law::EventQueue;
use crate::timing::{Full, Memory, Timed};
use crate::upcoming::{Upcoming, is_before, sooner_of};
use std::alloc::Global;
use std::marker::Model;
use std::mem;

/// An event queue: one event in front, some in a short list, and the others in 256 slots and an ordered map.
/// What is in front or in the list takes no memory, and is found without a look at the slots.
#[derive(Drop)]
pub struct Wheel<E> {
    // An event that came in front when every other one was due later.
    first: Option<Timed<E>>,
    others: Upcoming<E>,
    now: u64,
}

impl<E> Model for Wheel<E> {
    ghost Value = { Queue E };

    ghost view = { λ w. record { bag = front w.first ++ w.others.bag; clock = w.now } };

    ghost invariant = { λ w. IsInFront w.first w.others w.now };
}

impl<E: Drop> Wheel<E> {
    /// A queue without events, at time 0. It is refused only where memory ran out.
    pub fn new(alloc: Global) -> Result<Self, Memory>
        ensures empty { IfOk result (λ wheel. wheel.bag ≡ []) }
        ensures at_zero { IfOk result (λ wheel. wheel.clock ≡ 0) }
    {
        let others = Upcoming::new(alloc)?;
        Ok(Wheel {
            first: None,
            others,
            now: 0,
        })
    }
}

// Whether the event in front is due after a time, and before all others.
#[inline(always)]
fn makes_way<E>(first: &Option<Timed<E>>, least: Option<u64>, time: u64) -> bool
    ensures { IsTrue result → MakesWay time first.now least }
{
    match first {
        Some(held) => time < held.time && is_before(held.time, least),
        None => false,
    }
}

// Puts an event in front; the one that was there, which is due later, goes to the others.
#[inline(never)]
fn displace<E: Drop>(
    first: &mut Option<Timed<E>>,
    others: &mut Upcoming<E>,
    now: u64,
    time: u64,
    event: E,
) -> Result<(), Full<E>>
    requires in_front { IsInFront first.old others.old now }
    requires from_now { now ≤ time }
    requires makes_way { MakesWay time first.old (least_time others.old.bag) }
    ensures added { OnOk result (Adds first.old others.old.bag first.new others.new.bag time event) }
    ensures handed_back { IfErr result (λ full. full.event ≡ event) }
    ensures unchanged { OnErr result (SameBag (front first.new ++ others.new.bag) (front first.old ++ others.old.bag)) }
    ensures in_front { IsInFront first.new others.new now }
{
    let Some(held) = mem::replace(first, Some(Timed { time, event })) else {
        unreachable!()
    };
    let until = held.time;
    match others.add(now, until, held.event) {
        Ok(()) => Ok(()),
        Err(full) => {
            let held = Timed {
                time: until,
                event: full.event,
            };
            match mem::replace(first, Some(held)) {
                Some(new) => Err(Full { event: new.event }),
                None => unreachable!(),
            }
        }
    }
}

// Whether the event in front is due at a time.
#[inline(always)]
fn is_due<E>(first: &Option<Timed<E>>, time: u64) -> bool
    ensures { IsTrue result ↔ IsDue time first.now }
{
    match first {
        Some(event) => event.time == time,
        None => false,
    }
}

impl<E: Drop> Wheel<E> {
    // Adds an event that doesn't go in front at once.
    #[inline(never)]
    fn add(&mut self, time: u64, event: E) -> Result<(), Full<E>>
        requires from_now { self.old.clock ≤ time }
        ensures added { OnOk result (SameBag self.new.bag (self.old.bag ++ record { time = time; event = event } ∷ [])) }
        ensures handed_back { IfErr result (λ full. full.event ≡ event) }
        ensures unchanged { OnErr result (SameBag self.new.bag self.old.bag) }
        ensures same_clock { self.new.clock ≡ self.old.clock }
    {
        if makes_way(&self.first, self.others.next_time(), time) {
            return displace(&mut self.first, &mut self.others, self.now, time, event);
        }
        self.others.add(self.now, time, event)
    }
}

impl<E: Drop> EventQueue<E> for Wheel<E> {
    ghost bag = { λ w. w.bag };

    ghost clock = { λ w. w.clock };

    #[inline(always)]
    fn schedule(&mut self, time: u64, event: E) -> Result<(), Full<E>> {
        if self.first.is_none() && is_before(time, self.others.next_time()) {
            self.first = Some(Timed { time, event });
            return Ok(());
        }
        self.add(time, event)
    }

    #[inline(always)]
    fn next_time(&self) -> Option<u64> {
        match &self.first {
            Some(first) => sooner_of(first.time, self.others.next_time()),
            None => self.others.next_time(),
        }
    }

    #[inline(always)]
    fn take_due(&mut self, time: u64) -> Option<E> {
        self.now = time;
        if is_due(&self.first, time) {
            let Timed { time: _, event } = self.first.take()?;
            return Some(event);
        }
        if self.others.next_time() == Some(time) {
            return self.others.take(time);
        }
        None
    }

    #[inline(always)]
    fn now(&self) -> u64 {
        self.now
    }
}
