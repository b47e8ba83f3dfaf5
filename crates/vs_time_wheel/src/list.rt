// The plain queue: one list in the order of scheduling.
ghost use Rattle.std.specs.Prelude.{◌≡◌, ℕ, ◌<◌, ◌≤◌, List, [], length, IfSome, IfNone, MatchOption, slice_index, slice_get, remove};
ghost use Rattle.vs_time_wheel.specs.Bag.{IsFrom, least_time, oldest_at, without_oldest};
ghost use Rattle.vs_time_wheel.specs.Queue.{Queue};

use crate::law::EventQueue;
use crate::timing::{Full, Timed};
use std::alloc::Global;
use std::marker::Model;

/// An event queue that is a list. Each call but `schedule` and `now` looks at every event.
#[derive(Drop)]
pub struct ListQueue<E> {
    items: Vec<Timed<E>>,
    now: u64,
}

impl<E> Model for ListQueue<E> {
    ghost Value = { Queue E };

    ghost view = { λ q. record { bag = q.items.items; clock = q.now } };

    ghost invariant = { λ q. IsFrom q.now q.items.items };
}

impl<E> ListQueue<E> {
    /// A queue without events, at time 0.
    pub fn new(alloc: Global) -> Self
        ensures empty { result.bag ≡ [] }
        ensures at_zero { result.clock ≡ 0 }
    {
        ListQueue {
            items: Vec::new(alloc),
            now: 0,
        }
    }
}

// The least time in a list.
fn least<E>(items: &[Timed<E>]) -> Option<u64>
    ensures { result ≡ least_time items.now }
{
    let mut least = None;
    for item in items {
        least = match least {
            None => Some(item.time),
            Some(time) => Some(item.time.min(time)),
        };
    }
    least
}

// The oldest event of a time, taken out of the list.
fn take<E>(items: &mut Vec<Timed<E>>, time: u64) -> Option<E>
    ensures oldest { result ≡ oldest_at time items.old.items }
    ensures rest { items.new.items ≡ without_oldest time items.old.items }
{
    for i in 0..items.len() {
        if items[i].time == time {
            let Timed { time: _, event } = items.remove(i);
            return Some(event);
        }
    }
    None
}

impl<E> EventQueue<E> for ListQueue<E> {
    ghost bag = { λ q. q.bag };

    ghost clock = { λ q. q.clock };

    fn schedule(&mut self, time: u64, event: E) -> Result<(), Full<E>> {
        match self.items.push(Timed { time, event }) {
            Ok(()) => Ok(()),
            Err(refused) => Err(Full {
                event: refused.value.event,
            }),
        }
    }

    fn next_time(&self) -> Option<u64> {
        least(&self.items)
    }

    fn take_due(&mut self, time: u64) -> Option<E> {
        self.now = time;
        take(&mut self.items, time)
    }

    fn now(&self) -> u64 {
        self.now
    }
}
