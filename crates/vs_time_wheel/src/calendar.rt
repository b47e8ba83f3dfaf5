// The calendar: the times near now in slots, the later ones in an ordered map.
ghost use Rattle.std.specs.Prelude.{◌≡◌, ◌≢◌, ℕ, ◌+◌, ◌^◌, ◌<◌, ◌≤◌, [], None, Some, IfErr, IfOk, OnOk, OnErr, IfSome, OnSome, MatchOption};
ghost use Rattle.std.specs.Ordering.{nat_cmp};
ghost use Rattle.std.specs.BTreeMap.{get, IsUnchanged, btree_map_len};
ghost use Rattle.vs_time_wheel.specs.Bag.{SameBag};
ghost use Rattle.vs_time_wheel.specs.Queue.{Queue};
ghost use Rattle.vs_time_wheel.specs.Window.{calendar_bag, IsWound, IsLoose, NoneBefore, Postpones, Loses};

use crate::busy::SLOTS;
use crate::law::EventQueue;
use crate::pool::{Chain, Pool};
use crate::rotation::Rotation;
use crate::timing::{Full, Memory};
use std::alloc::Global;
use std::collections::BTreeMap;
use std::marker::Model;

/// The events of times that are 256 ticks and more behind now.
type Later<E> = BTreeMap<u64, Chain<E>>;

/// An event queue in 256 slots, one for each time from now to now + 255, and an ordered map for the later times.
/// No call looks at more than the slots' flags, one slot and the first of the later times;
/// each event moves at most once from the map to its slot.
#[derive(Drop)]
pub struct Calendar<E> {
    rotation: Rotation<E>,
    later: Later<E>,
    pool: Pool<E>,
    now: u64,
}

impl<E> Model for Calendar<E> {
    ghost Value = { Queue E };

    ghost view = { λ w. record { bag = calendar_bag w.rotation w.later w.now; clock = w.now } };

    ghost invariant = { λ w. IsWound w.rotation w.later w.now };
}

impl<E: Drop> Calendar<E> {
    /// A queue without events, at time 0. It is refused only where memory ran out.
    pub fn new(alloc: Global) -> Result<Self, Memory>
        ensures empty { IfOk result (λ calendar. calendar.bag ≡ []) }
        ensures at_zero { IfOk result (λ calendar. calendar.clock ≡ 0) }
    {
        let rotation = Rotation::new(alloc)?;
        Ok(Calendar {
            rotation,
            later: BTreeMap::new(alloc),
            pool: Pool::new(alloc),
            now: 0,
        })
    }
}

// Adds an event to those of a later time.
fn postpone<E: Drop>(
    later: &mut Later<E>,
    pool: &mut Pool<E>,
    time: u64,
    event: E,
) -> Result<(), Full<E>>
    ensures added { OnOk result (Postpones later.old later.new time event) }
    ensures handed_back { IfErr result (λ full. full.event ≡ event) }
    ensures unchanged { OnErr result (IsUnchanged later.old later.new) }
{
    if let Some(chain) = later.get_mut(&time) {
        return pool.push(chain, event);
    }
    let mut chain = Chain::new();
    pool.push(&mut chain, event)?;
    match later.insert(time, chain) {
        Ok(_) => Ok(()),
        Err(refused) => {
            let (_, mut chain) = refused.value;
            match pool.pop(&mut chain) {
                Some(event) => Err(Full { event }),
                None => unreachable!(),
            }
        }
    }
}

// The first of the later times.
fn first_time<E>(later: &Later<E>) -> Option<u64>
    ensures { MatchOption result ((t : ℕ) → get nat_cmp later.now t ≡ None)
        (λ time. (get nat_cmp later.now time ≢ None) × ((t : ℕ) → t < time → get nat_cmp later.now t ≡ None)) }
{
    let (time, _) = later.first_key_value()?;
    Some(*time)
}

// Takes the events of the first of the later times, where that time is near.
fn take_near<E>(later: &mut Later<E>, now: u64) -> Option<(u64, Chain<E>)>
    requires { (t : ℕ) → t < now → get nat_cmp later.old t ≡ None }
    ensures first { MatchOption result
        (((t : ℕ) → t < now + 256 → get nat_cmp later.old t ≡ None) × IsUnchanged later.old later.new)
        (λ first. (now ≤ first.0) × (first.0 < now + 256) × (get nat_cmp later.old first.0 ≡ Some first.1)
        × Loses later.old later.new first.0) }
    ensures small { IfSome result (λ first. first.0 < 2 ^ 64) }
    ensures fewer { OnSome result (btree_map_len later.new + 1 ≡ btree_map_len later.old) }
{
    let time = first_time(later)?;
    if time - now >= SLOTS as u64 {
        return None;
    }
    later.pop_first()
}

// Moves the events of the times that have come near to their slots.
fn bring_near<E: Drop>(rotation: &mut Rotation<E>, later: &mut Later<E>, now: u64)
    requires { IsLoose rotation.old later.old now }
    ensures wound { IsWound rotation.new later.new now }
    ensures same_bag { SameBag (calendar_bag rotation.new later.new now) (calendar_bag rotation.old later.old now) }
{
    while let Some((time, chain)) = take_near(later, now) {
        rotation.put((time % 256) as usize, chain);
    }
}

impl<E: Drop> EventQueue<E> for Calendar<E> {
    ghost bag = { λ w. w.bag };

    ghost clock = { λ w. w.clock };

    #[inline(always)]
    fn schedule(&mut self, time: u64, event: E) -> Result<(), Full<E>> {
        if time - self.now < SLOTS as u64 {
            return self
                .rotation
                .push(&mut self.pool, (time % 256) as usize, event);
        }
        postpone(&mut self.later, &mut self.pool, time, event)
    }

    fn next_time(&self) -> Option<u64> {
        match self.rotation.next((self.now % 256) as usize) {
            Some(ahead) => Some(self.now + ahead as u64),
            None => first_time(&self.later),
        }
    }

    fn take_due(&mut self, time: u64) -> Option<E> {
        self.now = time;
        bring_near(&mut self.rotation, &mut self.later, time);
        self.rotation.pop(&mut self.pool, (time % 256) as usize)
    }

    fn now(&self) -> u64 {
        self.now
    }
}
