//! Instructions that choose among several places: those of a `case` and of a `repeat` (IEEE 1364-2005, clauses 9.5 and 9.6).
ghost use Rattle.std.specs.Prelude.{◌≡◌, length};
ghost use Rattle.vs_process.specs.Choices.{index_of, repeat_lands, turns_lands};

use crate::choices::{turn, turns_for};
use crate::draft::Op;
use vs_design::vs_logic4::CaseKind;
use vs_design::{Statement, Store, Typed};

/// A `case`.
#[derive(Clone, Copy)]
pub struct Case<'a> {
    pub(crate) op: &'a Op<'a>,
    pub(crate) kind: CaseKind,
    pub(crate) e: &'a Typed,
    pub(crate) items: &'a [(Vec<Typed>, Statement)],
    /// How many instructions there are.
    pub(crate) count: usize,
}

/// A `repeat` that reads its count.
#[derive(Clone, Copy)]
pub struct Repeat<'a> {
    pub(crate) op: &'a Op<'a>,
    pub(crate) signed: bool,
    pub(crate) e: &'a Typed,
    /// How many instructions there are.
    pub(crate) count: usize,
}

/// A `repeat` that has its count.
#[derive(Clone, Copy)]
pub struct Turns<'a> {
    pub(crate) op: &'a Op<'a>,
    /// How many instructions there are.
    pub(crate) count: usize,
}

/// The index of a place among so many instructions; the end is after the last one.
#[inline(always)]
pub(crate) fn index_of(count: usize, place: usize) -> usize
    ensures { result ≡ index_of count place }
{
    if place == 0 { count } else { place - 1 }
}

impl<'a> Repeat<'a> {
    /// The index to which it leads in a store at a time in ticks, where counters are set.
    #[inline(never)]
    pub fn index(&self, counters: &mut Vec<u64>, store: &Store, time: u64) -> usize
        ensures index { result ≡ index_of self.now.count (repeat_lands self.now counters.old.items store.now time).place }
        ensures counters { counters.new.items ≡ (repeat_lands self.now counters.old.items store.now time).counters }
    {
        let op = self.op;
        let left = turns_for(self.signed, self.e, store, time);
        let place = turn(op, counters, left);
        index_of(self.count, place)
    }
}

impl<'a> Turns<'a> {
    /// The index to which it leads, where counters are set.
    #[inline(never)]
    pub fn index(&self, counters: &mut Vec<u64>) -> usize
        ensures index { result ≡ index_of self.now.count (turns_lands self.now counters.old.items).place }
        ensures counters { counters.new.items ≡ (turns_lands self.now counters.old.items).counters }
    {
        let op = self.op;
        let left = counters.get(op.counter).copied().unwrap_or(0);
        let place = turn(op, counters, left);
        index_of(self.count, place)
    }
}
