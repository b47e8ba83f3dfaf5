//! How long the turns of a text take.

use crate::arrivals::stop_at;
use std::alloc::{AllocError, Global};
use vs_design::vs_logic4::Unary;
use vs_design::{Statement, Typed};
use vs_process::{Stop, TextMap};

/// How long a text takes, in ticks.
#[derive(Clone, Copy)]
pub struct Timing {
    /// What the turns of its loops are multiples of; 0 where it has no turns that take time.
    pub period: u64,
    /// Whether it turns a signal over by `~`, which then is as before after two turns.
    pub turns_over: bool,
    /// Whether it does so by `!`.
    pub negates: bool,
    /// A time that each of its places has been come to by.
    pub last: u64,
}

/// The greatest common divisor; the other number where one is 0.
pub fn common_divisor(a: u64, b: u64) -> u64 {
    let mut x = a;
    let mut y = b;
    // No pair of 64 bits takes more steps.
    for _ in 0..128 {
        if y == 0 {
            return x;
        }
        let rest = x % y;
        x = y;
        y = rest;
    }
    1
}

// How long what is done at a place takes.
fn ticks_of(statement: Option<&Statement>) -> u64 {
    match statement {
        None => 0,
        Some(s) => match s {
            Statement::Delay(_, ticks, _) => ticks.count,
            _ => 0,
        },
    }
}

// Whether an expression is `!` of another one.
fn is_negation(value: &Typed) -> bool {
    matches!(value, Typed::Unary(Unary::LogicalNot, _))
}

// Whether an expression is the inverse of another one: by `~`, or else by `!`, which is brought to the size of what takes it.
fn is_inverse(value: &Typed, negates: bool) -> bool {
    match value {
        Typed::Unary(Unary::Not, _) => !negates,
        Typed::Resized(_, inner) => negates && is_negation(inner),
        _ => false,
    }
}

// Whether a statement turns a signal over by `~`, or else by `!`.
fn turns_over(statement: Option<&Statement>, negates: bool) -> bool {
    match statement {
        None => false,
        Some(s) => match s {
            Statement::Assign(_, _, value) => is_inverse(value, negates),
            _ => false,
        },
    }
}

// A walk that comes to each place once, with the time at which it does.
#[derive(Drop)]
struct Clocked {
    times: Vec<Option<u64>>,
    todo: Vec<usize>,
    period: u64,
    last: u64,
}

impl Clocked {
    // Comes to a place. Where it has been there, the turn between is a multiple of the period.
    fn visit(&mut self, place: usize, time: u64) -> Result<(), AllocError> {
        let Some(entry) = self.times.get_mut(place) else {
            return Ok(());
        };
        match *entry {
            Some(before) => {
                self.period = common_divisor(self.period, time.abs_diff(before));
            }
            None => {
                *entry = Some(time);
                self.last = self.last.max(time);
                self.todo.push(place)?;
            }
        }
        Ok(())
    }

    // The time at which the walk has come to a place.
    fn time(&self, place: usize) -> u64 {
        match self.times.get(place) {
            Some(Some(time)) => *time,
            _ => 0,
        }
    }

    // Goes on from a place.
    fn go(&mut self, map: &TextMap, place: usize) -> Result<(), AllocError> {
        let Some(stop) = stop_at(&map.stops, place) else {
            return Ok(());
        };
        let time = self.time(place).saturating_add(ticks_of(stop.statement));
        for to in &stop.tos {
            // The end of a text leads nowhere.
            if *to != 0 {
                self.visit(*to, time)?;
            }
        }
        Ok(())
    }
}

// Whether some statement turns a signal over by `~`, or else by `!`.
fn any_turns_over(stops: &[Stop], negates: bool) -> bool {
    for stop in stops {
        if turns_over(stop.statement, negates) {
            return true;
        }
    }
    false
}

/// How long a text takes. It takes as long as its map has places and ways.
pub(crate) fn timing_of(alloc: Global, map: &TextMap) -> Result<Timing, AllocError> {
    let mut times = Vec::new(alloc);
    for _ in 0..map.stops.len().saturating_add(1) {
        times.push(None)?;
    }
    let mut walk = Clocked {
        times,
        todo: Vec::new(alloc),
        period: 0,
        last: 0,
    };
    walk.visit(map.start, 0)?;
    for _ in 0..u64::MAX {
        let Some(place) = walk.todo.pop() else {
            break;
        };
        walk.go(map, place)?;
    }
    Ok(Timing {
        period: walk.period,
        turns_over: any_turns_over(&map.stops, false),
        negates: any_turns_over(&map.stops, true),
        last: walk.last,
    })
}
