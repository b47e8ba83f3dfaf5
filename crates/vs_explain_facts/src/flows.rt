//! The ways through the text of a process.

use crate::lists::empty_lists;
use crate::mark;
use crate::points::{Moment, Point};
use std::alloc::{AllocError, Global};
use vs_design::{Statement, Typed, has_control};
use vs_drivers::vs_maps::surely_turns;

/// Where each statement of a text leads, by their numbers; the end has the number behind the last one.
#[derive(Drop)]
pub(crate) struct Flow {
    /// Of an `if` both its sides; of a loop its body and what stands behind it; of a `case` its items and, where it has no `default`, what stands
    /// behind it.
    pub(crate) nexts: Vec<Vec<usize>>,
    /// The statement with which it begins.
    pub(crate) start: usize,
}

/// Says where a statement leads too. The answer is its number.
fn lead(nexts: &mut Vec<Vec<usize>>, number: u32, to: usize) -> Result<usize, AllocError> {
    if let Some(list) = nexts.get_mut(number as usize) {
        list.push(to)?;
    }
    Ok(number as usize)
}

/// Whether a `case` has a `default`.
fn has_default(items: &[(Vec<Typed>, Statement)]) -> bool {
    for (labels, _) in items {
        if labels.is_empty() {
            return true;
        }
    }
    false
}

/// Links a statement and those in it, and says with which one it begins.
#[cycle(linked)]
fn link(
    nexts: &mut Vec<Vec<usize>>,
    statement: &Statement,
    behind: usize,
) -> Result<usize, AllocError> {
    match statement {
        Statement::Block(all) => link_block(nexts, all, behind),
        Statement::Null(number)
        | Statement::Assign(number, _, _)
        | Statement::Later(number, _, _, _)
        | Statement::Call(number, _)
        | Statement::Finish(number) => lead(nexts, *number, behind),
        Statement::Delay(number, _, body) | Statement::Event(number, _, body) => {
            let first = link(nexts, body, behind)?;
            lead(nexts, *number, first)
        }
        Statement::Forever(number, body) => {
            let first = link(nexts, body, *number as usize)?;
            lead(nexts, *number, first)
        }
        Statement::While(number, _, body) | Statement::Repeat(number, _, _, body) => {
            let first = link(nexts, body, *number as usize)?;
            lead(nexts, *number, first)?;
            lead(nexts, *number, behind)
        }
        Statement::If(number, _, then, other) => {
            let first = link(nexts, then, behind)?;
            let second = link(nexts, other, behind)?;
            lead(nexts, *number, first)?;
            lead(nexts, *number, second)
        }
        Statement::Case(number, _, _, items) => { link_items(nexts, *number, items, behind) }
    }
}

/// Links the items of a `case`.
#[cycle(linked)]
fn link_items(
    nexts: &mut Vec<Vec<usize>>,
    number: u32,
    items: &[(Vec<Typed>, Statement)],
    behind: usize,
) -> Result<usize, AllocError> {
    for (_, body) in items {
        let first = link(nexts, body, behind)?;
        lead(nexts, number, first)?;
    }
    if !has_default(items) {
        lead(nexts, number, behind)?;
    }
    Ok(number as usize)
}

#[cycle(linked)]
fn link_block(
    nexts: &mut Vec<Vec<usize>>,
    all: &[Statement],
    behind: usize,
) -> Result<usize, AllocError> {
    let mut first = behind;
    for i in (0..all.len()).rev() {
        first = link(nexts, &all[i], first)?;
    }
    Ok(first)
}

/// The ways through a body of so many statements.
pub(crate) fn flow_of(alloc: Global, body: &Statement, count: usize) -> Result<Flow, AllocError> {
    let mut nexts = empty_lists(alloc, count)?;
    let start = link(&mut nexts, body, count)?;
    Ok(Flow { nexts, start })
}

/// Lets a `repeat` of this number lead into a turn alone; what comes from its body to it leads out of it too.
fn turn_first(
    alloc: Global,
    nexts: &mut [Vec<usize>],
    number: usize,
    behind: usize,
) -> Result<(), AllocError> {
    let mut out = Vec::new(alloc);
    if let Some(own) = nexts.get(number) {
        if own.first() == Some(&number) {
            return Ok(());
        }
        for (index, to) in own.iter().enumerate() {
            if index > 0 {
                out.push(*to)?;
            }
        }
    }
    for place in number.saturating_add(1)..behind {
        if let Some(list) = nexts.get_mut(place) {
            if list.contains(&number) {
                list.extend_from_slice(&out)?;
            }
        }
    }
    if let Some(own) = nexts.get_mut(number) {
        own.truncate(1);
    }
    Ok(())
}

/// The ways through a text as a version of certificates counts them: version 3 past a `repeat` whose count is a constant above 0 by a turn alone.
pub(crate) fn ways_by(
    alloc: Global,
    flow: &Flow,
    points: &[Point],
    is_third: bool,
) -> Result<Flow, AllocError> {
    let mut nexts = Vec::new(alloc);
    for list in &flow.nexts {
        nexts.push(Vec::from_slice(alloc, list)?)?;
    }
    for (number, point) in points.iter().enumerate() {
        if is_third && surely_turns(alloc, point.statement)? {
            turn_first(alloc, &mut nexts, number, point.behind)?;
        }
    }
    Ok(Flow {
        nexts,
        start: flow.start,
    })
}

/// How the ways through a text are read.
#[derive(Clone, Copy)]
pub struct Reading {
    /// Whether `#0` counts as a delay that takes time.
    pub zero_is_time: bool,
    /// Whether each loop with a control in it is entered.
    pub loops_are_entered: bool,
}

/// As certificates are checked: `#0` takes no time, and a loop may be passed by.
pub const AS_CHECKED: Reading = Reading {
    zero_is_time: false,
    loops_are_entered: false,
};

/// How a text comes to a statement.
#[derive(Clone, Copy, PartialEq, Eq)]
enum Arrival {
    /// Through no control.
    Start,
    /// Through delays of zero ticks alone.
    FirstSlot,
    /// Through another control.
    Late,
}

/// How a text goes on behind a statement.
fn arrival_after(statement: &Statement, arrival: Arrival, reading: Reading) -> Arrival {
    match statement {
        Statement::Delay(_, ticks, _) => {
            if ticks.count == 0 && !reading.zero_is_time && arrival != Arrival::Late {
                Arrival::FirstSlot
            } else {
                Arrival::Late
            }
        }
        Statement::Event(_, _, _) => Arrival::Late,
        _ => arrival,
    }
}

/// Whether a statement is a loop that has to be entered.
fn must_iterate(statement: &Statement, reading: Reading) -> bool {
    match statement {
        Statement::While(_, _, body) | Statement::Repeat(_, _, _, body) => {
            reading.loops_are_entered && has_control(body)
        }
        _ => false,
    }
}

/// A walk along all ways.
#[derive(Drop)]
struct Walk {
    moments: Vec<Moment>,
    /// Which statements are come to behind `#0`, and which behind another control.
    after_zero: Vec<bool>,
    after_time: Vec<bool>,
    todo: Vec<(usize, Arrival)>,
}

impl Walk {
    /// Comes to a statement.
    fn visit(&mut self, place: usize, arrival: Arrival) -> Result<(), AllocError> {
        let Some(moment) = self.moments.get_mut(place) else {
            return Ok(());
        };
        let is_new = match arrival {
            Arrival::Start => {
                let is_new = !moment.is_prologue;
                moment.is_prologue = true;
                moment.is_first = true;
                is_new
            }
            Arrival::FirstSlot => {
                moment.is_first = true;
                moment.is_late = true;
                mark(&mut self.after_zero, place)
            }
            Arrival::Late => {
                moment.is_late = true;
                mark(&mut self.after_time, place)
            }
        };
        if is_new {
            self.todo.push((place, arrival))?;
        }
        Ok(())
    }

    /// Goes on from a statement.
    fn go(
        &mut self,
        flow: &Flow,
        statement: &Statement,
        place: usize,
        arrival: Arrival,
        reading: Reading,
    ) -> Result<(), AllocError> {
        let Some(nexts) = flow.nexts.get(place) else {
            return Ok(());
        };
        let next = arrival_after(statement, arrival, reading);
        let must_enter = must_iterate(statement, reading) && arrival != Arrival::Late;
        for (index, to) in nexts.iter().enumerate() {
            if index == 0 || !must_enter {
                self.visit(*to, next)?;
            }
        }
        Ok(())
    }
}

/// When each statement of a text can run. It takes as long as the text.
pub(crate) fn moments_by(
    alloc: Global,
    points: &[Point],
    flow: &Flow,
    reading: Reading,
) -> Result<Vec<Moment>, AllocError> {
    let mut walk = Walk {
        moments: vec![in alloc; crate::points::NEVER; points.len()]?,
        after_zero: vec![in alloc; false; points.len()]?,
        after_time: vec![in alloc; false; points.len()]?,
        todo: Vec::new(alloc),
    };
    walk.visit(flow.start, Arrival::Start)?;
    for _ in 0..u64::MAX {
        let Some((place, arrival)) = walk.todo.pop() else {
            break;
        };
        if let Some(point) = points.get(place) {
            walk.go(flow, point.statement, place, arrival, reading)?;
        }
    }
    let Walk { moments, .. } = walk;
    Ok(moments)
}
