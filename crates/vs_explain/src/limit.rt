//! What is said of a run that took its most steps.

use std::alloc::{AllocError, Global};
use vs_design::{Assign, Design, Statement, has_control};
use vs_explain_facts::{Part, driven_by, read_by};
use vs_explain_outline::{Page, SourceText, found, put_marked};

/// How many processes and assignments are told.
const REPORT_LIMIT: usize = 4;

/// One that took less than this share of what another took isn't told.
const LEAST_SHARE: u64 = 10;

/// What is said of a process that goes round.
const ENDLESS: &str =
    "It goes round without `#` and `@`, so the time stays the same once it is there. Put one of them into its loop.\n";

/// What is said of an assignment that reads what it drives.
const OWN_READER: &str =
    "It reads the signal that it drives, so it may wake itself for ever. Break the circle by a register.\n";

/// Whether a statement has a loop without an end in which nothing waits.
#[cycle(endless)]
fn goes_round(statement: &Statement) -> bool {
    match statement {
        Statement::Forever(_, body) => !has_control(body) || goes_round(body),
        Statement::Delay(_, _, body)
        | Statement::Event(_, _, body)
        | Statement::While(_, _, body)
        | Statement::Repeat(_, _, _, body) => goes_round(body),
        Statement::Block(all) => one_goes_round(all),
        Statement::If(_, _, then, other) => goes_round(then) || goes_round(other),
        Statement::Case(_, _, _, items) => {
            for (_, body) in items {
                if goes_round(body) {
                    return true;
                }
            }
            false
        }
        _ => false,
    }
}

#[cycle(endless)]
fn one_goes_round(all: &[Statement]) -> bool {
    for statement in all {
        if goes_round(statement) {
            return true;
        }
    }
    false
}

/// Whether an assignment reads a signal that it drives.
fn reads_itself(alloc: Global, assign: &Assign) -> Result<bool, AllocError> {
    let driven = driven_by(alloc, assign)?;
    for read in &read_by(alloc, assign)? {
        if driven.contains(read) {
            return Ok(true);
        }
    }
    Ok(false)
}

/// A part of a design that took steps, and how many.
#[derive(Clone, Copy)]
struct Taker {
    part: Part,
    steps: u64,
}

/// The last steps of a run: how many they are, the time at which they began, in ticks, and how many of them each process and each assignment took.
#[derive(Clone, Copy)]
pub struct StepCounts<'c> {
    pub steps: u64,
    pub from: u64,
    pub processes: &'c [u64],
    pub assigns: &'c [u64],
}

/// The parts that took a step: the processes, and then the assignments.
fn takers_of(alloc: Global, taken: StepCounts) -> Result<Vec<Taker>, AllocError> {
    let mut takers = Vec::new(alloc);
    for (number, steps) in taken.processes.iter().enumerate() {
        if *steps > 0 {
            let part = Part::Process(number);
            let steps = *steps;
            takers.push(Taker { part, steps })?;
        }
    }
    for (number, steps) in taken.assigns.iter().enumerate() {
        if *steps > 0 {
            let part = Part::Assign(number);
            let steps = *steps;
            takers.push(Taker { part, steps })?;
        }
    }
    Ok(takers)
}

/// The next taker after one of so many steps and of this place in the list: those with more steps come first, and of equals the first.
fn next_taker(takers: &[Taker], last: Option<(u64, usize)>) -> Option<(usize, Taker)> {
    let mut next: Option<(usize, Taker)> = None;
    for (index, taker) in takers.iter().enumerate() {
        let is_later = match last {
            Some((steps, at)) => taker.steps < steps || taker.steps == steps && index > at,
            None => true,
        };
        let is_more = match next {
            Some((_, other)) => taker.steps > other.steps,
            None => true,
        };
        if is_later && is_more {
            next = Some((index, *taker));
        }
    }
    next
}

/// What is said of a part whose text shows that it goes round in one slot.
fn circle_of(page: &mut Page, design: &Design, part: Part) -> Option<&'static str> {
    match part {
        Part::Process(number) => match design.processes().get(number) {
            Some(process) if goes_round(&process.body) => Some(ENDLESS),
            _ => None,
        },
        Part::Assign(number) => match design.assigns().get(number) {
            Some(assign) => {
                let is_own = reads_itself(page.alloc(), assign);
                match found(page, is_own) {
                    Some(true) => Some(OWN_READER),
                    _ => None,
                }
            }
            None => None,
        },
    }
}

/// Puts where a part stands, and how many of the last steps it took.
fn put_taker(page: &mut Page, text: &SourceText, name: &[u8], steps: u64, of: u64) {
    if !put_marked(page, text, name) {
        page.put_name(name);
        page.put(":\n");
    }
    page.put("It took ");
    page.put_shown(steps);
    page.put(" of the last ");
    page.put_shown(of);
    page.put(" steps.\n");
}

/// What was told of the parts that took most of the last steps: how many they are, and whether the text of one of them goes round.
#[derive(Clone, Copy)]
struct LimitReport {
    count: usize,
    is_circle: bool,
}

/// Puts the parts that took most of the last steps, and what makes them go round.
fn put_takers(
    page: &mut Page,
    text: &SourceText,
    design: &Design,
    takers: &[Taker],
    of: u64,
) -> LimitReport {
    let mut told = LimitReport {
        count: 0,
        is_circle: false,
    };
    let mut most = 0u64;
    let mut before = None;
    for _ in 0..REPORT_LIMIT {
        let Some((index, taker)) = next_taker(takers, before) else {
            break;
        };
        most = most.max(taker.steps);
        if taker.steps < most / LEAST_SHARE {
            break;
        }
        before = Some((taker.steps, index));
        put_taker(page, text, taker.part.name(design), taker.steps, of);
        if let Some(sentence) = circle_of(page, design, taker.part) {
            page.put(sentence);
            told.is_circle = true;
        }
        told.count = told.count.saturating_add(1);
    }
    told
}

/// Puts what the last steps did to the time.
fn put_progress(page: &mut Page, taken: StepCounts, count: usize, time: u64) {
    if taken.from < time {
        page.put("In these steps the time went on from ");
        page.put_shown(taken.from);
        page.put(" to ");
        page.put_shown(time);
        page.put(". Give more of them by `--steps`, or an earlier `--until`.\n");
    } else if count == 1 {
        page.put(
            "The time stayed the same in them. Let it wait for a later time, or for a signal that it doesn't change.\n",
        );
    } else {
        page.put(
            "The time stayed the same in them: they wake one another. Let one of them wait for a later time, or break the circle by a register.\n",
        );
    }
}

/// Says what a run did that took its most steps: which parts of the design took most of the last ones, and whether the time went on in these.
pub fn explain_steps(
    page: &mut Page,
    text: &SourceText,
    design: &Design,
    steps: u64,
    time: u64,
    taken: StepCounts,
) {
    page.put("The run took ");
    page.put_shown(steps);
    page.put(" steps, and was in the slot of the time ");
    page.put_shown(time);
    page.put(".\n");
    let takers = takers_of(page.alloc(), taken);
    let Some(takers) = found(page, takers) else {
        return;
    };
    let told = put_takers(page, text, design, &takers, taken.steps);
    if !told.is_circle && steps > 0 {
        put_progress(page, taken, told.count, time);
    }
}
