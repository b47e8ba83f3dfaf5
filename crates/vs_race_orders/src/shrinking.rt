//! Orders made short: which few choices of another item than the first are enough for the dump, or the lines, to differ.
ghost use Rattle.vs_kernel.specs.Scripts.{AreScripts};

use crate::chooser::Chooser;
use crate::comparing::Comparing;
use crate::span::Span;
use crate::trial::{Bounds, Ended, Reference, run_trial};
use std::alloc::{AllocError, Global};
use vs_design::Design;
use vs_process::Script;
use vs_vcd_writing::WriterFault;

/// The most runs that are made to find one delay that is enough.
const DELAYS: u64 = 120;

/// The most runs that are made to find one choice that is enough, and then to leave choices of a list out.
const OTHERS: u64 = 120;

/// A slot of more choices than this is long: a run under a delay, or under some choices of a try, takes time in their square.
const LONG: u64 = 4096;

/// The most such runs that are made in a long slot.
const FEW: u64 = 16;

/// The most items of a choice that are tried one by one.
const ITEMS: usize = 4;

/// What trials are compared with, and how far they go.
#[derive(Clone, Copy)]
pub(crate) struct Stage<'a> {
    pub(crate) alloc: Global,
    pub(crate) design: &'a Design,
    /// The scripts of the design's processes, one each in order.
    pub(crate) scripts: &'a [Script<'a>],
    pub(crate) reference: &'a Reference,
    pub(crate) bounds: Bounds,
    /// Whether the lines are to differ, and not the dump.
    pub(crate) lines: bool,
}

/// The choices of the slot in which the runs differ: the number of the first one, and that behind the last one.
#[derive(Clone, Copy)]
struct Choices {
    first: u64,
    end: u64,
}

impl Choices {
    // How many runs are made where in a shorter slot so many are.
    fn runs(self, most: u64) -> u64 {
        if self.end.saturating_sub(self.first) > LONG {
            FEW
        } else {
            most
        }
    }
}

// A trial under an order.
pub(crate) fn try_under(stage: &Stage, chooser: &mut Chooser) -> Result<Ended, WriterFault>
    requires { AreScripts stage.now.design.now stage.now.scripts.now }
{
    let mut sink = Comparing::new(&stage.reference.text, stage.reference.whole);
    run_trial(
        stage.alloc,
        stage.design,
        stage.scripts,
        stage.bounds,
        stage.reference,
        chooser,
        &mut sink,
    )
}

// The choices in the last slot of the first order.
fn last_choices(stage: &Stage) -> Result<Choices, WriterFault>
    requires { AreScripts stage.now.design.now stage.now.scripts.now }
{
    let mut chooser = Chooser::planned(stage.alloc, &[]);
    let ended = try_under(stage, &mut chooser)?;
    Ok(Choices {
        first: ended.before,
        end: chooser.count(),
    })
}

// Whether it differs as it is to.
fn is_difference(stage: &Stage, ended: Ended) -> bool {
    if stage.lines {
        ended.lines.is_some()
    } else {
        ended.differs.is_some()
    }
}

// Whether it differs under spans: then how many choices were made.
fn differs_under(stage: &Stage, spans: &[Span]) -> Result<Option<u64>, WriterFault>
    requires { AreScripts stage.now.design.now stage.now.scripts.now }
{
    let mut chooser = Chooser::planned(stage.alloc, spans);
    let ended = try_under(stage, &mut chooser)?;
    if is_difference(stage, ended) {
        return Ok(Some(chooser.count()));
    }
    Ok(None)
}

// A delay that begins at a choice, where it is enough: from there on the second item, to the end.
fn delay_from(stage: &Stage, first: u64) -> Result<Option<Span>, WriterFault>
    requires { AreScripts stage.now.design.now stage.now.scripts.now }
{
    let span = Span {
        first,
        last: u64::MAX,
        item: 1,
    };
    let Some(count) = differs_under(stage, &[span])? else {
        return Ok(None);
    };
    let last = count.saturating_sub(1);
    Ok(Some(Span {
        first,
        last,
        item: 1,
    }))
}

// The first delay of the slot that is enough.
fn delay_of(stage: &Stage, choices: Choices) -> Result<Option<Span>, WriterFault>
    requires { AreScripts stage.now.design.now stage.now.scripts.now }
{
    let end = choices.first.saturating_add(choices.runs(DELAYS));
    for first in choices.first..choices.end.min(end) {
        let span = delay_from(stage, first)?;
        if span.is_some() {
            return Ok(span);
        }
    }
    Ok(None)
}

// Whether it differs where from a choice on always the last item is chosen.
fn differs_by_last(stage: &Stage, begins: u64) -> Result<bool, WriterFault>
    requires { AreScripts stage.now.design.now stage.now.scripts.now }
{
    let mut chooser = Chooser::last_from(stage.alloc, begins);
    let ended = try_under(stage, &mut chooser)?;
    Ok(is_difference(stage, ended))
}

// A choice of the slot from which on that is enough, and from the next one on it isn't; sought by halves.
fn turn_of(stage: &Stage, choices: Choices) -> Result<Option<u64>, WriterFault>
    requires { AreScripts stage.now.design.now stage.now.scripts.now }
{
    if !differs_by_last(stage, choices.first)? {
        return Ok(None);
    }
    let mut turn = choices.first;
    let mut end = choices.end;
    for _ in 0..64 {
        let middle = turn.saturating_add(end.saturating_sub(turn) / 2);
        if middle == turn {
            break;
        }
        if differs_by_last(stage, middle)? {
            turn = middle;
        } else {
            end = middle;
        }
    }
    Ok(Some(turn))
}

// A delay that is enough, in a slot of more choices than delays are tried: that which begins where the order must turn.
fn late_delay(stage: &Stage, choices: Choices) -> Result<Option<Span>, WriterFault>
    requires { AreScripts stage.now.design.now stage.now.scripts.now }
{
    if choices.end.saturating_sub(choices.first) <= DELAYS {
        return Ok(None);
    }
    match turn_of(stage, choices)? {
        Some(turn) => delay_from(stage, turn),
        None => Ok(None),
    }
}

// The number of a trial of one choice as that choice: of each some items are tried, from the second on.
fn choice_of(choices: Choices, number: u64) -> Span {
    let first = choices.first.saturating_add(number / ITEMS as u64);
    Span {
        first,
        last: first,
        item: (number % ITEMS as u64) as usize + 1,
    }
}

// One choice that is enough.
fn single_of(stage: &Stage, choices: Choices) -> Result<Option<Span>, WriterFault>
    requires { AreScripts stage.now.design.now stage.now.scripts.now }
{
    for number in 0..OTHERS {
        let span = choice_of(choices, number);
        if span.first >= choices.end {
            break;
        }
        if differs_under(stage, &[span])?.is_some() {
            return Ok(Some(span));
        }
    }
    Ok(None)
}

// Spans without those of so many places from one on.
fn without(
    alloc: Global,
    spans: &[Span],
    from: usize,
    size: usize,
) -> Result<Vec<Span>, AllocError> {
    let mut others = Vec::new(alloc);
    for (place, span) in spans.iter().enumerate() {
        if place < from || place - from >= size {
            others.push(*span)?;
        }
    }
    Ok(others)
}

// Spans without pieces of a size that aren't needed, within so many runs; with how many runs are left.
fn without_pieces(
    stage: &Stage,
    spans: Vec<Span>,
    size: usize,
    runs: u64,
) -> Result<(Vec<Span>, u64), WriterFault>
    requires { AreScripts stage.now.design.now stage.now.scripts.now }
{
    let mut kept = spans;
    let mut left = runs;
    let mut from = 0;
    for _ in 0..runs {
        if from >= kept.len() {
            break;
        }
        left = left.saturating_sub(1);
        let others = without(stage.alloc, &kept, from, size)?;
        if differs_under(stage, &others)?.is_some() {
            kept = others;
        } else {
            from = from.saturating_add(size);
        }
    }
    Ok((kept, left))
}

// Spans of which those are left out that aren't needed, within so many runs: halves first, then smaller pieces.
fn shortened(stage: &Stage, spans: Vec<Span>, runs: u64) -> Result<Vec<Span>, WriterFault>
    requires { AreScripts stage.now.design.now stage.now.scripts.now }
{
    let mut kept = spans;
    let mut left = runs;
    let mut size = kept.len() / 2;
    for _ in 0..64 {
        if size == 0 || left == 0 {
            break;
        }
        let (others, rest) = without_pieces(stage, kept, size, left)?;
        kept = others;
        left = rest;
        size = (size / 2).min(kept.len());
    }
    Ok(kept)
}

// The choices of a try, as it makes them again.
fn choices_made(stage: &Stage, number: u64, seed: u64) -> Result<Vec<Span>, WriterFault>
    requires { AreScripts stage.now.design.now stage.now.scripts.now }
{
    let mut chooser = Chooser::of_try(stage.alloc, number, seed);
    chooser.tell();
    let _ = try_under(stage, &mut chooser)?;
    Ok(chooser.into_spans())
}

// One span in a list.
fn alone(alloc: Global, span: Span) -> Result<Vec<Span>, AllocError> {
    let mut spans = Vec::new(alloc);
    spans.push(span)?;
    Ok(spans)
}

/// A few choices under which the dump, or the lines, differ, where those of a try do: a delay in the last slot, one choice there, or else what is needed
/// of those of the try.
pub(crate) fn few_choices(stage: &Stage, number: u64, seed: u64) -> Result<Vec<Span>, WriterFault>
    requires { AreScripts stage.now.design.now stage.now.scripts.now }
{
    let choices = last_choices(stage)?;
    if let Some(span) = late_delay(stage, choices)? {
        return Ok(alone(stage.alloc, span)?);
    }
    if let Some(span) = delay_of(stage, choices)? {
        return Ok(alone(stage.alloc, span)?);
    }
    if let Some(span) = single_of(stage, choices)? {
        return Ok(alone(stage.alloc, span)?);
    }
    let made = choices_made(stage, number, seed)?;
    shortened(stage, made, choices.runs(OTHERS))
}
