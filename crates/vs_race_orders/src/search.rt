//! The search for an order under which the dump differs.
ghost use Rattle.std.specs.Prelude.{◌≡◌, map};
ghost use Rattle.vs_kernel.specs.Scripts.{AreScripts};

use crate::chooser::Chooser;
use crate::comparing::Comparing;
use crate::shrinking::{Stage, few_choices};
use crate::span::Span;
use crate::trial::{Bounds, Ended, Reference, reference_of, run_trial};
use crate::watch::Watch;
use std::alloc::{AllocError, Global};
use vs_design::Design;
use vs_kernel::{codes_of, scripts_of};
use vs_process::Script;
use vs_run_regions::vs_process::Code;
use vs_vcd_writing::WriterFault;

/// So many steps of all runs of a search take long: some seconds.
const LONG: u64 = 20_000_000;

/// What is sought, and how far.
#[derive(Clone, Copy)]
pub struct Search {
    /// The time before which the first item is always chosen, in ticks.
    pub from: u64,
    /// The moment up to which runs go, in ticks.
    pub until: u64,
    /// The most steps that each run takes.
    pub steps: u64,
    /// How many orders are tried.
    pub tries: u64,
    /// What they are drawn from: the same number gives the same orders.
    pub seed: u64,
}

/// A moment to which the dumps, or the lines, of the first order and of another one differ.
#[derive(Drop)]
pub struct Difference {
    /// The moment, in ticks.
    pub time: u64,
    /// Whether the lines differ, and the dumps don't.
    pub lines: bool,
    /// The choices of the other order; at all others the first item is chosen.
    pub choices: Vec<Span>,
}

/// What a search came to.
#[derive(Drop)]
pub struct Sought {
    /// The difference that was found first.
    pub difference: Option<Difference>,
    /// How many orders have been tried, those before this search among them.
    pub tries: u64,
    /// How many of the tried ones of this search ended no slot within the steps; they show nothing.
    pub stuck: u64,
}

// The number whose digits begin at a place; the greatest one of 64 bits where it is too large.
fn number_at(text: &[u8], place: usize) -> u64 {
    let mut number: u64 = 0;
    for byte in text.iter().skip(place) {
        match *byte {
            b'0'..=b'9' => number = number
                .saturating_mul(10)
                .saturating_add((*byte - b'0') as u64),
            _ => return number,
        }
    }
    number
}

// The time of the last line of a time in a dump that begins before a place.
fn time_before(text: &[u8], place: usize) -> u64 {
    let mut time = 0;
    let mut begins = true;
    for (index, byte) in text.iter().enumerate() {
        if index >= place {
            break;
        }
        if begins && *byte == b'#' {
            time = number_at(text, index.saturating_add(1));
        }
        begins = *byte == b'\n';
    }
    time
}

// The moment to which the dump of a try differs from the reference, where it does so first in a slot of its own and before so many last bytes.
fn time_of(reference: &Reference, left: usize, slot: u64) -> u64 {
    let place = reference.text.len().saturating_sub(left);
    slot.min(time_before(&reference.text, place))
}

// How far runs go to a moment.
fn bounds_to(search: &Search, until: u64, lines: bool) -> Bounds {
    Bounds {
        from: search.from,
        until,
        steps: search.steps,
        lines,
    }
}

/// How a try differs from the first order.
#[derive(Clone, Copy)]
struct Seen {
    /// The number of the try.
    number: u64,
    /// The moment, in ticks.
    time: u64,
    /// Whether its lines differ, and its dump doesn't.
    lines: bool,
}

// The difference of a try: the first order is run to its moment again, and then the choices are made few.
fn difference_at(
    alloc: Global,
    design: &Design,
    scripts: &[Script],
    search: &Search,
    seen: Seen,
) -> Result<Option<Difference>, WriterFault>
    requires { AreScripts design.now scripts.now }
{
    let Seen {
        number,
        time,
        lines,
    } = seen;
    let bounds = bounds_to(search, time, lines);
    let reference = reference_of(alloc, design, scripts, bounds)?;
    if !reference.whole {
        return Ok(None);
    }
    let stage = Stage {
        alloc,
        design,
        scripts,
        reference: &reference,
        bounds,
        lines,
    };
    let choices = few_choices(&stage, number, search.seed)?;
    Ok(Some(Difference {
        time,
        lines,
        choices,
    }))
}

// How a try ends, and where it differs: in its dump, else in its lines.
fn ended_try(
    alloc: Global,
    design: &Design,
    scripts: &[Script],
    search: &Search,
    reference: &Reference,
    number: u64,
    lines: bool,
) -> Result<(Ended, Option<Seen>), WriterFault>
    requires { AreScripts design.now scripts.now }
{
    let bounds = bounds_to(search, search.until, lines);
    let mut chooser = Chooser::of_try(alloc, number, search.seed);
    let mut sink = Comparing::new(&reference.text, reference.whole);
    let ended = run_trial(
        alloc,
        design,
        scripts,
        bounds,
        reference,
        &mut chooser,
        &mut sink,
    )?;
    let (time, lines) = match (ended.differs, ended.lines) {
        (Some(slot), _) => (time_of(reference, sink.left(), slot), false),
        (None, Some(slot)) => (slot, true),
        (None, None) => return Ok((ended, None)),
    };
    let seen = Seen {
        number,
        time,
        lines,
    };
    Ok((ended, Some(seen)))
}

// Whether so many runs of so many steps take long.
fn takes_long(steps: u64, runs: u64) -> bool {
    steps.saturating_mul(runs) >= LONG
}

// The first difference among the tries from a number on; these are the scripts of the design's processes, one each in order.
fn find_with<W: Watch>(
    alloc: Global,
    design: &Design,
    scripts: &[Script],
    search: &Search,
    skipped: u64,
    lines: bool,
    watch: &mut W,
) -> Result<Sought, WriterFault>
    requires { AreScripts design.now scripts.now }
{
    let bounds = bounds_to(search, search.until, lines);
    let reference = reference_of(alloc, design, scripts, bounds)?;
    let mut sought = Sought {
        difference: None,
        tries: skipped,
        stuck: 0,
    };
    if !reference.slots {
        return Ok(sought);
    }
    let long = takes_long(reference.taken, search.tries);
    for number in skipped..search.tries {
        if long {
            watch.tried(number, search.tries);
        }
        let (ended, seen) = ended_try(alloc, design, scripts, search, &reference, number, lines)?;
        sought.tries = number.saturating_add(1);
        if !ended.slots {
            sought.stuck = sought.stuck.saturating_add(1);
        }
        if let Some(seen) = seen {
            let difference = difference_at(alloc, design, scripts, search, seen)?;
            if difference.is_some() {
                sought.difference = difference;
                return Ok(sought);
            }
        }
    }
    Ok(sought)
}

// The same, with the scripts of the processes made from their codes, one each in order.
fn find_under<W: Watch>(
    alloc: Global,
    design: &Design,
    codes: &[Code],
    search: &Search,
    skipped: u64,
    lines: bool,
    watch: &mut W,
) -> Result<Sought, WriterFault>
    requires { codes.now ≡ map (λ p. p.body) design.now.processes }
{
    let scripts = scripts_of(alloc, design, codes)?;
    find_with(alloc, &*design, &scripts, search, skipped, lines, watch)
}

/// The first difference among the orders of a search that are tried from a number on: where the dump of one isn't that of the first order, or where
/// lines are compared too, its lines aren't, whatever their order. First always the last item is chosen; then a place in the list is kept, the first,
/// the last or another one, and drawn anew at 8, 20 or 40 of a hundred choices. The order that is answered differs as little from the first one as was
/// found within some 360 runs. Where the search takes long, it is watched.
pub fn find<W: Watch>(
    alloc: Global,
    design: &Design,
    search: &Search,
    skipped: u64,
    lines: bool,
    watch: &mut W,
) -> Result<Sought, AllocError> {
    let codes = codes_of(alloc, design.processes())?;
    // No write to a sink that keeps nothing fails.
    let Ok(sought) = find_under(alloc, design, &codes, search, skipped, lines, watch) else {
        return Err(AllocError);
    };
    Ok(sought)
}
