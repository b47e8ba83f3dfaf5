//! The facts of a process's text.
ghost use Rattle.std.specs.Prelude.{◌≡◌, ◌<◌, true, length};
ghost use Rattle.vs_design.specs.WellFormed.{counts_from, numbers};

use crate::arrivals::{Arrivals, all_arrivals};
use crate::firing::{Firing, Firings, Root};
use crate::kinds::{TextKind, kind_of};
use crate::lists::delay_lists;
use crate::periods::{Timing, timing_of};
use crate::vs_certificate::Rules;
use crate::writing::{SignalWrite, signal_writes};
use std::alloc::{AllocError, Global};
use vs_design::Design;
use vs_process::{Code, TextMap, compile};

/// What the text of a process does.
#[derive(Drop)]
pub struct TextFacts {
    /// What runs it.
    pub kind: TextKind,
    /// What its assignments do to signals, in no order that is promised.
    pub writes: Vec<SignalWrite>,
    /// How long it takes.
    pub timing: Timing,
    /// How many places it has.
    pub places: usize,
}

// How a text comes to each place; to none where there are too many ways.
fn arrivals_or_none(alloc: Global, map: &TextMap, modulus: u64) -> Result<Arrivals, AllocError> {
    let none = Firings::none(alloc);
    match all_arrivals(alloc, map, Rules::Narrow, modulus, &none)? {
        Some(all) => Ok(all),
        None => Ok(Arrivals::none(alloc)),
    }
}

// What runs a process, by the map of its text.
fn kind_by(design: &Design, i: usize, map: &TextMap) -> TextKind {
    match design.processes().get(i) {
        None => TextKind::Delay,
        Some(process) => kind_of(process, map),
    }
}

// The facts of a process with this map. Residues don't count here, so all are by the modulus 1.
fn facts_on(
    alloc: Global,
    design: &Design,
    i: usize,
    map: &TextMap,
) -> Result<TextFacts, AllocError> {
    let arrivals = arrivals_or_none(alloc, map, 1)?;
    let writes = signal_writes(alloc, map, &arrivals)?;
    let timing = timing_of(alloc, map)?;
    Ok(TextFacts {
        kind: kind_by(design, i, map),
        writes,
        timing,
        places: map.stops.len(),
    })
}

// The facts of a process with this code.
fn facts_by(alloc: Global, design: &Design, i: usize, code: &Code) -> Result<TextFacts, AllocError>
    requires { counts_from 0 (numbers code.now) ≡ true }
{
    let map = TextMap::of(alloc, code)?;
    facts_on(alloc, design, i, &map)
}

/// What the text of a process does. It takes as long as the text.
pub fn text_facts(alloc: Global, design: &Design, i: usize) -> Result<TextFacts, AllocError>
    requires { i < length design.now.processes }
{
    design.is_well_formed();
    let code = compile(alloc, &design.processes()[i].body)?;
    facts_by(alloc, design, i, &code)
}

// The lists of a text with this map.
fn lists_on(
    alloc: Global,
    map: &TextMap,
    rules: Rules,
    modulus: u64,
    firings: &Firings,
) -> Result<Option<Vec<Vec<u64>>>, AllocError> {
    match all_arrivals(alloc, map, rules, modulus, firings)? {
        None => Ok(None),
        Some(all) => delay_lists(alloc, map, &all, rules, modulus),
    }
}

// The lists of a text with this code.
fn lists_by(
    alloc: Global,
    code: &Code,
    rules: Rules,
    modulus: u64,
    firings: &Firings,
) -> Result<Option<Vec<Vec<u64>>>, AllocError>
    requires { counts_from 0 (numbers code.now) ≡ true }
{
    let map = TextMap::of(alloc, code)?;
    lists_on(alloc, &map, rules, modulus, firings)
}

/// For each delay control of the text of a process, in its order, the residues by a modulus of the times above 0 at which it can end, rising; none
/// where one has more than 64 of them, by wide rules more than 4,096. An event control can end where one of its terms can fire. It takes as long as
/// the text, times how many residues there are.
pub fn text_lists(
    alloc: Global,
    design: &Design,
    i: usize,
    rules: Rules,
    modulus: u64,
    firings: &Firings,
) -> Result<Option<Vec<Vec<u64>>>, AllocError>
    requires { i < length design.now.processes }
{
    design.is_well_formed();
    let code = compile(alloc, &design.processes()[i].body)?;
    lists_by(alloc, &code, rules, modulus, firings)
}

// The residues at which the edges of a root can fire whose writer has this map.
fn fires_on(alloc: Global, map: &TextMap, rules: Rules, root: Root) -> Result<Firing, AllocError> {
    let none = Firings::none(alloc);
    match all_arrivals(alloc, map, rules, root.modulus, &none)? {
        None => Ok(Firing::none(alloc)),
        Some(all) => root.firing_on(alloc, map, &all),
    }
}

// Those of a root whose writer has this code.
fn fires_by(alloc: Global, code: &Code, rules: Rules, root: Root) -> Result<Firing, AllocError>
    requires { counts_from 0 (numbers code.now) ≡ true }
{
    let map = TextMap::of(alloc, code)?;
    fires_on(alloc, &map, rules, root)
}

/// The residues at which the edges of a root can fire that a process writes, by its delay controls. It takes as long as the text, times how many
/// residues there are.
pub fn text_firing(
    alloc: Global,
    design: &Design,
    i: usize,
    rules: Rules,
    root: Root,
) -> Result<Firing, AllocError>
    requires { i < length design.now.processes }
{
    design.is_well_formed();
    let code = compile(alloc, &design.processes()[i].body)?;
    fires_by(alloc, &code, rules, root)
}
