//! The rule K11, on the starts of combinational blocks.
ghost use Rattle.std.specs.Prelude.{ℕ, ◌≡◌, ◌<◌, ◌↔◌, ◌⊎◌, false, true, Some, length, slice_get, slice_index_or, IfOk, IsTrue, option_map};
ghost use Rattle.std.specs.List.{Contains};
ghost use Rattle.vs_design.specs.declared.statement.EventTerm as event;
ghost use Rattle.vs_drivers.specs.vs_process.specs.Writes.{statement_writes};
ghost use Rattle.vs_rules.specs.vs_process.specs.BlockDrivers.{outputs};
ghost use Rattle.vs_rules.specs.Certificates.{kind_from, start_from};
ghost use Rattle.vs_rules.specs.Claims as claims;
ghost use Rattle.vs_rules.specs.Claims.{block, cold, starter, HasStart, IsBlock};
ghost use Rattle.vs_rules.specs.Blocks as rules;
ghost use Rattle.vs_rules.specs.Blocks.{K5, K11, IsCold, WaitsForSources, HasStarter};
ghost use Rattle.vs_drivers.specs.Wires.{IsWiringOf};
ghost use Rattle.vs_claims.specs.Facts.{kind_seen};
ghost use Rattle.vs_rules_of_starts.specs.Started.{AreTerms};
ghost use Rattle.vs_rules_of_starts.specs.Starts.{AreApart, IsFine, AreFine, NoStarterIn};

use crate::Beginning;
use crate::apart::Starts;
use crate::starter::has_starter;
use std::alloc::{AllocError, Global};
use vs_claims::Facts;
use vs_claims::vs_certificate::{ClaimedKind, Start};
use vs_design::{BitRange, EventTerm};
use vs_drivers::vs_maps::{has_signal, terms};
use vs_drivers::vs_process::statement_writes;
use vs_drivers::{Cones, Copies};

// The start of a kind that is there, where it is that of a combinational block.
fn kind_start(kind: &ClaimedKind) -> Option<Start>
    ensures { (s : claims.Start) → ((kind_from kind.now ≡ block s) ↔ (option_map start_from result ≡ Some s)) }
{
    match kind {
        ClaimedKind::Combinational(start) => Some(*start),
        ClaimedKind::Edge => None,
        ClaimedKind::Delay(_) => None,
        ClaimedKind::Mixed(_) => None,
    }
}

/// The start of a kind, where it is that of a combinational block.
pub(crate) fn start_of(kind: Option<&ClaimedKind>) -> Option<Start>
    ensures { (s : claims.Start) → ((kind_seen kind.entry ≡ Some (block s)) ↔ (option_map start_from result ≡ Some s)) }
{
    match kind {
        None => None,
        Some(k) => kind_start(k),
    }
}

// Whether a signal is a source, or one that is written.
fn is_fine(facts: &Facts, cones: &Cones, written: &[BitRange], signal: usize) -> bool
    requires { IsWiringOf facts.now.design facts.now.claims cones.now }
    ensures { IsTrue result ↔ IsFine facts.now.design facts.now.claims written.now signal }
{
    if cones.is_source(signal) {
        return true;
    }
    has_signal(written, signal)
}

// Whether of each term the signal is.
fn are_fine(facts: &Facts, cones: &Cones, written: &[BitRange], terms: &[EventTerm]) -> bool
    requires { IsWiringOf facts.now.design facts.now.claims cones.now }
    ensures { IsTrue result ↔ AreFine facts.now.design facts.now.claims written.now terms.now }
{
    for term in terms {
        if !is_fine(facts, cones, written, term.range.signal) {
            return false;
        }
    }
    true
}

// Whether it is the start of a block that a variable is sure to wake.
fn is_starter(start: Start) -> bool
    ensures { IsTrue result ↔ (start_from start ≡ starter) }
{
    matches!(start, Start::Starter)
}

// Whether a process has start `starter`.
fn has_start(facts: &Facts, j: usize) -> bool
    ensures { IsTrue result ↔ HasStart facts.now.design facts.now.claims j starter }
{
    match start_of(facts.kind(j)) {
        None => false,
        Some(start) => is_starter(start),
    }
}

// Whether a process is marked, and has it.
fn is_passed(facts: &Facts, marked: bool, j: usize) -> bool
    ensures { IsTrue result ↔ (IsTrue marked × HasStart facts.now.design facts.now.claims j starter) }
{
    if !marked {
        return false;
    }
    has_start(facts, j)
}

/// Whether no process that is marked has start `starter`.
pub(crate) fn no_starter_in(facts: &Facts, marks: &[bool]) -> bool
    ensures { IsTrue result ↔ NoStarterIn facts.now.design facts.now.claims marks.now }
{
    for j in 0..marks.len() {
        if is_passed(facts, marks[j], j) {
            return false;
        }
    }
    true
}

// Whether a block that never ran has the outputs that a run on the settled first store gives it, and none of the drivers that its cone passes through
// has start `starter`; where all blocks of start `cold` are apart from these, its cone is left out.
fn is_cold(
    alloc: Global,
    facts: &Facts,
    cones: &Cones,
    beginning: &Beginning,
    apart: bool,
    i: usize,
) -> Result<bool, AllocError>
    requires wiring { IsWiringOf facts.now.design facts.now.claims cones.now }
    requires beginning { beginning.now ≡ facts.now.design }
    requires apart { IsTrue apart → AreApart facts.now.design facts.now.claims }
    requires shape { K5 facts.now.design facts.now.claims i }
    requires start { HasStart facts.now.design facts.now.claims i cold }
    ensures { IfOk result (λ b. (IsTrue b ↔ IsCold facts.now.design facts.now.claims i)) }
{
    let stays = beginning.stays_cold(alloc, i)?;
    if !stays {
        return Ok(false);
    }
    if apart {
        return Ok(true);
    }
    let passed = cones.passed_by(alloc, cones.block_needs(i))?;
    Ok(no_starter_in(facts, &passed))
}

// The terms of the event controls of a process.
fn terms_of(alloc: Global, facts: &Facts, i: usize) -> Result<Vec<EventTerm>, AllocError>
    requires { i < length facts.now.design.processes }
    ensures { IfOk result (λ all. AreTerms facts.now.design i all.items) }
{
    facts.maps();
    match facts.tables(i) {
        None => Ok(Vec::new(alloc)),
        Some(tables) => terms(alloc, tables),
    }
}

// Whether the control of a block names sources and its own outputs alone.
fn waits_for_sources(
    alloc: Global,
    facts: &Facts,
    cones: &Cones,
    i: usize,
) -> Result<bool, AllocError>
    requires wiring { IsWiringOf facts.now.design facts.now.claims cones.now }
    requires within { i < length facts.now.design.processes }
    ensures { IfOk result (λ b. (IsTrue b ↔ WaitsForSources facts.now.design facts.now.claims i)) }
{
    let terms = terms_of(alloc, facts, i)?;
    let written = statement_writes(alloc, &facts.design().processes()[i].body)?;
    Ok(are_fine(facts, cones, &written, &terms))
}

// Whether a variable that the control of a block names is sure to change in the first slot.
fn starts_moved(alloc: Global, facts: &Facts, copies: &Copies, i: usize) -> Result<bool, AllocError>
    requires copies { copies.now ≡ facts.now.design }
    requires within { i < length facts.now.design.processes }
    ensures { IfOk result (λ b. (IsTrue b ↔ HasStarter facts.now.design facts.now.claims i)) }
{
    let terms = terms_of(alloc, facts, i)?;
    has_starter(alloc, facts, copies, &terms)
}

// Whether a block starts so.
fn starts_as(
    alloc: Global,
    facts: &Facts,
    cones: &Cones,
    copies: &Copies,
    beginning: &Beginning,
    apart: bool,
    i: usize,
    start: Start,
) -> Result<bool, AllocError>
    requires wiring { IsWiringOf facts.now.design facts.now.claims cones.now }
    requires copies { copies.now ≡ facts.now.design }
    requires beginning { beginning.now ≡ facts.now.design }
    requires apart { IsTrue apart → AreApart facts.now.design facts.now.claims }
    requires shape { K5 facts.now.design facts.now.claims i }
    requires start { HasStart facts.now.design facts.now.claims i (start_from start) }
    requires within { i < length facts.now.design.processes }
    ensures { IfOk result (λ b. (IsTrue b ↔ rules.Starts facts.now.design facts.now.claims i (start_from start))) }
{
    match start {
        Start::Cold => is_cold(alloc, facts, cones, beginning, apart, i),
        Start::Sources => waits_for_sources(alloc, facts, cones, i),
        Start::Starter => starts_moved(alloc, facts, copies, i),
    }
}

/// Whether a process keeps the rule K11: a combinational block that never ran has the outputs that a run would give it. The rules K1, K4 and K5 have to
/// hold before: K1 and K4 make the beginning, and K5 gives a block its shape. It takes, of a block of start `cold`, as long as the design has words, the
/// text of the block and 10,000 steps, and where some such block needs what one of start `starter` gives, the cone of what it needs; of start `sources`
/// the text of the block; and of start `starter` as there are signals, and for each variable that may start it, the text of that one's writer.
pub fn keeps_start_by(
    alloc: Global,
    starts: &Starts,
    cones: &Cones,
    copies: &Copies,
    beginning: &Beginning,
    i: usize,
) -> Result<bool, AllocError>
    requires wiring { IsWiringOf starts.now.design starts.now.claims cones.now }
    requires copies { copies.now ≡ starts.now.design }
    requires beginning { beginning.now ≡ starts.now.design }
    requires shape { K5 starts.now.design starts.now.claims i }
    ensures exact { IfOk result (λ b. (IsTrue b ↔ K11 starts.now.design starts.now.claims i)) }
{
    match start_of(starts.facts.kind(i)) {
        None => Ok(true),
        Some(start) => starts_as(
            alloc,
            starts.facts,
            cones,
            copies,
            beginning,
            starts.apart,
            i,
            start,
        ),
    }
}
