//! Whether a combinational block keeps the rule K5, by its process and its map.
ghost use Rattle.std.specs.Prelude.{ℕ, ◌≡◌, ◌↔◌, ◌⊎◌, false, IfOk, OnOk, IsTrue};
ghost use Rattle.std.specs.List.{Contains};
ghost use Rattle.vs_graph.specs.Clear.{AreClear};
ghost use Rattle.vs_claims.specs.vs_process.specs.declared.moves.Grain.TheVariants as g;
ghost use Rattle.vs_claims.specs.vs_maps.specs.Ranges.{HasSignal, statement_at};
ghost use Rattle.vs_claims.specs.vs_maps.specs.Reaches.{places, IsPlace};
ghost use Rattle.vs_drivers.specs.Ranges.{Cover};
ghost use Rattle.vs_design.specs.declared.range.BitRange.{BitRange};
ghost use Rattle.vs_cert_blocks.specs.Blocks.{IsQuiet, AreOfOrNamed, IsSignalFirst, AreSignalsFirst, KeepsText, KeepsBlock};
ghost use Rattle.vs_cert_blocks.specs.Walks.{has_late_effect_at, AreReads, AreWoken, HaveSure};

use crate::bits::has_late_effect;
use crate::early::early_ranges;
use crate::starts::starts;
use crate::walks::{Walks, sure, woken};
use std::alloc::{AllocError, Global};
use vs_claims::vs_maps::{Tables, push_signals, terms, text_reads};
use vs_claims::vs_process::{Grain, is_combinational};
use vs_design::{BitRange, Design, Process};
use vs_drivers::{BySignal, SignalSet, covers, push_ranges};
use vs_graph::{Rule, all_keep, clear_marks};
use vs_process::statement_writes;

// The places of a map.
#[derive(Drop)]
struct Quiet<'a> {
    tables: &'a Tables<'a>,
}

impl<'a> Rule for Quiet<'a> {
    ghost keeps = { λ f p. IsPlace f.tables.now p → has_late_effect_at (statement_at f.tables.now p) ≡ false };

    fn test(&self, _alloc: Global, i: usize) -> Result<bool, AllocError> {
        self.tables.leads_in();
        if i >= self.tables.places() {
            return Ok(true);
        }
        if !self.tables.is_point(i) {
            return Ok(true);
        }
        Ok(!has_late_effect(self.tables.statement(i)))
    }
}

// Whether a map has no `<=`, no `$strobe` and no `$finish`.
fn is_quiet<'a>(alloc: Global, tables: &'a Tables<'a>) -> Result<bool, AllocError>
    ensures { IfOk result (λ b. (IsTrue b ↔ IsQuiet tables.entry.now)) }
{
    tables.leads_in();
    let quiet = Quiet { tables };
    let all = all_keep(alloc, &quiet, tables.places())?;
    Ok(all)
}

// The signals that ranges are of, each once.
fn signals_of(alloc: Global, ranges: &[BitRange]) -> Result<Vec<usize>, AllocError>
    ensures { IfOk result (λ signals. (v : ℕ) → (Contains signals.items v ↔ HasSignal ranges.now v)) }
{
    let mut signals = Vec::new(alloc);
    push_signals(&mut signals, ranges)?;
    signals.sort_unstable();
    signals.dedup();
    Ok(signals)
}

// The ranges that are read at each place of a map.
fn reads<'a>(alloc: Global, tables: &'a Tables<'a>) -> Result<Vec<Vec<BitRange>>, AllocError>
    ensures { IfOk result (λ rows. AreReads tables.entry.now rows.items) }
{
    let mut rows = Vec::new(alloc);
    for place in 0..tables.places() {
        let row = tables.reads_at(alloc, place)?;
        rows.push(row)?;
    }
    Ok(rows)
}

// Whether each of some ranges is of one of some signals, or other ranges cover it. For each range it takes as long as there are other ranges of
// its signal, and the logarithm of how many there are in all.
fn are_of_or_covered(
    design: &Design,
    signals: &SignalSet,
    named: &BySignal,
    read: &[BitRange],
) -> bool
    ensures { IsTrue result ↔
        ((r : BitRange) → Contains read.now r → Contains signals.now r.signal ⊎ Cover design.now named.now r) }
{
    for range in read {
        if !signals.has(range.signal) && !covers(design, named.of_signal(range.signal), *range) {
            return false;
        }
    }
    true
}

// Whether each range that is read is of a signal that is written, or an event control of the map names it.
fn are_named<'a>(
    alloc: Global,
    design: &Design,
    tables: &'a Tables<'a>,
    signals: &[usize],
    read: &[BitRange],
) -> Result<bool, AllocError>
    ensures { IfOk result (λ b. (IsTrue b ↔ AreOfOrNamed design.now tables.entry.now signals.now read.now)) }
{
    let terms = terms(alloc, tables)?;
    let mut ranges = Vec::new(alloc);
    push_ranges(&mut ranges, &terms)?;
    let named = BySignal::of(ranges);
    let written = SignalSet::of(alloc, signals)?;
    Ok(are_of_or_covered(design, &written, &named, read))
}

// Whether each bit of a signal is written first.
fn signal_is_written<'a>(
    alloc: Global,
    design: &Design,
    walks: &Walks<'a>,
    signal: usize,
    marks: &mut Vec<bool>,
) -> Result<bool, AllocError>
    requires woken { AreWoken walks.now.tables.now walks.now.seeds.now }
    requires sure { HaveSure walks.now.tables.now walks.now.sure.now }
    requires marks { AreClear (places walks.now.tables.now) marks.old.items }
    ensures clear { OnOk result (AreClear (places walks.now.tables.now) marks.new.items) }
    ensures exact { IfOk result (λ b. (IsTrue b ↔ IsSignalFirst design.now walks.now.tables.now signal)) }
{
    match design.signals().get(signal) {
        None => Ok(true),
        Some(s) => walks.signal_is_written_first(alloc, signal, s.count as usize, s.width, marks),
    }
}

// Whether each bit of some signals is.
fn are_written<'a>(
    alloc: Global,
    design: &Design,
    walks: &Walks<'a>,
    signals: &[usize],
    marks: &mut Vec<bool>,
) -> Result<bool, AllocError>
    requires woken { AreWoken walks.now.tables.now walks.now.seeds.now }
    requires sure { HaveSure walks.now.tables.now walks.now.sure.now }
    requires marks { AreClear (places walks.now.tables.now) marks.old.items }
    ensures { IfOk result (λ b. (IsTrue b ↔ AreSignalsFirst design.now walks.now.tables.now signals.now)) }
{
    for signal in signals {
        if !signal_is_written(alloc, design, walks, *signal, marks)? {
            return Ok(false);
        }
    }
    Ok(true)
}

// Whether each bit of some signals is written on every path of a map before a bit of its signal is read, and before a control.
fn are_written_first<'a>(
    alloc: Global,
    design: &Design,
    tables: &'a Tables<'a>,
    signals: &[usize],
) -> Result<bool, AllocError>
    ensures { IfOk result (λ b. (IsTrue b ↔ AreSignalsFirst design.now tables.entry.now signals.now)) }
{
    tables.leads_in();
    let seeds = woken(alloc, tables)?;
    let reads = reads(alloc, tables)?;
    let ranges = sure(alloc, tables)?;
    let sure = BySignal::of(ranges);
    let first = early_ranges(alloc, tables, &seeds, &reads)?;
    let early = BySignal::of(first);
    let starts = starts(alloc, tables, &seeds, &reads)?;
    let walks = Walks {
        tables,
        seeds: &seeds,
        reads: &reads,
        sure: &sure,
        early: &early,
        starts: &starts,
    };
    let mut marks = clear_marks(alloc, tables.places())?;
    let all = are_written(alloc, design, &walks, signals, &mut marks)?;
    Ok(all)
}

// Whether the grain is `block`.
fn is_block(grain: Grain) -> bool
    ensures { IsTrue result ↔ (grain ≡ g.Block) }
{
    match grain {
        Grain::Block => true,
        Grain::Statement => false,
    }
}

// Whether what a text reads is named by its control or written by itself, and each bit that it writes is written first.
fn keeps_text<'a>(
    alloc: Global,
    design: &Design,
    process: &Process,
    tables: &'a Tables<'a>,
) -> Result<bool, AllocError>
    ensures { IfOk result (λ b. (IsTrue b ↔ KeepsText design.now process.now tables.entry.now)) }
{
    let written = statement_writes(alloc, &process.body)?;
    let signals = signals_of(alloc, &written)?;
    let read = text_reads(alloc, &process.body)?;
    if !are_named(alloc, design, tables, &signals, &read)? {
        return Ok(false);
    }
    let all = are_written_first(alloc, design, tables, &signals)?;
    Ok(all)
}

/// Whether a combinational block keeps the rule K5, by its process and its map: the grain is `block`; it is an `always` with one control of level
/// terms before a statement without timing control; it has no `<=`, no `$strobe` and no `$finish`; its control names each bit that it reads, but
/// for its outputs; and on every path each bit of its outputs is written before a bit of that output is read, and before the end. It takes as
/// long as the text, up to a logarithm, and for each select of an output as long as its map from where the signal is first written up to where the
/// select is on all paths; of one signal it takes the square of its different selects.
pub fn keeps_process<'a>(
    alloc: Global,
    design: &Design,
    process: &Process,
    tables: &'a Tables<'a>,
    grain: Grain,
) -> Result<bool, AllocError>
    ensures { IfOk result (λ b. (IsTrue b ↔ KeepsBlock design.now process.now tables.entry.now grain)) }
{
    if !is_block(grain) || !is_combinational(process) {
        return Ok(false);
    }
    if !is_quiet(alloc, tables)? {
        return Ok(false);
    }
    keeps_text(alloc, design, process, tables)
}
