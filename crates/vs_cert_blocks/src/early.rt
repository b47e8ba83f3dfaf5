//! Ranges that a block is sure to write first: where its paths have parted and met again, and before it reads anything of their signals.
ghost use Rattle.std.specs.Prelude.{ℕ, suc, ◌≡◌, ◌-◌, ◌≤◌, ◌↔◌, ◌⊎◌, IfOk, OnOk, IsTrue};
ghost use Rattle.std.specs.List.{Contains};
ghost use Rattle.vs_design.specs.declared.range.BitRange as range;
ghost use Rattle.vs_claims.specs.vs_maps.specs.Ranges.{HasSignal};
ghost use Rattle.vs_cert_blocks.specs.Early.{AreEarly, IsUnseen};
ghost use Rattle.vs_cert_blocks.specs.Walks.{sure_at, AreReads, AreWoken};

use crate::walks::{is_at_once, push_sure, row};
use std::alloc::{AllocError, Global};
use vs_claims::vs_maps::Tables;
use vs_design::BitRange;
use vs_drivers::SignalSet;

/// The least of some numbers and another one.
pub(crate) fn least_of(xs: &[usize], start: usize) -> usize
    ensures few { result ≤ start }
    ensures each { (x : ℕ) → Contains xs.now x → result ≤ x }
{
    let mut least = start;
    for x in xs {
        least = least.min(*x);
    }
    least
}

/// The greatest of some numbers, or 0.
pub(crate) fn greatest_of(xs: &[usize]) -> usize
    ensures { (x : ℕ) → Contains xs.now x → x ≤ result }
{
    let mut greatest = 0;
    for x in xs {
        greatest = greatest.max(*x);
    }
    greatest
}

/// Whether all of some numbers are another one at most.
pub(crate) fn are_up_to(xs: &[usize], most: usize) -> bool
    ensures { IsTrue result ↔ ((x : ℕ) → Contains xs.now x → x ≤ most) }
{
    for x in xs {
        if *x > most {
            return false;
        }
    }
    true
}

/// Some signals, and those of ranges.
pub(crate) fn noted(seen: SignalSet, ranges: &[BitRange]) -> Result<SignalSet, AllocError>
    ensures { IfOk result (λ new. (v : ℕ) → Contains seen v ⊎ HasSignal ranges.now v → Contains new v) }
{
    let mut all = seen;
    for range in ranges {
        all.put(range.signal)?;
    }
    Ok(all)
}

// Puts those ranges whose signals aren't among some.
fn push_unseen(
    out: &mut Vec<BitRange>,
    ranges: &[BitRange],
    seen: &SignalSet,
) -> Result<(), AllocError>
    ensures { OnOk result ((r : range.BitRange) → Contains out.new.items r →
        (Contains out.old.items r ⊎ IsUnseen ranges.now seen.now r)) }
{
    for range in ranges {
        if !seen.has(range.signal) {
            out.push(*range)?;
        }
    }
    Ok(())
}

// Puts what the statement at a place is sure to write of signals that aren't among some, where all that came before leads to this place or on.
fn push_early<'a>(
    alloc: Global,
    tables: &'a Tables<'a>,
    place: usize,
    least: usize,
    seen: &SignalSet,
    out: &mut Vec<BitRange>,
) -> Result<(), AllocError>
    ensures { OnOk result ((r : range.BitRange) → Contains out.new.items r → (Contains out.old.items r
        ⊎ ((place ≤ least) × IsUnseen (sure_at tables.entry.now place) seen.now r))) }
{
    if place > least {
        return Ok(());
    }
    let mut sure = Vec::new(alloc);
    push_sure(&mut sure, tables.statement(place))?;
    push_unseen(out, &sure, seen)
}

/// Ranges that are sure to be written on every path of a map before a bit of their signals is read, and before a control: of the places from the
/// one to which event controls lead, as long as no control stands there, those to which all paths come back. It takes as long as there are places
/// and ways, and for each read and write the logarithm of how many signals are read.
pub(crate) fn early_ranges<'a>(
    alloc: Global,
    tables: &'a Tables<'a>,
    seeds: &[usize],
    reads: &[Vec<BitRange>],
) -> Result<Vec<BitRange>, AllocError>
    requires woken { AreWoken tables.now seeds.now }
    requires reads { AreReads tables.now reads.now }
    ensures { IfOk result (λ out. AreEarly tables.entry.now out.items) }
{
    let high = greatest_of(seeds);
    let mut least = least_of(seeds, high);
    let mut seen = SignalSet::none(alloc);
    let mut out = Vec::new(alloc);
    for back in 0..tables.places() {
        if back > high {
            return Ok(out);
        }
        let place = high - back;
        if !is_at_once(tables, place) {
            return Ok(out);
        }
        if !are_up_to(tables.tos(place), high) {
            return Ok(out);
        }
        let more = noted(seen, row(reads, place))?;
        push_early(alloc, tables, place, least, &more, &mut out)?;
        seen = more;
        least = least_of(tables.tos(place), least);
    }
    Ok(out)
}
