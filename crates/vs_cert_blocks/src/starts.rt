//! Places at which it is enough to begin a walk for a signal: all paths come there, and before it nothing of the signal is read.
ghost use Rattle.std.specs.Prelude.{ℕ, ◌≡◌, ◌≤◌, ◌⊎◌, Some, IfOk, OnOk};
ghost use Rattle.vs_cert_blocks.specs.Starts.{ArePut, ArePutAt, AreStarts};
ghost use Rattle.vs_cert_blocks.specs.Walks.{AreReads, AreWoken};

use crate::early::{are_up_to, greatest_of, least_of, noted};
use crate::walks::{is_at_once, push_sure, row};
use std::alloc::{AllocError, Global};
use std::collections::BTreeMap;
use vs_claims::vs_maps::Tables;
use vs_design::BitRange;
use vs_drivers::SignalSet;

// Gives a signal a place, where it has none yet and isn't among some.
fn put_start(
    starts: &mut BTreeMap<usize, usize>,
    signal: usize,
    place: usize,
    seen: &SignalSet,
) -> Result<(), AllocError>
    ensures { OnOk result (ArePut starts.old starts.new seen.now place) }
{
    if seen.has(signal) || starts.contains_key(&signal) {
        return Ok(());
    }
    starts.insert(signal, place)?;
    Ok(())
}

// The same of the signals of ranges.
fn put_signals(
    starts: &mut BTreeMap<usize, usize>,
    ranges: &[BitRange],
    place: usize,
    seen: &SignalSet,
) -> Result<(), AllocError>
    ensures { OnOk result (ArePut starts.old starts.new seen.now place) }
{
    for range in ranges {
        put_start(starts, range.signal, place, seen)?;
    }
    Ok(())
}

// Gives those signals that the statement at a place is sure to write the last place before it to which all paths come, where there is one.
fn put_starts<'a>(
    alloc: Global,
    tables: &'a Tables<'a>,
    place: usize,
    join: Option<usize>,
    seen: &SignalSet,
    starts: &mut BTreeMap<usize, usize>,
) -> Result<(), AllocError>
    ensures { OnOk result (ArePutAt starts.old starts.new seen.now join) }
{
    match join {
        None => Ok(()),
        Some(start) => {
            let mut sure = Vec::new(alloc);
            push_sure(&mut sure, tables.statement(place))?;
            put_signals(starts, &sure, start, seen)
        }
    }
}

// A place, where all paths come to it; else the last one before it to which they do.
fn last_join(join: Option<usize>, place: usize, least: usize) -> Option<usize>
    ensures { (result ≡ join) ⊎ ((place ≤ least) × (result ≡ Some place)) }
{
    if place <= least { Some(place) } else { join }
}

/// For signals that a map is sure to write, a place from which walks decide whether their bits are written first. It takes as long as there are
/// places and ways, and for each read and write the logarithm of how many signals there are.
pub(crate) fn starts<'a>(
    alloc: Global,
    tables: &'a Tables<'a>,
    seeds: &[usize],
    reads: &[Vec<BitRange>],
) -> Result<BTreeMap<usize, usize>, AllocError>
    requires woken { AreWoken tables.now seeds.now }
    requires reads { AreReads tables.now reads.now }
    ensures { IfOk result (λ starts. AreStarts tables.entry.now starts) }
{
    let high = greatest_of(seeds);
    let mut least = least_of(seeds, high);
    let mut seen = SignalSet::none(alloc);
    let mut join = None;
    let mut starts = BTreeMap::new(alloc);
    for back in 0..tables.places() {
        if back > high {
            return Ok(starts);
        }
        let place = high - back;
        if !is_at_once(tables, place) {
            return Ok(starts);
        }
        if !are_up_to(tables.tos(place), high) {
            return Ok(starts);
        }
        join = last_join(join, place, least);
        let more = noted(seen, row(reads, place))?;
        put_starts(alloc, tables, place, join, &more, &mut starts)?;
        seen = more;
        least = least_of(tables.tos(place), least);
    }
    Ok(starts)
}
