//! What a driver reads, and the drivers that write it.
ghost use Rattle.std.specs.Prelude.{◌≡◌, ◌⊎◌, ◌↔◌, false, IfOk, IsTrue};
ghost use Rattle.std.specs.List.{Contains};
ghost use Rattle.vs_drivers.specs.vs_rules.specs.Claims.{HasKind};
ghost use Rattle.vs_drivers.specs.vs_rules.specs.Drivers.{IsSource};
ghost use Rattle.vs_drivers.specs.Ranges.{Cover, Share};
ghost use Rattle.vs_drivers.specs.declared.writers.Written as written;
ghost use Rattle.vs_drivers.specs.Wires.{driver_at};
ghost use Rattle.vs_rules_of_signals.specs.Order.{AreWriters, MayRead, ranges_of, KeepsRead};

use crate::before::may_read;
use std::alloc::{AllocError, Global};
use vs_claims::Facts;
use vs_design::{BitRange, Design};
use vs_drivers::{Written, covers, is_net, share};

// The ranges that are written.
fn ranges_of(alloc: Global, row: &[Written]) -> Result<Vec<BitRange>, AllocError>
    ensures { IfOk result (λ ranges. ranges.items ≡ ranges_of row.now) }
{
    let mut ranges = Vec::new(alloc);
    for written in row {
        ranges.push(written.range)?;
    }
    Ok(ranges)
}

// Whether a range that a driver reads is of a net or of a source, or drivers write each bit of it. Of a variable that a driver writes it takes as
// long as there are ranges that are written of it, for each of at most 64 places of a word.
fn is_known(
    alloc: Global,
    design: &Design,
    row: &[Written],
    is_source: bool,
    range: BitRange,
) -> Result<bool, AllocError>
    ensures { IfOk result (λ b. (IsTrue b ↔
        (HasKind false design.now range.signal ⊎ (IsTrue is_source ⊎ Cover design.now (ranges_of row.now) range)))) }
{
    if is_net(design, range.signal) || is_source {
        return Ok(true);
    }
    let ranges = ranges_of(alloc, row)?;
    Ok(covers(design, &ranges, range))
}

// Whether each driver that writes a bit of the design which a range has is one that the reader may read.
fn is_earlier(facts: &Facts, row: &[Written], reader: usize, range: BitRange) -> bool
    ensures { IsTrue result ↔ ((w : written.Written) → Contains row.now w → Share facts.now.design range w.range →
        MayRead facts.now.design facts.now.claims reader w.driver) }
{
    for written in row {
        if share(facts.design(), range, written.range) && !may_read(facts, reader, written.driver) {
            return false;
        }
    }
    true
}

/// Whether a driver, by its number, keeps the rule K4 where it reads a range, by what drivers write of its signal and whether that is a source.
pub(crate) fn keeps_range(
    alloc: Global,
    facts: &Facts,
    row: &[Written],
    is_source: bool,
    reader: usize,
    range: BitRange,
) -> Result<bool, AllocError>
    requires row { AreWriters facts.now.design facts.now.claims range.signal row.now }
    requires source { IsTrue is_source ↔ IsSource facts.now.design facts.now.claims range.signal }
    ensures { IfOk result (λ b. (IsTrue b ↔
        KeepsRead facts.entry.now.design facts.entry.now.claims (driver_at facts.entry.now.design reader) range)) }
{
    if !is_known(alloc, facts.design(), row, is_source, range)? {
        return Ok(false);
    }
    Ok(is_earlier(facts, row, reader, range))
}
