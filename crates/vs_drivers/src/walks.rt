//! Walks from ranges backward through drivers.
ghost use Rattle.std.specs.Prelude.{◌≡◌, ◌++◌, [], ◌∷◌, length, get_or, if◌then◌else◌, IfOk, OnOk};
ghost use Rattle.vs_design.specs.Tables.{rows};
ghost use Rattle.vs_maps.specs.vs_graph.specs.Reached.{AreReached};
ghost use Rattle.vs_drivers.specs.Meets.{meet_among};
ghost use Rattle.vs_drivers.specs.Walks.{met_in, met, all_met, linked, LeadBelow};

use crate::common::meets;
use crate::writers::Written;
use std::alloc::{AllocError, Global};
use vs_design::{BitRange, Signal};
use vs_maps::vs_graph::{Graph, Rows, reach};

// Puts the driver of a range that meets another one.
fn push_one(
    signals: &[Signal],
    written: Written,
    range: BitRange,
    out: &mut Vec<usize>,
) -> Result<(), AllocError>
    ensures { OnOk result (out.new.items ≡ out.old.items ++
        (if meet_among signals.now written.range range then written.driver ∷ [] else [])) }
{
    if meets(signals, written.range, range) {
        out.push(written.driver)?;
    }
    Ok(())
}

// Puts the drivers of a row whose ranges meet one.
fn push_met_in(
    signals: &[Signal],
    row: &[Written],
    range: BitRange,
    out: &mut Vec<usize>,
) -> Result<(), AllocError>
    ensures { OnOk result (out.new.items ≡ out.old.items ++ met_in signals.now row.now range) }
{
    for written in row {
        push_one(signals, *written, range, out)?;
    }
    Ok(())
}

// Puts the drivers of a table whose ranges meet one.
fn push_met(
    signals: &[Signal],
    writers: &Rows<Written>,
    range: BitRange,
    out: &mut Vec<usize>,
) -> Result<(), AllocError>
    ensures { OnOk result (out.new.items ≡ out.old.items ++ met signals.now writers.now range) }
{
    let row = writers.row(range.signal);
    push_met_in(signals, row, range, out)?;
    Ok(())
}

// Puts the drivers of a table whose ranges meet one of several.
fn push_all_met(
    signals: &[Signal],
    writers: &Rows<Written>,
    ranges: &[BitRange],
    out: &mut Vec<usize>,
) -> Result<(), AllocError>
    ensures { OnOk result (out.new.items ≡ out.old.items ++ all_met signals.now writers.now ranges.now) }
{
    for range in ranges {
        push_met(signals, writers, *range, out)?;
    }
    Ok(())
}

/// The drivers, and from each those that write what meets one of its needs.
#[derive(Drop)]
struct Links<'a> {
    signals: &'a [Signal],
    needs: &'a [Vec<BitRange>],
    writers: &'a Rows<Written>,
    ghost within: { LeadBelow (length needs.now) signals.now writers.now },
}

impl<'a> Graph for Links<'a> {
    ghost count = { λ g. length g.needs.now };

    ghost nexts = { λ g. linked g.signals.now g.needs.now g.writers.now };

    fn count(&self) -> usize {
        self.needs.len()
    }

    fn put_nexts(&self, node: usize, todo: &mut Vec<usize>) -> Result<(), AllocError> {
        match self.needs.get(node) {
            None => Ok(()),
            Some(ranges) => push_all_met(self.signals, self.writers, ranges, todo),
        }
    }

    ghost inside = { λ g a b h. g.within (get_or (rows g.needs.now) a []) b h };
}

/// The drivers to which walks lead backward from some ranges: a mark for each. It takes as long as the needs of those drivers, and what meets
/// them, times the writers of their signals, and as there are drivers.
pub(crate) fn passed(
    alloc: Global,
    signals: &[Signal],
    needs: &[Vec<BitRange>],
    writers: &Rows<Written>,
    ranges: &[BitRange],
) -> Result<Vec<bool>, AllocError>
    requires { LeadBelow (length needs.now) signals.now writers.now }
    ensures len { IfOk result (λ marks. length marks.items ≡ length needs.now) }
    ensures exact { IfOk result (λ marks.
        AreReached (linked signals.now needs.now writers.now) (all_met signals.now writers.now ranges.now) (length needs.now) marks.items) }
{
    let mut seeds = Vec::new(alloc);
    push_all_met(signals, writers, ranges, &mut seeds)?;
    let links = Links {
        signals,
        needs,
        writers,
    };
    let marks = reach(alloc, &links, &seeds)?;
    Ok(marks)
}
