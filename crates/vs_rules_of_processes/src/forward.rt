//! Where signals lead forward through drivers.
ghost use Rattle.std.specs.Prelude.{ℕ, ◌+◌, ◌≡◌, ◌<◌, length, IfOk, OnOk};
ghost use Rattle.std.specs.List.{Contains};
ghost use Rattle.vs_graph.specs.Reached.{AreReached};
ghost use Rattle.vs_drivers.specs.Wires.{drivers, IsWiringOf};
ghost use Rattle.vs_graph.specs.Rows.{AreRows, with_all};
ghost use Rattle.vs_rules_of_processes.specs.Forward.{drivers_of, forward, signals_of, IsUser, LeadsWithin, WritesSignal};

use std::alloc::{AllocError, Global};
use vs_design::BitRange;
use vs_drivers::{Cones, Written};
use vs_graph::{Graph, Rows, reach};
use vs_slots::vs_claims::Facts;

// ---- tables

// Puts a number at the ends of the rows of the drivers of some ranges that are written.
fn put_drivers(table: &mut Rows<usize>, row: &[Written], number: usize) -> Result<(), AllocError>
    ensures { OnOk result (table.new ≡ with_all (drivers_of row.now) number table.old) }
{
    for written in row {
        table.put(written.driver, number)?;
    }
    Ok(())
}

// Puts a number at the ends of the rows of the signals of some ranges.
fn put_signals(
    table: &mut Rows<usize>,
    ranges: &[BitRange],
    number: usize,
) -> Result<(), AllocError>
    ensures { OnOk result (table.new ≡ with_all (signals_of ranges.now) number table.old) }
{
    for range in ranges {
        table.put(range.signal, number)?;
    }
    Ok(())
}

/// For each driver the signals that it writes.
pub(crate) fn outs_of<'a, 'b>(
    alloc: Global,
    facts: &'a Facts<'a>,
    cones: &'b Cones<'b>,
) -> Result<Rows<usize>, AllocError>
    requires { IsWiringOf facts.now.design facts.now.claims cones.now }
    ensures len { IfOk result (λ table. length table ≡ drivers facts.entry.now.design) }
    ensures exact { IfOk result (λ table. AreRows (λ v n. WritesSignal facts.entry.now.design facts.entry.now.claims n v)
        (length facts.entry.now.design.signals) (drivers facts.entry.now.design) table) }
{
    let design = facts.design();
    let mut outs = Rows::empty(alloc, design.assigns().len() + design.processes().len())?;
    for v in 0..design.signals().len() {
        put_drivers(&mut outs, cones.writers(v), v)?;
    }
    Ok(outs)
}

/// For each signal the nodes of the drivers that need it, where there are so many drivers as another table has rows.
pub(crate) fn users_of<'a, 'b>(
    alloc: Global,
    facts: &'a Facts<'a>,
    cones: &'b Cones<'b>,
    outs: &Rows<usize>,
) -> Result<Rows<usize>, AllocError>
    requires wiring { IsWiringOf facts.now.design facts.now.claims cones.now }
    requires outs { length outs.now ≡ drivers facts.now.design }
    ensures len { IfOk result (λ table. length table ≡ length facts.entry.now.design.signals) }
    ensures exact { IfOk result (λ table. AreRows (IsUser facts.entry.now.design facts.entry.now.claims)
        (length facts.entry.now.design.signals + drivers facts.entry.now.design) (length facts.entry.now.design.signals) table) }
{
    let first = facts.design().signals().len();
    let mut users = Rows::empty(alloc, first)?;
    for n in 0..outs.len() {
        put_signals(&mut users, cones.needs(n), first + n)?;
    }
    Ok(users)
}

// ---- walks

// Where an edge leads from a node.
fn row<'a>(users: &'a Rows<usize>, outs: &'a Rows<usize>, node: usize) -> &'a [usize]
    ensures { result.now ≡ forward users.now outs.now node }
{
    let signals = users.len();
    if node < signals {
        users.row(node)
    } else {
        outs.row(node - signals)
    }
}

/// The signals and drivers of a design, and where each leads.
#[derive(Drop)]
struct Forward<'a> {
    users: &'a Rows<usize>,
    outs: &'a Rows<usize>,
    ghost within: { LeadsWithin users.now outs.now },
}

impl<'a> Graph for Forward<'a> {
    ghost count = { λ g. length g.users.now + length g.outs.now };

    ghost nexts = { λ g. forward g.users.now g.outs.now };

    fn count(&self) -> usize {
        self.users.len() + self.outs.len()
    }

    fn put_nexts(&self, node: usize, todo: &mut Vec<usize>) -> Result<(), AllocError> {
        todo.extend_from_slice(row(self.users, self.outs, node))?;
        Ok(())
    }

    ghost inside = { λ g. g.within };
}

/// The signals and drivers to which walks lead forward from some signals: a mark for each. It takes as long as what they lead through, and as
/// there are signals and drivers.
pub(crate) fn reached<'a>(
    alloc: Global,
    users: &'a Rows<usize>,
    outs: &'a Rows<usize>,
    seeds: &[usize],
) -> Result<Vec<bool>, AllocError>
    requires within { LeadsWithin users.now outs.now }
    requires seeds { (s : ℕ) → Contains seeds.now s → s < length users.now }
    ensures { IfOk result (λ marks. AreReached (forward users.entry.now outs.entry.now) seeds.now
        (length users.entry.now + length outs.entry.now) marks.items) }
{
    let forward = Forward { users, outs };
    let marks = reach(alloc, &forward, seeds)?;
    Ok(marks)
}
