//! What processes of kind comb hang on.
ghost use Rattle.std.specs.Prelude.{◌≡◌, ◌<◌, ◌↔◌, ◌⊎◌, OnOk, IfOk};
ghost use Rattle.std.specs.List.{Contains};
ghost use Rattle.vs_design.specs.declared.range.BitRange as range;
ghost use Rattle.vs_maps.specs.vs_rules.specs.Rules.{BlockNeeds};
ghost use Rattle.vs_drivers.specs.Wires.{IsWiringOf};
ghost use Rattle.vs_drivers.specs.vs_maps.specs.Ranges.{shows_at};
ghost use Rattle.vs_drivers.specs.vs_maps.specs.Reaches.{IsPlace};
ghost use Rattle.vs_claims.specs.Facts.{seen};
ghost use Rattle.vs_rules_of_processes.specs.FirstSlot.{NeedsIn, ShowsIn, AreHung};
ghost use Rattle.vs_rules_of_processes.specs.FirstSlot as first;

use std::alloc::{AllocError, Global};
use vs_claims::Facts;
use vs_design::BitRange;
use vs_drivers::Cones;
use vs_drivers::vs_maps::Tables;

// Puts what is shown at a place, where it is a point.
fn push_shows_at(
    alloc: Global,
    out: &mut Vec<BitRange>,
    tables: &Tables,
    place: usize,
) -> Result<(), AllocError>
    ensures { OnOk result ((r : range.BitRange) →
        (Contains out.new.items r ↔ (Contains out.old.items r ⊎ (IsPlace tables.now place × Contains (shows_at tables.now place) r)))) }
{
    tables.leads_in();
    if place >= tables.places() {
        return Ok(());
    }
    if !tables.is_point(place) {
        return Ok(());
    }
    let ranges = tables.shows_at(alloc, place)?;
    out.extend_from_slice(&ranges)?;
    Ok(())
}

// Puts what is shown at the places of a process.
fn push_shows(alloc: Global, out: &mut Vec<BitRange>, tables: &Tables) -> Result<(), AllocError>
    ensures { OnOk result ((r : range.BitRange) →
        (Contains out.new.items r ↔ (Contains out.old.items r ⊎ first.Shows tables.now r))) }
{
    tables.leads_in();
    for p in 0..tables.places() {
        push_shows_at(alloc, out, tables, p)?;
    }
    Ok(())
}

// Puts what a process shows, by its number.
fn push_shown(
    alloc: Global,
    out: &mut Vec<BitRange>,
    facts: &Facts,
    i: usize,
) -> Result<(), AllocError>
    ensures { OnOk result ((r : range.BitRange) →
        (Contains out.new.items r ↔ (Contains out.old.items r ⊎ ShowsIn facts.now.charts i r))) }
{
    match facts.tables(i) {
        None => Ok(()),
        Some(tables) => push_shows(alloc, out, tables),
    }
}

// Puts what a process needs, where it is of kind comb, and where the certificate says so what it shows.
fn push_needs(
    alloc: Global,
    out: &mut Vec<BitRange>,
    facts: &Facts,
    cones: &Cones,
    i: usize,
) -> Result<(), AllocError>
    requires { IsWiringOf facts.now.design facts.now.claims cones.now }
    ensures { OnOk result ((r : range.BitRange) →
        (Contains out.new.items r ↔ (Contains out.old.items r ⊎ NeedsIn facts.now i r))) }
{
    if !facts.is_block(i) {
        return Ok(());
    }
    out.extend_from_slice(cones.block_needs(i))?;
    if !facts.displays() {
        return Ok(());
    }
    push_shown(alloc, out, facts, i)
}

// All that processes of kind comb need.
fn all_needs(alloc: Global, facts: &Facts, cones: &Cones) -> Result<Vec<BitRange>, AllocError>
    requires { IsWiringOf facts.now.design facts.now.claims cones.now }
    ensures { IfOk result (λ all. (r : range.BitRange) → (Contains all.items r ↔ BlockNeeds facts.now.design facts.now.claims r)) }
{
    facts.maps();
    let mut all = Vec::new(alloc);
    for i in 0..facts.design().processes().len() {
        push_needs(alloc, &mut all, facts, cones, i)?;
    }
    Ok(all)
}

/// The signals in the cones of what processes of kind comb need: a mark for each. It takes as long as the texts of these processes, and as the
/// cone.
pub(crate) fn hung(alloc: Global, facts: &Facts, cones: &Cones) -> Result<Vec<bool>, AllocError>
    requires { IsWiringOf facts.now.design facts.now.claims cones.now }
    ensures { IfOk result (λ marks. AreHung facts.now.design facts.now.claims marks.items) }
{
    let ranges = all_needs(alloc, facts, cones)?;
    let marks = cones.cone_of(alloc, &ranges)?;
    Ok(marks)
}
