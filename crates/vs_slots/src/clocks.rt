//! The clocks of a design.
ghost use Rattle.std.specs.Prelude.{ℕ, ◌≡◌, ◌<◌, ◌↔◌, Some, length, IfOk};
ghost use Rattle.std.specs.List.{Contains};
ghost use Rattle.vs_maps.specs.vs_rules.specs.Claims.{is_wide};
ghost use Rattle.vs_maps.specs.vs_rules.specs.Paths.{Writes};
ghost use Rattle.vs_slots_constants.specs.Clocks.{IsSetBy};
ghost use Rattle.vs_slots.specs.Kept.{AreClocks, IsClockOf};

use crate::settings::set_by;
use std::alloc::{AllocError, Global};
use vs_claims::Facts;
use vs_design::vs_logic4::Digit;
use vs_maps::writers;
use vs_slots_constants::{Clock, clock_of, other};

// Where clocks are wide, the 0 or 1 that each write of the one other process gives a signal by `=`, if they all give the same.
fn set_beside<'a>(
    alloc: Global,
    facts: &'a Facts<'a>,
    writers: &[usize],
    v: usize,
    writer: Option<usize>,
) -> Result<Option<Digit>, AllocError>
    requires { v < length facts.now.design.signals }
    ensures { IfOk result (λ set. (i : ℕ) → writer ≡ Some i →
        IsSetBy facts.entry.now.design (is_wide facts.entry.now.claims) v i writers.now set) }
{
    if !facts.is_wide() {
        return Ok(None);
    }
    let Some(i) = writer else {
        return Ok(None);
    };
    let Some(j) = other(writers, i) else {
        return Ok(None);
    };
    set_by(alloc, facts, v, j)
}

// The clock that a signal is, where it is one, by all processes that write it.
fn clock_by<'a>(
    alloc: Global,
    facts: &'a Facts<'a>,
    writers: &[usize],
    v: usize,
) -> Result<Option<Clock>, AllocError>
    requires writers { (k : ℕ) → (Contains writers.now k ↔ Writes facts.now.design k v) }
    requires signal { v < length facts.now.design.signals }
    ensures { IfOk result (λ o. IsClockOf facts.entry.now v o) }
{
    let writer = facts.writer(v);
    let set = set_beside(alloc, &*facts, writers, v, writer)?;
    clock_of(
        alloc,
        facts.design(),
        facts.is_wide(),
        v,
        writer,
        writers,
        set,
    )
}

/// What each signal is as a clock. It takes as long as the texts of the processes.
pub(crate) fn clocks<'a>(
    alloc: Global,
    facts: &'a Facts<'a>,
) -> Result<Vec<Option<Clock>>, AllocError>
    ensures { IfOk result (λ all. AreClocks facts.entry.now all.items) }
{
    facts.maps();
    let sites = facts.sites();
    let mut all = Vec::new(alloc);
    for v in 0..facts.design().signals().len() {
        let writers = writers(alloc, sites.of_signal(v))?;
        let clock = clock_by(alloc, &*facts, &writers, v)?;
        all.push(clock)?;
    }
    Ok(all)
}
