//! The run slots behind delay controls.
ghost use Rattle.std.specs.Prelude.{IfOk, map};
ghost use Rattle.vs_maps.specs.vs_rules.specs.Certificates.{residues_from};
ghost use Rattle.vs_maps.specs.vs_rules.specs.Controls.{controls_in, list_of};
ghost use Rattle.vs_claims.specs.vs_maps.specs.declared.along.Along.TheVariants.{Plain};
ghost use Rattle.vs_slots.specs.Runs.{AreRunsBy, DelayEndsBy, DelayPauseEnds};
ghost use Rattle.vs_slots.specs.Kept.{RunsWhere, AreAllRuns};

use crate::controls::{ControlLists, delay_ends};
use crate::runs::Runs;
use std::alloc::{AllocError, Global};
use vs_claims::Facts;
use vs_claims::vs_maps::{Along, Tables, controls, controls_before};
use vs_design::Statement;

// The runs of a process that waits for times, by the version of the certificate, its text, its tables and its lists.
fn runs_by_lists<'a>(
    alloc: Global,
    wide: bool,
    body: &Statement,
    tables: &'a Tables<'a>,
    lists: &[Vec<u64>],
) -> Result<Runs, AllocError>
    ensures { IfOk result (λ x. AreRunsBy (Plain wide) (DelayEndsBy (list_of (controls_in body.now) (map residues_from lists.now)))
        tables.entry.now x.before x.ends) }
{
    let controls = controls(alloc, body)?;
    let lists = ControlLists::new(&controls, lists);
    let ends = delay_ends(alloc, &*tables, &lists)?;
    let before = controls_before(alloc, tables, Along::Plain(wide))?;
    Ok(Runs { before, ends })
}

// The runs of a process behind its delay controls, where it waits for times.
fn runs_of_delays<'a>(alloc: Global, facts: &'a Facts<'a>, i: usize) -> Result<Runs, AllocError>
    ensures { IfOk result (λ x. RunsWhere DelayPauseEnds facts.entry.now i x) }
{
    let processes = facts.design().processes();
    if i >= processes.len() {
        return Ok(Runs::none(alloc));
    }
    let Some(tables) = facts.tables(i) else {
        return Ok(Runs::none(alloc));
    };
    let Some(lists) = facts.lists(i) else {
        return Ok(Runs::none(alloc));
    };
    tables.leads_in();
    runs_by_lists(alloc, facts.is_wide(), &processes[i].body, tables, lists)
}

/// The runs of all processes behind their delay controls, in their order; of those that wait for no times there are none.
pub(crate) fn delay_runs<'a>(alloc: Global, facts: &'a Facts<'a>) -> Result<Vec<Runs>, AllocError>
    ensures { IfOk result (λ runs. AreAllRuns DelayPauseEnds facts.entry.now runs.items) }
{
    let mut runs = Vec::new(alloc);
    for i in 0..facts.design().processes().len() {
        let own = runs_of_delays(alloc, &*facts, i)?;
        runs.push(own)?;
    }
    Ok(runs)
}
