//! The search for a race, from source bytes.
ghost use Rattle.std.specs.Prelude.{◌≡◌, ◌<◌, ◌^◌, IfOk, IfErr, IfSome, true};
ghost use Rattle.vs_design.specs.OneLine.{HasNamesOfOneLine};
ghost use Rattle.vs_vcd_reader.specs.Conditions.{IsOutlined};
ghost use Rattle.vs_sign_off.specs.vs_simulate.specs.Honesty.{SimulationFails, is_refusal};
ghost use Rattle.vs_sign_off.specs.Races.{IsAnswer, IsAnswerBy};
ghost use Rattle.vs_sign_off.specs.passes.Sightings.{IsSighting};

use crate::answer::{Missed, Race};
use crate::displays::prints_at_once;
use crate::laws::same_traces_print_rows_as_often;
use crate::lines::line_witness_of;
use crate::shown::witness_of;
use crate::vs_simulate::{SimFault, design_of, names_of_one_line};
use crate::witness::{LineWitness, Witness};
use std::alloc::{AllocError, Global};
use vs_design::Design;
use vs_independence::rules_make_independent;
use vs_propose::vs_certificate::{ClaimedGrain, Rules};
use vs_propose::{Proposal, propose_by};
use vs_race_orders::{Difference, Search, Sought, Watch, find};
use vs_vcd_reader::outline_is_in_order;
use vs_vcd_reader::vs_vcd_writing::shows_one_value;

/// What the orders of a search show.
#[derive(Drop)]
enum Sighting {
    /// A witness of a race.
    Shown(Witness),
    /// A witness of a race in what `$strobe` prints.
    ShownLine(LineWitness),
    /// Nothing.
    Missed(Missed),
}

// What the two orders of a difference show, where they show something.
fn sighting_of(
    alloc: Global,
    design: &Design,
    difference: Difference,
    steps: u64,
) -> Result<Option<Sighting>, AllocError>
    requires outlined { IsOutlined design.now }
    requires names { HasNamesOfOneLine design.now }
    requires time { difference.time < 2 ^ 62 }
    requires steps { steps < 2 ^ 62 }
    ensures { IfOk result (λ o. IfSome o (λ s. IsSighting design.now s)) }
{
    if !difference.lines {
        let shown = witness_of(alloc, design, difference, steps)?;
        if let Some(witness) = shown {
            return Ok(Some(Sighting::Shown(witness)));
        }
        return Ok(None);
    }
    if prints_at_once(design) {
        return Ok(None);
    }
    let shown = line_witness_of(alloc, design, difference, steps)?;
    if let Some(witness) = shown {
        return Ok(Some(Sighting::ShownLine(witness)));
    }
    Ok(None)
}

// What the orders of a search show first.
fn seek<W: Watch>(
    alloc: Global,
    design: &Design,
    asked: &Search,
    watch: &mut W,
) -> Result<Sighting, AllocError>
    requires outlined { IsOutlined design.now }
    requires names { HasNamesOfOneLine design.now }
    requires until { asked.now.until < 2 ^ 62 }
    requires steps { asked.now.steps < 2 ^ 62 }
    ensures { IfOk result (IsSighting design.now) }
{
    let mut lines = !prints_at_once(design);
    let mut missed = Missed { tries: 0, stuck: 0 };
    for _ in 0..asked.tries {
        let Sought {
            difference,
            tries,
            stuck,
        } = find(alloc, design, asked, missed.tries, lines, watch)?;
        missed.tries = tries;
        missed.stuck = missed.stuck.saturating_add(stuck);
        let Some(difference) = difference else {
            return Ok(Sighting::Missed(missed));
        };
        if difference.time <= asked.until {
            let by_lines = difference.lines;
            let seen = sighting_of(alloc, design, difference, asked.steps)?;
            if let Some(sighting) = seen {
                return Ok(sighting);
            }
            lines = lines && !by_lines;
        }
    }
    Ok(Sighting::Missed(missed))
}

/// Looks for a race of the design that a source and the name of a top module define: two permitted executions to some moment up to `until` that differ
/// by the order of events alone (IEEE 1364-2005, clause 11.4.2).
///
/// Where `propose` makes a certificate of grain block, there is none at that grain, and nothing is run. Else the design is run in the first order, and
/// then in the orders of the search. Where the value change dump of one isn't that of the first order, both are run again to that moment, and their
/// dumps are read. A race is answered with a signal that they show with different values then: so the design depends on the order of its steps at both
/// grains. Where the dumps are the same, the design has no `$display`, and its lines aren't the same, whatever their order, a race is answered with a
/// row that they have a different number of times. Where none was found nothing is said: another order may differ. The same arguments give the same
/// answer, whoever watches.
pub fn race<'s, W: Watch>(
    alloc: Global,
    source: &'s [u8],
    top: &[u8],
    asked: &Search,
    watch: &mut W,
) -> Result<Race, SimFault<'s>>
    requires until { asked.now.until < 2 ^ 62 }
    requires steps { asked.now.steps < 2 ^ 62 }
    ensures answered { IfOk result (λ r. IsAnswer source.entry.now top.now r) }
    ensures fault { IfErr result (λ fault. SimulationFails source.entry.now top.now fault) }
    ensures early { IfErr result (λ fault. is_refusal fault ≡ true) }
{
    race_by(alloc, Rules::Narrow, source, top, asked, watch)
}

/// The same, with a certificate of a version that is read by these rules, where `propose_by` makes one.
pub fn race_by<'s, W: Watch>(
    alloc: Global,
    rules: Rules,
    source: &'s [u8],
    top: &[u8],
    asked: &Search,
    watch: &mut W,
) -> Result<Race, SimFault<'s>>
    requires until { asked.now.until < 2 ^ 62 }
    requires steps { asked.now.steps < 2 ^ 62 }
    ensures answered { IfOk result (λ r. IsAnswerBy rules source.entry.now top.now r) }
    ensures fault { IfErr result (λ fault. SimulationFails source.entry.now top.now fault) }
    ensures early { IfErr result (λ fault. is_refusal fault ≡ true) }
{
    names_of_one_line();
    shows_one_value();
    same_traces_print_rows_as_often();
    rules_make_independent();
    let design = design_of(alloc, source, top)?;
    outline_is_in_order(&design);
    design.is_well_formed();
    let proposal = propose_by(alloc, &design, rules, ClaimedGrain::Block)?;
    match proposal {
        Proposal::Made(certificate) => Ok(Race::Certified(certificate)),
        refused => {
            let sighting = seek(alloc, &design, asked, watch)?;
            watch.ended();
            match sighting {
                Sighting::Shown(witness) => Ok(Race::Found(witness, refused)),
                Sighting::ShownLine(witness) => Ok(Race::FoundLine(witness, refused)),
                Sighting::Missed(missed) => Ok(Race::NotFound(missed, refused)),
            }
        }
    }
}
