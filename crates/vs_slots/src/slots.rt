//! The run slots, write slots and firing slots of a design and a certificate.
ghost use Rattle.std.specs.Prelude.{ℕ, ◌≡◌, ◌<◌, ◌↔◌, Some, length, slice_get, IfOk};
ghost use Rattle.std.specs.List.{Contains};
ghost use Rattle.vs_maps.specs.vs_rules.specs.Claims.{is_wide};
ghost use Rattle.vs_maps.specs.vs_rules.specs.Slots.{HasWriteSlot};
ghost use Rattle.vs_slots_constants.specs.Inverted.{AreInverted};
ghost use Rattle.vs_slots.specs.Kept.{AreBothRuns, AreWriteSlots, IsKeptRun, IsSiteWrite, IsWriteBy, IsWriteIn};
ghost use Rattle.vs_maps.specs.declared.sites.Site.{Site};
ghost use Rattle.vs_slots.specs.Places.{DelayRunsOf, RunsOf};
ghost use Rattle.vs_slots.specs.Terms.{TermsFire};

use crate::delay_runs::delay_runs;
use crate::edge_runs::edge_runs;
use crate::listing::{Listing, table_of, union_of};
use crate::roots::Firing;
use crate::runs::{Runs, put_runs, runs_at};
use std::alloc::{AllocError, Global};
use std::marker::Model;
use vs_claims::Facts;
use vs_design::EventTerm;
use vs_graph::{Gathered, Rows};
use vs_maps::{Site, is_now};

// The run slots of a place of a process, behind delay controls and behind event controls.
fn run_slots(
    alloc: Global,
    delays: &[Runs],
    edges: &[Runs],
    i: usize,
    place: usize,
) -> Result<Vec<u64>, AllocError>
    ensures { IfOk result (λ all. (r : ℕ) → (Contains all.items r ↔ IsKeptRun delays.now edges.now i place r)) }
{
    let mut all = Gathered::none(alloc);
    put_runs(&mut all, delays, i, place)?;
    put_runs(&mut all, edges, i, place)?;
    Ok(all.list())
}

// The sites of a variable, of which some may be writes of its writer.
#[derive(Drop)]
struct PlaceWrites<'a> {
    delays: &'a [Runs],
    edges: &'a [Runs],
    writer: usize,
    sites: &'a [Site],
}

impl<'a> PlaceWrites<'a> {
    // The residues at which the variable is written at a site.
    fn at(&self, alloc: Global, site: Site) -> Result<Vec<u64>, AllocError>
        ensures { IfOk result (λ list. (r : ℕ) → (Contains list.items r ↔ IsSiteWrite self.now.delays.now self.now.edges.now
            self.now.writer site r)) }
    {
        if site.process != self.writer {
            return Ok(Vec::new(alloc));
        }
        if !is_now(site.usage) {
            return Ok(Vec::new(alloc));
        }
        run_slots(alloc, self.delays, self.edges, self.writer, site.place)
    }
}

impl<'a> Listing for PlaceWrites<'a> {
    ghost has = { λ f i r. (s : Site) × (slice_get f.sites.now i ≡ Some s)
        × IsSiteWrite f.delays.now f.edges.now f.writer s r };

    fn list(&self, alloc: Global, i: usize) -> Result<Vec<u64>, AllocError> {
        if i >= self.sites.len() {
            return Ok(Vec::new(alloc));
        }
        self.at(alloc, self.sites[i])
    }
}

// The variables of a design.
#[derive(Drop)]
struct Variables<'a> {
    facts: &'a Facts<'a>,
    delays: &'a [Runs],
    edges: &'a [Runs],
}

impl<'a> Variables<'a> {
    // The residues at which a process writes a variable.
    fn written_by(
        &self,
        alloc: Global,
        variable: usize,
        writer: usize,
    ) -> Result<Vec<u64>, AllocError>
        requires { variable < length self.now.facts.now.design.signals }
        ensures { IfOk result (λ all. (r : ℕ) → (Contains all.items r ↔
            IsWriteBy self.now.facts.now self.now.delays.now self.now.edges.now variable writer r)) }
    {
        match self.facts.tables(writer) {
            None => Ok(Vec::new(alloc)),
            Some(tables) => {
                tables.leads_in();
                let places = PlaceWrites {
                    delays: self.delays,
                    edges: self.edges,
                    writer,
                    sites: self.facts.sites().of_signal(variable),
                };
                union_of(alloc, &places, places.sites.len())
            }
        }
    }
}

impl<'a> Listing for Variables<'a> {
    ghost has = { λ f u r. IsWriteIn f.facts.now f.delays.now f.edges.now u r };

    fn list(&self, alloc: Global, i: usize) -> Result<Vec<u64>, AllocError> {
        match self.facts.writer(i) {
            None => Ok(Vec::new(alloc)),
            Some(writer) => self.written_by(alloc, i, writer),
        }
    }
}

// The write slots of all variables.
fn write_slots<'a>(
    alloc: Global,
    facts: &'a Facts<'a>,
    delays: &'a [Runs],
    edges: &'a [Runs],
) -> Result<Rows<u64>, AllocError>
    requires { AreBothRuns facts.now delays.now edges.now }
    ensures { IfOk result (λ table. AreWriteSlots facts.entry.now table) }
{
    facts.maps();
    let variables = Variables {
        facts,
        delays,
        edges,
    };
    let table = table_of(alloc, &variables, facts.design().signals().len())?;
    Ok(table)
}

/// The run slots, write slots and firing slots of a design and a certificate. A contract sees the facts of which they are.
#[derive(Drop)]
pub struct Slots<'a> {
    facts: &'a Facts<'a>,
    firing: Firing<'a>,
    delays: Vec<Runs>,
    edges: Vec<Runs>,
    writes: Rows<u64>,
}

impl<'a> Model for Slots<'a> {
    ghost use Rattle.std.specs.Coded.{codes};
    ghost use Rattle.vs_design.specs.contracts.expression.Typed as expression;
    ghost use Rattle.vs_design.specs.contracts.statement.Statement as statement;
    ghost use Rattle.vs_claims.specs.Facts.{Case};
    ghost use Rattle.vs_slots.specs.Kept.{AreSlots};

    ghost Value = { Case };

    ghost coded = { Prim.hlevel (codes, statement.the_row.coded, expression.the_row.coded) };

    ghost view = { λ x. x.facts.now };

    ghost invariant = { λ x. AreSlots x.facts.now x.firing x.delays.items x.edges.items x.writes };
}

impl<'a> Slots<'a> {
    /// The slots of a design and a certificate, by which signals show a variable inverted. It takes as long as the texts of the processes, and for
    /// each place of one that waits for edges or for times as long as the lists of the controls before it.
    pub fn new(
        alloc: Global,
        facts: &'a Facts<'a>,
        inverted: &'a [bool],
    ) -> Result<Slots<'a>, AllocError>
        requires { AreInverted facts.now.design (is_wide facts.now.claims) inverted.now }
        ensures { IfOk result (λ x. x ≡ facts.entry.now) }
    {
        facts.maps();
        let delays = delay_runs(alloc, &*facts)?;
        let firing = Firing::of(alloc, &*facts, inverted, &delays)?;
        let edges = edge_runs(alloc, &*facts, &firing)?;
        let writes = write_slots(alloc, &*facts, &delays, &edges)?;
        Ok(Slots {
            facts,
            firing,
            delays,
            edges,
            writes,
        })
    }

    /// The facts.
    pub fn facts(&self) -> &'a Facts<'a>
        ensures { result.now ≡ self.now }
    {
        self.facts
    }

    /// The run slots of a place of a process, each once. It takes as long as the lists of the controls before the place.
    pub fn run_slots(&self, alloc: Global, i: usize, place: usize) -> Result<Vec<u64>, AllocError>
        ensures { IfOk result (λ all. RunsOf self.now i place all.items) }
    {
        run_slots(alloc, &self.delays, &self.edges, i, place)
    }

    /// Those of them that the place has by delay controls.
    pub fn delay_slots(&self, alloc: Global, i: usize, place: usize) -> Result<Vec<u64>, AllocError>
        ensures { IfOk result (λ all. DelayRunsOf self.now i place all.items) }
    {
        runs_at(alloc, &self.delays, i, place)
    }

    /// The write slots of a variable, each once.
    pub fn write_slots(&self, u: usize) -> &[u64]
        ensures { (r : ℕ) → (Contains result.now r ↔ HasWriteSlot self.now.design self.now.claims u r) }
    {
        self.writes.row(u)
    }

    /// The residues at which one of some terms can fire, each once.
    pub fn firing_slots(&self, alloc: Global, terms: &[EventTerm]) -> Result<Vec<u64>, AllocError>
        ensures { IfOk result (λ all. (r : ℕ) → (Contains all.items r ↔ TermsFire self.now.design self.now.claims terms.now r)) }
    {
        self.firing.of_terms(alloc, self.facts, terms)
    }
}
