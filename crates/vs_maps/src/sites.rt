//! The table of sites: what the points of the texts of a design do with which ranges.
ghost use Rattle.std.specs.Prelude.{ℕ, ◌≡◌, ◌<◌, ◌↔◌, ◌⊎◌, ◌++◌, Some, true, length, map, IfOk, OnOk, IsTrue};
ghost use Rattle.std.specs.List.{Contains, list_any};
ghost use Rattle.vs_maps.specs.Reaches.{IsPlace};
ghost use Rattle.vs_maps.specs.declared.sites.Site.{Site};
ghost use Rattle.vs_maps.specs.declared.sites.Use.TheVariants.{Now};
ghost use Rattle.vs_maps.specs.Sites.{IsSite, IsWrite, UsesAt, all_filed, site_of, waiting_of, waits_by};
ghost use Rattle.vs_maps.specs.Texts.{AreLate, texts_of};

use crate::tables::Tables;
use crate::walks::{late, pause_terms};
use std::alloc::{AllocError, Global};
use std::marker::Model;
use vs_design::vs_logic4::Edge;
use vs_design::{BitRange, Design, EventTerm};
use vs_graph::Rows;

/// What a point does with a range.
#[derive(Clone, Copy, PartialEq, Eq)]
pub enum Use {
    /// It writes it by `=`.
    Now,
    /// It writes it by `<=`.
    Later,
    /// It reads it; indices of targets are read too, and arguments of calls aren't.
    Reads,
    /// It shows it by `$display` (IEEE 1364-2005, clause 17.1).
    Shows,
    /// It waits for such a change of it (clause 9.7.2).
    Waits(Edge),
}

/// A point of the text of a process, and a range that it uses.
#[derive(Clone, Copy)]
pub struct Site {
    /// The process's number.
    pub process: usize,
    /// The place of the point on the map of the text.
    pub place: usize,
    /// What it does with the range.
    pub usage: Use,
    /// The range.
    pub range: BitRange,
}

/// A rule about places of maps.
pub trait SiteRule {
    ghost keeps: { Self → ℕ → ℕ → Type 0 };

    /// Whether a place of a process's map keeps it.
    fn test(&self, process: usize, place: usize) -> bool
        ensures { IsTrue result ↔ keeps self.now process place };
}

/// The process is one of two that may be there.
#[derive(Drop)]
pub struct OneOf {
    /// The one.
    pub one: Option<usize>,
    /// The other.
    pub other: Option<usize>,
}

impl SiteRule for OneOf {
    ghost keeps = { λ f i p. (f.one ≡ Some i) ⊎ (f.other ≡ Some i) };

    fn test(&self, process: usize, _place: usize) -> bool {
        if self.one == Some(process) {
            return true;
        }
        self.other == Some(process)
    }
}

// Puts the sites of a place that uses some ranges alike.
fn push_ranges(
    sites: &mut Vec<Site>,
    process: usize,
    place: usize,
    usage: Use,
    ranges: &[BitRange],
) -> Result<(), AllocError>
    ensures { OnOk result (sites.new.items ≡ sites.old.items ++ map (site_of process place usage) ranges.now) }
{
    for range in ranges {
        sites.push(Site {
            process,
            place,
            usage,
            range: *range,
        })?;
    }
    Ok(())
}

// Puts those of a place that waits for one of some terms.
fn push_terms(
    sites: &mut Vec<Site>,
    process: usize,
    place: usize,
    terms: &[EventTerm],
) -> Result<(), AllocError>
    ensures { OnOk result (sites.new.items ≡ sites.old.items ++ map (waiting_of process place) terms.now) }
{
    for term in terms {
        sites.push(Site {
            process,
            place,
            usage: Use::Waits(term.edge),
            range: term.range,
        })?;
    }
    Ok(())
}

// Puts the sites of a place.
fn push_place<'a>(
    alloc: Global,
    sites: &mut Vec<Site>,
    tables: &'a Tables<'a>,
    process: usize,
    place: usize,
) -> Result<(), AllocError>
    ensures { OnOk result ((s : Site) → (Contains sites.new.items s ↔ (Contains sites.old.items s
        ⊎ ((s.process ≡ process) × (s.place ≡ place) × UsesAt tables.entry.now place s.usage s.range)))) }
{
    let now = tables.now_at(alloc, place)?;
    let later = tables.later_at(alloc, place)?;
    let reads = tables.reads_at(alloc, place)?;
    let shows = tables.shows_at(alloc, place)?;
    push_ranges(sites, process, place, Use::Now, &now)?;
    push_ranges(sites, process, place, Use::Later, &later)?;
    push_ranges(sites, process, place, Use::Reads, &reads)?;
    push_ranges(sites, process, place, Use::Shows, &shows)?;
    push_terms(sites, process, place, pause_terms(tables.pause(place)))?;
    Ok(())
}

// The sites of a text.
fn sites_of<'a>(
    alloc: Global,
    tables: &'a Tables<'a>,
    process: usize,
) -> Result<Vec<Site>, AllocError>
    ensures { IfOk result (λ all. (s : Site) → (Contains all.items s ↔
        ((s.process ≡ process) × IsPlace tables.entry.now s.place × UsesAt tables.entry.now s.place s.usage s.range))) }
{
    tables.leads_in();
    let mut all = Vec::new(alloc);
    for place in 0..tables.places() {
        if tables.is_point(place) {
            push_place(alloc, &mut all, &*tables, process, place)?;
        }
    }
    Ok(all)
}

// Puts sites to the rows of their signals; those of signals past the end have none.
fn file(rows: &mut Rows<Site>, sites: &[Site]) -> Result<(), AllocError>
    ensures { OnOk result (rows.new ≡ all_filed sites.now rows.old) }
{
    for site in sites {
        rows.put(site.range.signal, *site)?;
    }
    Ok(())
}

/// The sites of a design, by their signals. A contract sees the design and the maps of its texts.
#[derive(Drop)]
pub struct Sites<'a> {
    design: &'a Design,
    tables: &'a [Tables<'a>],
    of_signals: Rows<Site>,
}

impl<'a> Model for Sites<'a> {
    ghost use Rattle.std.specs.Coded.{codes};
    ghost use Rattle.vs_design.specs.contracts.expression.Typed as expression;
    ghost use Rattle.vs_design.specs.contracts.statement.Statement as statement;
    ghost use Rattle.vs_maps.specs.Sites.{AreSites};
    ghost use Rattle.vs_maps.specs.Texts.{Texts, texts_of};

    ghost Value = { Texts };

    ghost coded = { Prim.hlevel (codes, statement.the_row.coded, expression.the_row.coded) };

    ghost view = { λ s. texts_of s.design.now s.tables.now };

    ghost invariant = { λ s. AreSites (texts_of s.design.now s.tables.now) s.of_signals };
}

impl<'a> Sites<'a> {
    /// The sites of a design, by the tables of its processes in their order. It takes as long as its texts are.
    pub fn new(
        alloc: Global,
        design: &'a Design,
        tables: &'a [Tables<'a>],
    ) -> Result<Sites<'a>, AllocError>
        ensures { IfOk result (λ s. s ≡ texts_of design.entry.now tables.entry.now) }
    {
        let mut of_signals = Rows::empty(alloc, design.signals().len())?;
        for i in 0..tables.len() {
            let own = sites_of(alloc, &tables[i], i)?;
            file(&mut of_signals, &own)?;
        }
        Ok(Sites {
            design,
            tables,
            of_signals,
        })
    }

    /// The design.
    pub fn design(&self) -> &'a Design
        ensures { result.now ≡ self.now.design }
    {
        self.design
    }

    /// The tables of the processes.
    pub fn tables(&self) -> &'a [Tables<'a>]
        ensures { result.now ≡ self.now.charts }
    {
        self.tables
    }

    /// The sites of a signal, in the order of processes and of places.
    pub fn of_signal(&self, v: usize) -> &[Site]
        requires { v < length self.now.design.signals }
        ensures { (s : Site) → (Contains result.now s ↔ (IsSite self.now.charts s × (s.range.signal ≡ v))) }
    {
        self.of_signals.row(v)
    }
}

/// Whether a use is a write by `=`.
pub fn is_now(usage: Use) -> bool
    ensures { IsTrue result ↔ usage ≡ Now }
{
    usage == Use::Now
}

/// Whether one of some sites is a write by `=`.
pub fn any_now(sites: &[Site]) -> bool
    ensures { IsTrue result ↔ ((s : Site) × Contains sites.now s × (s.usage ≡ Now)) }
{
    for site in sites {
        if site.usage == Use::Now {
            return true;
        }
    }
    false
}

// Whether a use waits.
fn is_wait(usage: Use) -> bool
    ensures { result ≡ waits_by (λ edge. true) usage }
{
    match usage {
        Use::Waits(_) => true,
        Use::Now | Use::Later | Use::Reads | Use::Shows => false,
    }
}

/// Whether one of some sites waits.
pub fn any_waits(sites: &[Site]) -> bool
    ensures { result ≡ list_any (λ s. waits_by (λ edge. true) s.usage) sites.now }
{
    sites.iter().any(|site| is_wait(site.usage))
}

/// Whether a use is a write, by `=` or by `<=`.
pub fn is_write(usage: Use) -> bool
    ensures { IsTrue result ↔ IsWrite usage }
{
    match usage {
        Use::Now | Use::Later => true,
        Use::Reads | Use::Shows | Use::Waits(_) => false,
    }
}

/// Whether a site is a write of a process.
pub fn is_write_of(site: Site, process: usize) -> bool
    ensures { IsTrue result ↔ (site.process ≡ process) × IsWrite site.usage }
{
    if site.process == process {
        is_write(site.usage)
    } else {
        false
    }
}

/// Whether one of some sites is a write of a process.
pub fn any_write_of(sites: &[Site], process: usize) -> bool
    ensures { IsTrue result ↔ ((s : Site) × Contains sites.now s × (s.process ≡ process) × IsWrite s.usage) }
{
    for site in sites {
        if is_write_of(*site, process) {
            return true;
        }
    }
    false
}

/// The processes of those of some sites that are writes, in their order.
pub fn writers(alloc: Global, sites: &[Site]) -> Result<Vec<usize>, AllocError>
    ensures { IfOk result (λ all. (i : ℕ) → (Contains all.items i ↔
        ((s : Site) × Contains sites.now s × (s.process ≡ i) × IsWrite s.usage))) }
{
    let mut all = Vec::new(alloc);
    for site in sites {
        if is_write(site.usage) {
            all.push(site.process)?;
        }
    }
    Ok(all)
}

/// The places of those of some sites that are writes of a process, in their order.
pub fn places_written(
    alloc: Global,
    sites: &[Site],
    process: usize,
) -> Result<Vec<usize>, AllocError>
    ensures { IfOk result (λ all. (p : ℕ) → (Contains all.items p ↔
        ((s : Site) × Contains sites.now s × (s.process ≡ process) × (s.place ≡ p) × IsWrite s.usage))) }
{
    let mut all = Vec::new(alloc);
    for site in sites {
        if is_write_of(*site, process) {
            all.push(site.place)?;
        }
    }
    Ok(all)
}

// Whether a site keeps a rule, where it is of this use.
fn keeps<R: SiteRule>(site: Site, usage: Use, rule: &R) -> bool
    ensures { IsTrue result ↔ (site.usage ≡ usage → R.keeps rule.now site.process site.place) }
{
    if site.usage == usage {
        rule.test(site.process, site.place)
    } else {
        true
    }
}

/// Whether the points of those of some sites that are of a use keep a rule.
pub(crate) fn all_keep<R: SiteRule>(sites: &[Site], usage: Use, rule: &R) -> bool
    ensures { IsTrue result ↔ ((s : Site) → Contains sites.now s → s.usage ≡ usage → R.keeps rule.now s.process s.place) }
{
    for site in sites {
        if !keeps(*site, usage, rule) {
            return false;
        }
    }
    true
}

/// For each map the places to which a path leads once a control has been passed.
pub(crate) fn late_marks<'a>(
    alloc: Global,
    tables: &'a [Tables<'a>],
) -> Result<Vec<Vec<bool>>, AllocError>
    ensures { IfOk result (λ table. AreLate tables.entry.now table.items (length tables.entry.now)) }
{
    let mut table = Vec::new(alloc);
    for i in 0..tables.len() {
        let marks = late(alloc, &tables[i])?;
        table.push(marks)?;
    }
    Ok(table)
}
