//! The entries of a certificate for the signals of edge terms, and which sites wait for edges.
ghost use Rattle.std.specs.Prelude.{ℕ, ◌≡◌, ◌<◌, ◌↔◌, length, IfOk, IsTrue};
ghost use Rattle.std.specs.List.{Contains, list_any};
ghost use Rattle.vs_rules.specs.Claims.{IsRootOf};
ghost use Rattle.vs_rules.specs.Rules.{IsEdgeSignal};
ghost use Rattle.vs_drivers.specs.vs_maps.specs.declared.sites.Site.{Site};
ghost use Rattle.vs_cert_roots.specs.First.{WakesSignal, WakesSite};
ghost use Rattle.vs_cert_roots.specs.Entries.{HasEntries, is_from_x, is_proper};
ghost use Rattle.vs_drivers.specs.vs_maps.specs.Sites.{waits_by};

use std::alloc::{AllocError, Global};
use std::marker::Model;
use vs_design::vs_logic4::{Digit, Edge};
use vs_drivers::only;
use vs_drivers::vs_maps::{Site, Use};
use vs_rules_of_signals::Writes;
use vs_rules_of_signals::vs_claims::Facts;

// Whether a use waits for an edge.
fn is_edge_use(usage: Use) -> bool
    ensures { result ≡ waits_by is_proper usage }
{
    match usage {
        Use::Waits(edge) => edge != Edge::Any,
        Use::Now | Use::Later | Use::Reads | Use::Shows => false,
    }
}

// Whether it waits for an edge that a change from x to a digit is.
fn is_woken(usage: Use, digit: Digit) -> bool
    ensures { result ≡ waits_by (is_from_x digit) usage }
{
    match usage {
        Use::Waits(Edge::Posedge) => digit == Digit::One,
        Use::Waits(Edge::Negedge) => digit == Digit::Zero,
        Use::Waits(Edge::Any) | Use::Now | Use::Later | Use::Reads | Use::Shows => false,
    }
}

// Whether one of some sites waits for an edge.
fn any_waits(sites: &[Site]) -> bool
    ensures { result ≡ list_any (λ s. waits_by is_proper s.usage) sites.now }
{
    sites.iter().any(|site| is_edge_use(site.usage))
}

// Whether a site waits for an edge that a change from x to a digit is, in version 3 in the first slot, and in no process that is left out.
fn wakes(facts: &Facts, site: Site, digit: Digit, except: Option<usize>) -> bool
    ensures { IsTrue result ↔ WakesSite facts.now digit except site }
{
    if !is_woken(site.usage, digit) {
        return false;
    }
    if !facts.is_wide() {
        return true;
    }
    if except == Some(site.process) {
        return false;
    }
    facts.is_slot0(true, site.process, site.place)
}

// Whether none of some sites does.
fn none_wakes(facts: &Facts, sites: &[Site], digit: Digit, except: Option<usize>) -> bool
    ensures { IsTrue result ↔ ((s : Site) → Contains sites.now s → WakesSite facts.now digit except s → ⊥) }
{
    for site in sites {
        if wakes(facts, *site, digit, except) {
            return false;
        }
    }
    true
}

/// The entries of a certificate for the signals of edge terms, and where their writers write signals. A contract sees the design, what the
/// certificate claims of it, and the maps of the texts of the processes.
#[derive(Drop)]
pub struct Entries<'a> {
    writes: Writes<'a>,
}

impl<'a> Model for Entries<'a> {
    ghost use Rattle.std.specs.Coded.{codes};
    ghost use Rattle.vs_design.specs.contracts.expression.Typed as expression;
    ghost use Rattle.vs_design.specs.contracts.statement.Statement as statement;
    ghost use Rattle.vs_rules_of_signals.specs.vs_claims.specs.Facts.{Case};

    ghost Value = { Case };

    ghost coded = { Prim.hlevel (codes, statement.the_row.coded, expression.the_row.coded) };

    ghost view = { λ e. e.writes };
}

impl<'a> Entries<'a> {
    /// The entries of a certificate. It takes as long as the texts of the processes.
    pub fn of(alloc: Global, facts: &'a Facts<'a>) -> Result<Entries<'a>, AllocError>
        ensures { IfOk result (λ e. e ≡ facts.entry.now) }
    {
        let writes = Writes::of(alloc, facts)?;
        Ok(Entries { writes })
    }

    /// The facts of which they are.
    pub fn facts(&self) -> &'a Facts<'a>
        ensures { result.now ≡ self.now }
    {
        self.writes.facts()
    }

    // Where their writers write signals.
    pub(crate) fn writes(&self) -> &Writes<'a>
        ensures { result.now ≡ self.now }
    {
        &self.writes
    }

    // Whether an edge term names a signal. It takes as long as there are sites of the signal.
    fn is_edge_signal(&self, v: usize) -> bool
        requires { v < length self.now.design.signals }
        ensures { IsTrue result ↔ IsEdgeSignal self.now.design v }
    {
        let facts = self.facts();
        facts.maps();
        any_waits(facts.sites().of_signal(v))
    }

    /// Whether a change of a signal from x to a digit wakes no edge term of it, in version 3 none of an event control of the first slot, and of no
    /// process that is left out. It takes as long as there are sites of the signal.
    pub(crate) fn is_calm(&self, v: usize, digit: Digit, except: Option<usize>) -> bool
        requires { v < length self.now.design.signals }
        ensures { IsTrue result ↔ (WakesSignal self.now.design self.now.claims except v digit → ⊥) }
    {
        let facts = self.facts();
        facts.maps();
        none_wakes(facts, facts.sites().of_signal(v), digit, except)
    }

    /// The variables that a signal is claimed to copy.
    pub fn roots(&self, alloc: Global, v: usize) -> Result<Vec<usize>, AllocError>
        ensures { IfOk result (λ roots. (r : ℕ) → (Contains roots.items r ↔ IsRootOf self.now.design self.now.claims r v)) }
    {
        self.facts().roots(alloc, v)
    }

    /// Whether a signal has one entry where an edge term names it, else none.
    pub fn has_right_entries(&self, v: usize) -> bool
        ensures { IsTrue result ↔ HasEntries self.now.design self.now.claims v }
    {
        let facts = self.facts();
        let signals = facts.design().signals();
        if v >= signals.len() {
            return true;
        }
        let places = facts.entries_of(v);
        if self.is_edge_signal(v) {
            only(places).is_some()
        } else {
            places.is_empty()
        }
    }
}
