//! Where names of a design and of a certificate stand in one another's lists.
ghost use Rattle.std.specs.Prelude.{ℕ, ◌≡◌, Some, None, IfOk, map, slice_get, slice_index_or};
ghost use Rattle.vs_claims.specs.vs_rules.specs.Certificates.{name_unless_empty};
ghost use Rattle.vs_claims.specs.vs_rules.specs.Claims.{Name, place_of};
ghost use Rattle.vs_claims.specs.Places.{place_for, place_in};
ghost use Rattle.vs_claims.specs.facts_passes.Kept.{both_at, writers_of, AreClaimPlaces, AreEdgePlaces, AreEnds};

use crate::Index;
use crate::names::{ClaimedNames, DesignNames, EdgeNames};
use std::alloc::{AllocError, Global};
use vs_certificate::SignalEntry;
use vs_maps::vs_graph::{Family, Rows, index_of};

/// Where the names of a design stand in the lists of a certificate.
#[derive(Drop)]
pub(crate) struct ClaimPlaces {
    /// The entry of each signal.
    pub(crate) signals: Vec<Option<usize>>,
    /// The writer and the second of each entry of a signal.
    pub(crate) writers: Vec<(Option<usize>, Option<usize>)>,
    /// The entry of each process.
    pub(crate) processes: Vec<Option<usize>>,
    /// The place of each continuous assignment in the order; of one that isn't there, how many there are.
    pub(crate) assigns: Vec<usize>,
    /// The place of each process.
    pub(crate) blocks: Vec<usize>,
}

/// The roots and the signals of the entries of edge terms, by the numbers of signals.
#[derive(Drop)]
pub(crate) struct Ends {
    /// The root of each entry.
    pub(crate) roots: Vec<Option<usize>>,
    /// The signal of each.
    pub(crate) signals: Vec<Option<usize>>,
}

/// The same, and the entries of each signal.
#[derive(Drop)]
pub(crate) struct EdgePlaces {
    /// The roots and the signals.
    pub(crate) ends: Ends,
    /// For each signal the entries with it as their root, where their own signals are there.
    pub(crate) by_root: Rows<usize>,
    /// For each signal its entries.
    pub(crate) by_signal: Rows<usize>,
}

/// The place of a number, where it has one.
pub(crate) fn place_at(places: &[Option<usize>], i: usize) -> Option<usize>
    ensures { result ≡ slice_index_or places.now i None }
{
    if i < places.len() { places[i] } else { None }
}

/// The number at a place of a list, where it is that long.
pub(crate) fn number_at(numbers: &[usize], i: usize) -> Option<usize>
    ensures { result ≡ slice_get numbers.now i }
{
    if i < numbers.len() {
        Some(numbers[i])
    } else {
        None
    }
}

// The first places of some names in a list.
fn places_of(alloc: Global, names: &Index, list: &Index) -> Result<Vec<Option<usize>>, AllocError>
    ensures { IfOk result (λ places. places.items ≡ map (place_in list.now) names.now) }
{
    let mut places = Vec::new(alloc);
    for name in names.names() {
        places.push(list.find(name))?;
    }
    Ok(places)
}

// The process of a name; the empty text names none.
fn named(processes: &Index, name: &str) -> Option<usize>
    ensures { result ≡ place_for processes.now (name_unless_empty name.now) }
{
    if name.is_empty() {
        return None;
    }
    processes.find(name.as_bytes())
}

// The processes that entries of signals name, each as writer and as second.
fn writers(
    alloc: Global,
    entries: &[SignalEntry],
    processes: &Index,
) -> Result<Vec<(Option<usize>, Option<usize>)>, AllocError>
    ensures { IfOk result (λ all. all.items ≡ map (writers_of processes.now) entries.now) }
{
    let mut all = Vec::new(alloc);
    for e in entries {
        let writer = named(processes, e.writer.as_str());
        let second = named(processes, e.second.as_str());
        all.push((writer, second))?;
    }
    Ok(all)
}

// The first place of a name in the order; of one that isn't there, how many there are.
fn ordered(order: &Index, name: &[u8]) -> usize
    ensures { result ≡ place_of name.now order.now }
{
    match order.find(name) {
        None => order.len(),
        Some(place) => place,
    }
}

// The same of some names.
fn all_ordered(alloc: Global, names: &Index, order: &Index) -> Result<Vec<usize>, AllocError>
    ensures { IfOk result (λ places. places.items ≡ map (λ (n : Name). place_of n order.now) names.now) }
{
    let mut places = Vec::new(alloc);
    for name in names.names() {
        places.push(ordered(order, name))?;
    }
    Ok(places)
}

impl Ends {
    /// The signal of an entry.
    pub(crate) fn signal(&self, place: usize) -> Option<usize>
        ensures { result ≡ slice_index_or self.now.signals.items place None }
    {
        place_at(&self.signals, place)
    }

    /// The root and the signal of an entry.
    pub(crate) fn both(&self, place: usize) -> Option<(usize, usize)>
        ensures { result ≡ both_at self.now place }
    {
        let Some(root) = place_at(&self.roots, place) else {
            return None;
        };
        let Some(v) = self.signal(place) else {
            return None;
        };
        Some((root, v))
    }
}

// The entries by their roots.
#[derive(Drop)]
struct ByRoot<'b> {
    ends: &'b Ends,
}

impl<'b> Family for ByRoot<'b> {
    ghost has = { λ f i r. (v : ℕ) × (both_at f.ends.now i ≡ Some (r, v)) };

    fn put(&self, _alloc: Global, i: usize, out: &mut Vec<usize>) -> Result<(), AllocError> {
        match self.ends.both(i) {
            None => Ok(()),
            Some((root, _)) => Ok(out.push(root)?),
        }
    }
}

// The entries by their signals.
#[derive(Drop)]
struct BySignal<'b> {
    ends: &'b Ends,
}

impl<'b> Family for BySignal<'b> {
    ghost has = { λ f i v. slice_index_or f.ends.now.signals.items i None ≡ Some v };

    fn put(&self, _alloc: Global, i: usize, out: &mut Vec<usize>) -> Result<(), AllocError> {
        match self.ends.signal(i) {
            None => Ok(()),
            Some(v) => Ok(out.push(v)?),
        }
    }
}

/// Where the names of a design stand in the lists of a certificate.
pub(crate) fn claim_places(
    alloc: Global,
    design: &DesignNames,
    claims: &ClaimedNames,
    entries: &[SignalEntry],
) -> Result<ClaimPlaces, AllocError>
    ensures { IfOk result (λ p. AreClaimPlaces design.now claims.now entries.now p) }
{
    let signals = places_of(alloc, &design.signals, &claims.signals)?;
    let writers = writers(alloc, entries, &design.processes)?;
    let processes = places_of(alloc, &design.processes, &claims.processes)?;
    let assigns = all_ordered(alloc, &design.assigns, &claims.order)?;
    let blocks = all_ordered(alloc, &design.processes, &claims.order)?;
    Ok(ClaimPlaces {
        signals,
        writers,
        processes,
        assigns,
        blocks,
    })
}

// The roots and the signals of the entries of edge terms, by the names of signals.
fn ends_of(alloc: Global, edges: &EdgeNames, list: &Index) -> Result<Ends, AllocError>
    ensures { IfOk result (λ e. AreEnds list.now edges.now e) }
{
    let roots = places_of(alloc, &edges.roots, list)?;
    let signals = places_of(alloc, &edges.signals, list)?;
    Ok(Ends { roots, signals })
}

/// The same, and the entries of each signal.
pub(crate) fn edge_places(
    alloc: Global,
    edges: &EdgeNames,
    list: &Index,
) -> Result<EdgePlaces, AllocError>
    ensures { IfOk result (λ p. AreEdgePlaces list.now edges.now p) }
{
    let ends = ends_of(alloc, edges, list)?;
    let entries = edges.signals.len();
    let signals = list.len();
    let by_root = index_of(alloc, &ByRoot { ends: &ends }, entries, signals)?;
    let by_signal = index_of(alloc, &BySignal { ends: &ends }, entries, signals)?;
    Ok(EdgePlaces {
        ends,
        by_root,
        by_signal,
    })
}
