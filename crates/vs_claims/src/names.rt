//! The names of a design and of a certificate, each list in its order.
ghost use Rattle.std.specs.Prelude.{◌≡◌, IfOk};
ghost use Rattle.vs_claims.specs.facts_passes.Kept.{edge_roots, edge_signals, AreDesignNames, AreClaimedNames, AreEdgeNames, AreNames};

use crate::Index;
use crate::named::names_of;
use crate::places::{ClaimPlaces, EdgePlaces, claim_places, edge_places};
use std::alloc::{AllocError, Global};
use vs_certificate::{Certificate, EdgeSignal};
use vs_design::Design;

/// The names of a design, each list in design order.
#[derive(Drop)]
pub(crate) struct DesignNames<'a> {
    /// The paths of signals.
    pub(crate) signals: Index<'a>,
    /// The names of processes.
    pub(crate) processes: Index<'a>,
    /// The names of continuous assignments.
    pub(crate) assigns: Index<'a>,
}

/// The names of a certificate's order, and of its entries of signals and processes, each list in its order.
#[derive(Drop)]
pub(crate) struct ClaimedNames<'a> {
    /// The names of the order.
    pub(crate) order: Index<'a>,
    /// Those of the entries of signals.
    pub(crate) signals: Index<'a>,
    /// Those of the entries of processes.
    pub(crate) processes: Index<'a>,
}

/// The names of a certificate's entries of edge terms, in their order.
#[derive(Drop)]
pub(crate) struct EdgeNames<'a> {
    /// The roots.
    pub(crate) roots: Index<'a>,
    /// The signals.
    pub(crate) signals: Index<'a>,
}

/// The names of a design and of its certificate, and where they stand in one another's lists.
#[derive(Drop)]
pub(crate) struct Names<'a> {
    /// Those of the design.
    pub(crate) design: DesignNames<'a>,
    /// Those of the certificate's order and entries.
    pub(crate) claims: ClaimedNames<'a>,
    /// Those of its entries of edge terms.
    pub(crate) edges: EdgeNames<'a>,
    /// Where those of the design stand in the order and the entries.
    pub(crate) places: ClaimPlaces,
    /// Where those of the entries of edge terms stand among the signals.
    pub(crate) edge_places: EdgePlaces,
}

// The names of the roots of edge signals.
fn edge_roots<'a>(alloc: Global, edges: &'a [EdgeSignal]) -> Result<Index<'a>, AllocError>
    ensures { IfOk result (λ names. names ≡ edge_roots edges.entry.now) }
{
    let mut names = Vec::new(alloc);
    for e in edges {
        names.push(e.root.as_bytes())?;
    }
    Index::of(alloc, names)
}

// The names of edge signals.
fn edge_signals<'a>(alloc: Global, edges: &'a [EdgeSignal]) -> Result<Index<'a>, AllocError>
    ensures { IfOk result (λ names. names ≡ edge_signals edges.entry.now) }
{
    let mut names = Vec::new(alloc);
    for e in edges {
        names.push(e.signal.as_bytes())?;
    }
    Index::of(alloc, names)
}

// The names of a design.
fn design_names<'a>(alloc: Global, design: &'a Design) -> Result<DesignNames<'a>, AllocError>
    ensures { IfOk result (λ n. AreDesignNames design.entry.now n) }
{
    let signals = names_of(alloc, design.signals())?;
    let processes = names_of(alloc, design.processes())?;
    let assigns = names_of(alloc, design.assigns())?;
    Ok(DesignNames {
        signals,
        processes,
        assigns,
    })
}

// The names of a certificate's order and entries.
fn claimed_names<'a>(
    alloc: Global,
    certificate: &'a Certificate,
) -> Result<ClaimedNames<'a>, AllocError>
    ensures { IfOk result (λ n. AreClaimedNames certificate.entry.now n) }
{
    let order = names_of(alloc, &certificate.order)?;
    let signals = names_of(alloc, &certificate.signals)?;
    let processes = names_of(alloc, &certificate.processes)?;
    Ok(ClaimedNames {
        order,
        signals,
        processes,
    })
}

// The names of a certificate's entries of edge terms.
fn edge_names<'a>(alloc: Global, edges: &'a [EdgeSignal]) -> Result<EdgeNames<'a>, AllocError>
    ensures { IfOk result (λ n. AreEdgeNames edges.entry.now n) }
{
    let roots = edge_roots(alloc, edges)?;
    let signals = edge_signals(alloc, edges)?;
    Ok(EdgeNames { roots, signals })
}

impl<'a> Names<'a> {
    /// The names of a design and of its certificate, and their places.
    pub(crate) fn of(
        alloc: Global,
        design: &'a Design,
        certificate: &'a Certificate,
    ) -> Result<Names<'a>, AllocError>
        ensures { IfOk result (λ n. AreNames design.entry.now certificate.entry.now n) }
    {
        let of_design = design_names(alloc, design)?;
        let claims = claimed_names(alloc, certificate)?;
        let edges = edge_names(alloc, &certificate.edges)?;
        let places = claim_places(alloc, &of_design, &claims, &certificate.signals)?;
        let edge_places = edge_places(alloc, &edges, &of_design.signals)?;
        Ok(Names {
            design: of_design,
            claims,
            edges,
            places,
            edge_places,
        })
    }
}
