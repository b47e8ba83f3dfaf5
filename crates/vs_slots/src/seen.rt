//! The edges that roots have where event terms' edges come.
ghost use Rattle.std.specs.Prelude.{◌≡◌};
ghost use Rattle.vs_maps.specs.vs_rules.specs.Copies.{opposite};
ghost use Rattle.vs_slots.specs.Seen.{seen_by};

use vs_design::EventTerm;
use vs_design::vs_logic4::Edge;
use vs_graph::is_marked;

// The edge of a signal where its inverse has an edge.
fn opposite(edge: Edge) -> Edge
    ensures { result ≡ opposite edge }
{
    match edge {
        Edge::Any => Edge::Any,
        Edge::Posedge => Edge::Negedge,
        Edge::Negedge => Edge::Posedge,
    }
}

/// The edge that the root of a term's signal has where the term's edge comes, by which signals show a variable inverted.
pub(crate) fn seen_edge(inverted: &[bool], term: EventTerm) -> Edge
    ensures { result ≡ seen_by inverted.now term }
{
    if is_marked(inverted, term.range.signal) {
        opposite(term.edge)
    } else {
        term.edge
    }
}
