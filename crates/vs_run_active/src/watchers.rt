//! Who is woken by which bits of a signal.
ghost use Rattle.std.specs.Prelude.{◌≡◌, ◌++◌, IfOk, OnOk, map};
ghost use Rattle.vs_run_active.specs.Watchers.{is_kind, kind_watchers, reader_watcher};

use std::alloc::{AllocError, Global};
use vs_design::vs_logic4::Edge;
use vs_design::{EventTerm, Reader};
use vs_eval::WordMask;

/// Who is woken by which bits of a signal.
#[derive(Clone, Copy)]
pub struct Watcher {
    pub mask: WordMask,
    /// The number of a continuous assignment or of a process.
    pub number: usize,
    /// The number of the event control in the process's text.
    pub control: u32,
}

/// A term of an event control of a process.
#[derive(Clone, Copy)]
pub struct ProcessTerm {
    pub process: usize,
    /// The number of the event control in the process's text.
    pub control: u32,
    pub term: EventTerm,
}

/// Whether a term waits for such an edge.
fn is_kind(term: ProcessTerm, edge: Edge) -> bool
    ensures { result ≡ is_kind edge term }
{
    match (edge, term.term.edge) {
        (Edge::Any, Edge::Any) => true,
        (Edge::Posedge, Edge::Posedge) => true,
        (Edge::Negedge, Edge::Negedge) => true,
        _ => false,
    }
}

/// The watchers of continuous assignments.
pub(crate) fn readers_of(alloc: Global, readers: &[Reader]) -> Result<Vec<Watcher>, AllocError>
    ensures { IfOk result (λ plain. plain.items ≡ map reader_watcher readers.now) }
{
    let mut plain = Vec::new(alloc);
    for reader in readers {
        plain.push(Watcher {
            mask: WordMask::of_range(reader.range),
            number: reader.assign,
            control: 0,
        })?;
    }
    Ok(plain)
}

/// The watchers of those terms that wait for such an edge.
pub(crate) fn add_kind(
    watchers: &mut Vec<Watcher>,
    terms: &[ProcessTerm],
    edge: Edge,
) -> Result<(), AllocError>
    ensures { OnOk result (watchers.new.items ≡ watchers.old.items ++ kind_watchers edge terms.now) }
{
    for term in terms {
        if is_kind(*term, edge) {
            watchers.push(Watcher {
                mask: WordMask::of_term(term.term),
                number: term.process,
                control: term.control,
            })?;
        }
    }
    Ok(())
}
