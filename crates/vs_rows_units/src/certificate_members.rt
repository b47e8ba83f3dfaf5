//! The members of the certificate of two registers that swap at each rise of a clock of period 10.

use vs_certificate::{
    Certificate, ClaimedGrain, ClaimedKind, EdgeSignal, ProcessEntry, SignalEntry, SignalMode,
    Version,
};

/// Whether processes are those of the swap.
fn are_processes(processes: &[ProcessEntry]) -> bool {
    if processes.len() != 6 || !matches!(processes[4].kind, ClaimedKind::Edge) {
        return false;
    }
    match &processes[3].kind {
        ClaimedKind::Delay(slots) => {
            slots.len() == 1 && slots[0].as_slice() == [0, 5].as_slice()
        }
        _ => false,
    }
}

/// Whether edges are those of the swap.
fn are_edges(edges: &[EdgeSignal]) -> bool {
    edges.len() == 1 && edges[0].root.as_str() == "t.clk"
}

/// Whether signals are those of the swap.
fn are_signals(signals: &[SignalEntry]) -> bool {
    signals.len() == 3
        && signals[0].mode == SignalMode::Blocking
        && signals[0].second.as_str() == "t#p0"
}

/// Whether a certificate has the members of the swap's.
pub(crate) fn is_of_the_swap(certificate: &Certificate) -> bool {
    certificate.version == Version::One
        && certificate.grain == ClaimedGrain::Block
        && certificate.modulus == 10
        && certificate.order.is_empty()
        && are_edges(&certificate.edges)
        && are_processes(&certificate.processes)
        && are_signals(&certificate.signals)
}
