//! What a certificate claims of a name.

use vs_certificate::{Certificate, ClaimedKind, ProcessEntry, SignalEntry, SignalMode, Start};

/// The entry of a signal.
pub fn entry_of<'c>(certificate: &'c Certificate, path: &[u8]) -> Option<&'c SignalEntry> {
    for entry in &certificate.signals {
        if entry.name.as_bytes() == path {
            return Some(entry);
        }
    }
    None
}

/// The entry of a process.
pub fn process_of<'c>(certificate: &'c Certificate, name: &[u8]) -> Option<&'c ProcessEntry> {
    for entry in &certificate.processes {
        if entry.name.as_bytes() == name {
            return Some(entry);
        }
    }
    None
}

/// The root that is claimed for a signal of an edge term; the signal itself where there is none.
pub fn root_of<'c>(certificate: &'c Certificate, path: &'c [u8]) -> &'c [u8] {
    for entry in &certificate.edges {
        if entry.signal.as_bytes() == path {
            return entry.root.as_bytes();
        }
    }
    path
}

/// The word of a mode.
pub fn mode_word(mode: SignalMode) -> &'static str {
    match mode {
        SignalMode::Net => "net",
        SignalMode::Unwritten => "unwritten",
        SignalMode::Combinational => "comb",
        SignalMode::Nonblocking => "nonblocking",
        SignalMode::Blocking => "blocking",
        SignalMode::Private => "private",
        SignalMode::Both => "both",
    }
}

/// The word of a kind.
pub fn kind_word(kind: &ClaimedKind) -> &'static str {
    match kind {
        ClaimedKind::Combinational(_) => "comb",
        ClaimedKind::Edge => "edge",
        ClaimedKind::Delay(_) => "delay",
        ClaimedKind::Mixed(_) => "mixed",
    }
}

/// The word of a start.
pub fn start_word(kind: &ClaimedKind) -> &'static str {
    match kind {
        ClaimedKind::Combinational(Start::Cold) => "cold",
        ClaimedKind::Combinational(Start::Sources) => "sources",
        ClaimedKind::Combinational(Start::Starter) => "starter",
        _ => "none",
    }
}

/// A count, and one more where an entry has the name.
fn counted(count: usize, entry: &str, name: &[u8]) -> usize {
    count.saturating_add(usize::from(entry.as_bytes() == name))
}

/// How often a name stands in `signals`, `processes`, `order` and `edges`.
pub fn times_named(certificate: &Certificate, name: &[u8]) -> [usize; 4] {
    let mut signals = 0;
    for entry in &certificate.signals {
        signals = counted(signals, &entry.name, name);
    }
    let mut processes = 0;
    for entry in &certificate.processes {
        processes = counted(processes, &entry.name, name);
    }
    let mut order = 0;
    for entry in &certificate.order {
        order = counted(order, entry, name);
    }
    let mut edges = 0;
    for entry in &certificate.edges {
        edges = counted(edges, &entry.signal, name);
    }
    [signals, processes, order, edges]
}
