//! Which processes read a signal.

use std::alloc::{AllocError, Global};
use vs_design::Design;
use vs_drivers::vs_maps::text_reads;

/// Which processes read a signal.
#[derive(Clone, Copy, PartialEq, Eq)]
pub(crate) enum Readers {
    /// None.
    None,
    /// One alone.
    One(usize),
    /// Several.
    Several,
}

// The same with one more.
fn with(readers: Readers, process: usize) -> Readers {
    match readers {
        Readers::None => Readers::One(process),
        Readers::One(other) => {
            if other == process {
                readers
            } else {
                Readers::Several
            }
        }
        Readers::Several => Readers::Several,
    }
}

/// For each signal which processes read it; arguments of calls and terms of controls are no reads.
pub(crate) fn readers_of(alloc: Global, design: &Design) -> Result<Vec<Readers>, AllocError> {
    let mut table = vec![in alloc; Readers::None; design.signals().len()]?;
    let processes = design.processes();
    for i in 0..processes.len() {
        for range in text_reads(alloc, &processes[i].body)? {
            if let Some(readers) = table.get_mut(range.signal) {
                *readers = with(*readers, i);
            }
        }
    }
    Ok(table)
}

/// Whether no process but this one reads a signal, no continuous assignment and no event control.
pub(crate) fn is_private(design: &Design, readers: &[Readers], v: usize, process: usize) -> bool {
    let by_others = match readers.get(v) {
        None => true,
        Some(of) => *of != Readers::None && *of != Readers::One(process),
    };
    !by_others && design.readers(v).is_empty() && design.listeners(v).is_empty()
}
