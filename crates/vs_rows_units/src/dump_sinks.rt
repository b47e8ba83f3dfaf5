//! Sinks that fail, and sinks that take little.
use crate::dump_slots::{DUMP, slots_of_a_dump, write_dump};
use std::alloc::Global;
use std::io;
use std::io::{ErrorKind, Write};
use std::process::Abort;
use vs_vcd_writing::{Counted, Sink, WriterFault, write_all};

// A writer that takes at most three bytes at a time, and fails once it holds `room` bytes.
#[derive(Drop)]
struct Narrow {
    got: Vec<u8>,
    room: usize,
    full: Option<ErrorKind>,
}

impl Write for Narrow {
    fn write(&mut self, piece: &[u8]) -> io::Result<usize> {
        let left = self.room.saturating_sub(self.got.len());
        if left == 0 {
            return match self.full {
                Some(kind) => Err(io::Error::from(kind)),
                None => Ok(0),
            };
        }
        let most = piece.len().min(3).min(left);
        self.got.extend_from_slice(&piece[..most])?;
        Ok(most)
    }

    fn flush(&mut self) -> io::Result<()> {
        Ok(())
    }
}

// How often a sink fails that nothing is written to, and then a dump; `None` where it fails at nothing, or without memory.
fn failures(alloc: Global, sink: &mut Counted<Narrow>) -> Option<u64> {
    if write_all(sink, b"") != Ok(()) {
        return None;
    }
    match write_dump(alloc, sink, false, &slots_of_a_dump(), 10) {
        Ok(()) => Some(0),
        Err(WriterFault::Write) => Some(1),
        Err(WriterFault::Memory) => None,
    }
}

// A sink with room for so many bytes of the 171 fails once, and holds as many; one that takes little and has room for all gets all.
fn holds(rt: &impl Abort, alloc: Global, room: usize, full: Option<ErrorKind>) {
    let got = Vec::new(alloc);
    let mut sink = Counted::new(Narrow { got, room, full });
    let wanted = u64::from(room < 171);
    let told = failures(alloc, &mut sink) == Some(wanted) && sink.failures() == wanted;
    let got = sink.into_inner().got;
    assert!(rt;
        told && got.len() == room && DUMP.starts_with(&got),
        "at {room}"
    );
}

#[test]
fn narrow_sinks_hold_a_beginning(rt: HostRuntime) {
    let alloc = rt.alloc();
    for room in [0, 1, 20, 21, 124, 125, 126, 153, 170, 171] {
        for full in [None, Some(ErrorKind::Other)] {
            holds(&rt, alloc, room, full);
        }
    }
}
