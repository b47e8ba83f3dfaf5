//! Dumps that are read and written again: each is the same, byte for byte.
mod writing;

use crate::read_back::writing::put_dump;
use std::alloc::Global;
use vs_row_files::{Answers, Text};
use vs_vcd_reader::{VcdFault, read};

/// Who reads a dump and writes it again.
#[derive(Clone, Copy)]
pub struct Again;

/// What is written of a dump that was read.
fn written_again(alloc: Global, text: &[u8]) -> Result<Text, VcdFault> {
    let dump = read(alloc, text)?;
    let mut written = Text::new(alloc);
    put_dump(&dump, &mut written);
    Ok(written)
}

/// The number of a fault.
fn number_of(fault: VcdFault) -> &'static str {
    match fault {
        VcdFault::Memory => "memory",
        VcdFault::Header => "V1",
        VcdFault::Line => "V2",
        VcdFault::Code => "V3",
        VcdFault::Time => "V4",
        VcdFault::Cut => "V5",
    }
}

/// Puts whether a dump that was written again is the same; where it isn't, what was written.
fn put_compared(dump: &[u8], written: &Text, text: &mut Text) {
    match written.whole() {
        Ok(bytes) if bytes == dump => text.put(b"the same\n"),
        Ok(bytes) => text.put(bytes),
        Err(_) => text.leave_out(),
    }
}

impl Answers for Again {
    fn answer(&self, _words: &str, question: &str, text: &mut Text) {
        let mut dump = Text::new(text.alloc());
        dump.put_all(&[question, "\n"]);
        let Ok(bytes) = dump.whole() else {
            return text.leave_out();
        };
        match written_again(text.alloc(), bytes) {
            Ok(written) => put_compared(bytes, &written, text),
            Err(fault) => text.put_all(&[number_of(fault), "\n"]),
        }
    }
}
