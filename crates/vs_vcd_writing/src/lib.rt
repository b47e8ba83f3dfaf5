//! Value change dumps (IEEE 1364-2005, clause 18): the text of a trace, its writer, and the sinks that take it.
#![tactic(auto)]

mod changes;
mod codes;
mod fault;
mod header;
mod kept;
mod law;
mod lines;
mod marks;
mod planes;
mod room;
mod sink;
mod texts;
mod value;
mod writer;

pub use fault::WriterFault;
pub use law::{shows_one_value, shows_values_at_slot_ends};
pub use marks::BLOCK;
pub use sink::{Counted, Sink, WriteFault, write_all};
pub use writer::Writer;
