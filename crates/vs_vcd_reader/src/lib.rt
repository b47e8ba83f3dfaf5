//! Value change dumps of the layout in `docs/vcd.md`, read back, and laws: what is written of a trace reads back to its values, a text has one fault
//! (IEEE 1364-2005, clause 18), and the dump of each run of a source reads back to the values at the ends of its slots.
#![tactic(auto)]

mod dump;
mod fault;
mod first;
mod header;
mod kinds;
mod later;
mod laws;
mod outline_laws;
mod parts;
mod ranges;
mod reading;
mod run_laws;
mod source_laws;
mod text;
mod ticks;
mod times;
mod written_laws;

pub use dump::{Dump, Moment};
pub use fault::VcdFault;
pub use laws::{dumps_are_one, faults_are_of_none};
pub use outline_laws::{names_are_printed, outlines_are_in_order, outlines_of_texts_are_in_order};
pub use reading::read;
pub use run_laws::{complete_runs_end_slots, run_dumps_are_read};
pub use source_laws::{dumps_of_runs_are_read, outline_is_in_order};
pub use vs_elaborate;
pub use vs_kernel;
pub use vs_simulate;
pub use vs_vcd_lines;
pub use vs_vcd_lines::{Declaration, ValueChange, Variable};
pub use vs_vcd_writing;
pub use written_laws::{dumps_give_values, faults_are_one, written_dumps_are_read};
