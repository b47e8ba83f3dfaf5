//! From a syntax tree and the name of a top module to the design that they define: the continuous assignments and processes of its scopes in design
//! order, where no bit of a net is driven twice (IEEE 1364-2005, clauses 6.1 and 12). Laws: a source and a top define one design, and its names are
//! those of the source, printed, each on one line.
#![tactic(auto)]

mod connecting;
mod contents;
mod drivers;
mod filling;
mod frames;
mod laws;
mod marks;
mod printable;
mod processes;
mod source;
mod timescales;

pub use contents::Contents;
pub use laws::{names_are_of_source, names_of_modules_are_tokens, names_of_one_line, one_design};
pub use marks::{mark_ranges, no_marks};
pub use printable::names_are_printable;
pub use source::elaborate;
pub use timescales::{span_exponent, timescale_of};
pub use vs_elab_statements::vs_scopes;
pub use vs_elab_statements::vs_scopes::{ElabFault, Reason, fault_text};
