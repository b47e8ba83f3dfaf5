//! Pieces of a text, and macros: their definitions, and what their uses stand for (IEEE 1364-2005, clauses 3 and 19.3).
#![tactic(auto)]

mod actuals;
mod body;
mod classes;
mod definition;
mod directive;
mod expansion;
mod fault;
mod formals;
mod laws;
mod piece;
mod runs;
mod scan;
mod table;

pub use actuals::read_actuals;
pub use classes::{Class, starts_name};
pub use definition::{Definition, read_definition};
pub use directive::Directive;
pub use expansion::{Expander, Site};
pub use fault::{Fault, Halt, Spot};
pub use formals::Formals;
pub use laws::{front_and_rest, one_cutting};
pub use piece::{Form, Piece, cut, first_and_rest, first_piece};
pub use runs::{skip_past_pair, skip_run};
pub use scan::{name_at, skip_blank, skip_space, split_name, trimmed, wanted_name};
pub use table::Macros;

/// The most bytes of a text: 4 MiB. No expansion has more either.
pub const TEXT_LIMIT: usize = 4194304;
/// How much work a call may take: the bytes of all files, and those that expansions handle.
pub const WORK_LIMIT: usize = 67108864;
/// How deep macros and actuals may nest.
pub const NESTING: usize = 256;
/// The most bytes of a name.
pub const NAME_LIMIT: usize = 1024;
