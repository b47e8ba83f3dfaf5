//! What `$display` and `$strobe` print (IEEE 1364-2005, clause 17.1): formats, and the lines that they make.
#![tactic(auto)]

mod argument;
mod decimals;
mod digits;
mod fault;
mod format;
mod lines;
mod piece;

pub use fault::{FormatFault, FormatReason};
pub use format::Format;
pub use lines::{full_line, line};
pub use vs_eval;
