//! One simulation: from the bytes of a source to the text of a value change dump, and to the lines that its steps make.
#![tactic(auto)]

mod fault;
mod laws;
mod listing;
mod simulation;

pub use fault::SimFault;
pub use laws::names_of_one_line;
pub use listing::list_design;
pub use simulation::{Policy, design_of, run_design, simulate};
pub use vs_elaborate;
pub use vs_kernel;
