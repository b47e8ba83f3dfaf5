//! Run slots, write slots and firing slots: residues of times above 0.
#![tactic(auto)]

mod clocks;
mod controls;
mod delay_runs;
mod edge_runs;
mod firing;
mod laws;
mod listing;
mod phases;
mod roots;
mod runs;
mod seen;
mod settings;
mod slots;

pub use controls::{ControlLists, pause_ends};
pub use laws::{delay_runs_are_exact, firing_is_exact, runs_are_exact};
pub use listing::{Listing, table_of, union_of};
pub use slots::Slots;
pub use vs_claims;
pub use vs_graph::are_apart;
