//! The scopes of a source in design order, each entered with the values of its parameters and listed with what its names are bound to, its signals
//! and its outline; and what holds of their paths (IEEE 1364-2005, clause 12).
#![tactic(auto)]

mod adding;
mod entering;
mod laws;
mod opening;
mod own;
mod source;

pub use adding::{add, list_scope};
pub use entering::{NamedModule, enter, plain_title};
pub use laws::{
    paths_differ, printed_parts_differ, printed_paths_differ, scopes_are_nested,
    scopes_are_numbered, turns_differ, turns_fit,
};
pub use source::open_all;
pub use vs_elab_signals;
pub use vs_scopes;
