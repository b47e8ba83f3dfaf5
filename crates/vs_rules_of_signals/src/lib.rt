//! The rules of certificates on who writes a signal, K2 and K3, and on the order of drivers, K4; and ranks of places, by which many are told never
//! to be hot without a walk.
#![tactic(auto)]

mod before;
mod modes;
mod order;
mod points;
mod ranks;
mod rule;
mod writers;
mod writes;

pub use modes::keeps_mode;
pub use rule::{keeps_assign_order, keeps_process_order};
pub use vs_claims;
pub use vs_claims::vs_maps;
pub use vs_graph;
pub use writers::keeps_writers;
pub use writes::Writes;
