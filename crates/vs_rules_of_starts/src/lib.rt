//! The rule K11 of certificates, on the starts of combinational blocks: the store in which executions begin, with the continuous assignments
//! settled, and blocks that are run alone on it.
#![tactic(auto)]

mod alone;
mod apart;
mod begins;
mod cold;
mod missing;
mod order;
mod outputs;
mod settled;
mod started;
mod starter;
mod starts;

pub use apart::Starts;
pub use cold::{Beginning, MAX_COLD_STEPS, returns_to_control};
pub use order::in_order;
pub use settled::{make_all, settled_start};
pub use starts::keeps_start_by;
pub use vs_rules;
pub use vs_rules::vs_process;
