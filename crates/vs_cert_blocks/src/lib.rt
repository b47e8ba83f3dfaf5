//! The rule K5, on combinational blocks.
#![tactic(auto)]

mod bits;
mod blocks;
mod corners;
mod early;
mod rule;
mod starts;
mod walks;

pub use blocks::keeps_process;
pub use rule::{blocks_by_places, keeps_block};
pub use vs_process;
