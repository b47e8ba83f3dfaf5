//! Drivers by numbers: what each needs and writes, the cones of what they drive, nets that copy whole signals, ranges that have bits in common or
//! cover a range, and sets of signals, in which a look-up takes as long as the logarithm of how many there are.
#![tactic(auto)]

mod common;
mod cones;
mod copies;
mod covering;
mod drivers;
mod inverses;
mod lists;
mod names;
mod once;
mod ranges;
mod set;
mod shares;
mod walks;
mod wires;
mod writers;

pub use common::meets;
pub use cones::Cones;
pub use copies::{Copies, is_net};
pub use covering::covers;
pub use drivers::is_variable;
pub use lists::only;
pub use names::push_ranges;
pub use once::distinct;
pub use ranges::BySignal;
pub use set::SignalSet;
pub use shares::{has, has_place, has_word, share};
pub use vs_maps;
pub use vs_process;
pub use vs_rules;
pub use vs_slots_constants;
pub use writers::Written;
