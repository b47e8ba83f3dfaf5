//! Assignments of constants, whole signals, and clocks.
#![tactic(auto)]

mod clocks;
mod constants;
mod laws;
mod wholes;

pub use clocks::{
    Clock, clock_of, known, other, set_by, sets, sets_and_turns, turns, turns_forever,
};
pub use constants::{Bit, given, given_by};
pub use laws::gives_by_places;
pub use wholes::{inverse, inverts, is_plain, whole, whole_target};
