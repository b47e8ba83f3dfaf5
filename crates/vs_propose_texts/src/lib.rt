//! What the text of a process does, and when, as a proposer of certificates looks at it: nothing is promised of it, since each certificate is tested
//! once it is made.
#![tactic(auto)]

mod arrivals;
mod clocks;
mod facts;
mod firing;
mod kinds;
mod lists;
mod periods;
mod writing;

pub use clocks::{Second, clock_by};
pub use facts::{TextFacts, text_facts, text_firing, text_lists};
pub use firing::{Firing, Firings, Root, Shown};
pub use kinds::TextKind;
pub use periods::{Timing, common_divisor};
pub use vs_certificate;
pub use vs_drivers;
pub use writing::SignalWrite;
