//! The two events whose order makes the difference of two runs, told in words: both runs are made again, the events of the slot in which they differ are
//! logged, and the logs are walked back from the signal that differs (IEEE 1364-2005, clauses 11.3 and 11.4.2).
//!
//! Nothing of what is told stands in a contract. Where no pair is found nothing is told.
#![tactic(auto)]

mod course;
mod entry;
mod log;
mod noting;
mod order;
mod reads;
mod tracks;
mod walk;
mod words;

pub use vs_race_orders::Span;
pub use words::{Asked, put_pair};
