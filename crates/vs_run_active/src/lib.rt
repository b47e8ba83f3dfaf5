//! What is active in a run and what wakes it: processes at their places in their scripts, continuous assignments, the watchers of each signal in
//! tables that are made once, the marks of signals that moves change, and the queue of what is next (IEEE 1364-2005, clauses 6.1, 9.7.2 and 11.3).
#![tactic(auto)]

mod assign;
mod assigns;
mod counts;
mod events;
mod groups;
mod laws;
mod lists;
mod marks;
mod process;
mod processes;
mod queue;
mod rows;
mod tables;
mod terms;
mod watchers;
mod words;

pub use assign::AssignState;
pub use assigns::Assigns;
pub use counts::recount;
pub use events::Events;
pub use groups::{Group, Groups};
pub use laws::steps_are_taken;
pub use marks::{clear, no_marks};
pub use process::{Process, Wait, gait_after, pause, wakes_are_determined};
pub use processes::Processes;
pub use queue::Queue;
pub use rows::Row;
pub use tables::Tables;
pub use terms::{terms_are_found, terms_of};
pub use vs_eval;
pub use vs_process;
pub use watchers::{ProcessTerm, Watcher};
pub use words::FEW;
