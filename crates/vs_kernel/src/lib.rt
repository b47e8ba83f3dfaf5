//! The run of a design from its start to its end: the scripts of its processes, the state in which every run begins, its events, and its next moves,
//! in the order of its queue or as a policy chooses (IEEE 1364-2005, clause 11).
#![tactic(auto)]

mod choosing;
mod kernel;
mod kernel_run;
mod laws;
mod moves;
mod moves_start;
mod outcome;
mod run;
mod scripts;
mod slot;
mod start;
mod state;

pub use crate::vs_run_regions::Event;
pub use kernel::{Kernel, Status};
pub use laws::dumps_show_slot_ends;
pub use moves::{leave, run_event};
pub use outcome::{Outcome, RunFault};
pub use run::Run;
pub use scripts::{codes_of, scripts_of};
pub use start::running_of;
pub use state::{Region, first_event, is_active, is_going, is_inside, lost_event, next_region};
pub use vs_run_active;
pub use vs_run_regions;
pub use vs_run_regions::{Fifo, Lifo, Listed, Pick};
pub use vs_run_steps;
pub use vs_vcd_writing;
