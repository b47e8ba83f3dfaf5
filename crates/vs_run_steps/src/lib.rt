//! The state of a run, the steps of its processes, one by one and one after another, with their writes and what these wake, the lines that they
//! print, and what is recorded of the dump (IEEE 1364-2005, clauses 9 and 11); and the evaluations and updates of continuous assignments
//! (clause 6.1).
#![tactic(auto)]

mod assigns;
mod called;
mod dropped;
mod evaluation;
mod forms;
mod groups;
mod marks;
mod process;
mod recorder;
mod run;
mod silent;
mod step;
mod steps_writes;
mod wave;
mod writes;

pub use assigns::{evaluate, is_pending, may_follow, needs, propagate};
pub use called::Called;
pub use dropped::Dropped;
pub use forms::Forms;
pub use groups::{is_group_active, run_group};
pub use recorder::Recorder;
pub use run::RunState;
pub use vs_run_active;
pub use writes::Watched;
