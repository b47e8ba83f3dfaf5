//! What is said of the rules on drivers, edges and times that a design breaks: K4 and K6 to K9.
#![tactic(auto)]

mod cycles;
mod delays;
mod edges;
mod loops;
mod pairs;
mod races;
mod waits;

pub use delays::put_delays;
pub use edges::put_edges;
pub use loops::put_loops;
pub use races::put_reads;
pub use vs_explain_writers;
pub use waits::put_waits;
