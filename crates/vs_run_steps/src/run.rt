//! The state of a run.

use crate::Watched;
use crate::called::Called;
use crate::vs_run_active::ProcessTerm;
use std::alloc::Global;
use vs_design::Design;
use vs_process::Change;
use vs_run_regions::vs_time_wheel::EventQueue;
use vs_run_regions::{Due, Regions};

/// What a run holds of the state of an execution (IEEE 1364-2005, clause 11).
#[derive(Drop)]
pub struct RunState<'a, Q: EventQueue<Due>> {
    pub alloc: Global,
    pub design: &'a Design,
    /// The terms of its processes' event controls, from which its tables were made.
    pub terms: Vec<ProcessTerm>,
    /// The store, who watches its signals, the continuous assignments and the processes.
    pub watched: Watched<'a>,
    /// The time of the slot, and what waits in it and after it.
    pub regions: Regions<'a, Q>,
    /// The counters of each process.
    pub counters: Vec<Vec<u64>>,
    /// The calls of `$strobe` in this slot, in the order in which they were made.
    pub calls: Vec<Called<'a>>,
    /// Whether a `$finish` was executed.
    pub finishing: bool,
    pub over: bool,
    /// Room for the words that a write changes.
    pub changes: Vec<Change>,
    /// Room for the numbers of processes that go on.
    pub woken: Vec<usize>,
}
