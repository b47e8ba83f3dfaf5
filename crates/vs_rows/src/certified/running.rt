//! Runs of a design.

use std::alloc::Global;
use vs_kernel::Outcome;
use vs_kernel::vs_vcd_writing::Counted;
use vs_program::{Policy, simulate};

/// How many steps a run may take.
const STEPS: u64 = 10_000;

/// A design and its certificate.
#[derive(Clone, Copy)]
pub struct Case<'s, 'w> {
    pub certificate: &'s str,
    pub source: &'s str,
    /// The module that is on top.
    pub top: &'w str,
    /// The moment to which the design runs, in ticks.
    pub until: u32,
}

/// What a run writes.
#[derive(Drop)]
pub struct Written {
    pub dump: Vec<u8>,
    pub lines: Vec<u8>,
}

/// Runs the design of a case to a moment, under a policy; `None` where it comes to no end.
pub fn run(alloc: Global, case: Case, until: u32, policy: &Policy) -> Option<Written> {
    let mut dump = Counted::new(Vec::new(alloc));
    let mut lines = Counted::new(Vec::new(alloc));
    let answered = simulate(
        alloc,
        case.source.as_bytes(),
        case.top.as_bytes(),
        u64::from(until),
        STEPS,
        policy,
        &mut dump,
        &mut lines,
    );
    match answered {
        Ok(Outcome::StepLimit(_)) | Err(_) => None,
        Ok(_) => Some(Written {
            dump: dump.into_inner(),
            lines: lines.into_inner(),
        }),
    }
}
