//! Trial runs of combinational blocks on the store in which executions begin.

use std::alloc::{AllocError, Global};
use vs_cert_check::vs_rules_of_starts::{MAX_COLD_STEPS, make_all, returns_to_control};
use vs_design::{BitRange, Design, Part, Store};
use vs_process::compile;

/// The store in which executions of a design begin, and that store with the continuous assignments settled.
#[derive(Drop)]
pub struct Trial<'a> {
    design: &'a Design,
    start: Store<'a>,
    settled: Store<'a>,
}

impl<'a> Trial<'a> {
    /// The beginning of a design's executions, by an order of its continuous assignments.
    pub fn new(
        alloc: Global,
        design: &'a Design,
        order: &[usize],
    ) -> Result<Trial<'a>, AllocError> {
        let start = Store::start(alloc, design)?;
        let mut settled = start.copy(alloc)?;
        make_all(alloc, design.assigns(), order, &mut settled)?;
        Ok(Trial {
            design,
            start,
            settled,
        })
    }

    // Whether a signal is as at the start; puts it back there, where it isn't.
    fn put_back(&mut self, signal: usize) -> bool {
        let design = self.design;
        let Some(declared) = design.signals().get(signal) else {
            return true;
        };
        let mut same = true;
        for word in 0..declared.count as usize {
            if let Some(digits) = self.start.word(signal, word) {
                if self.settled.word(signal, word) != Some(digits) {
                    same = false;
                    let _ = self.settled.put_part(Part {
                        signal,
                        word,
                        low: 0,
                        digits,
                    });
                }
            }
        }
        same
    }

    /// Whether a combinational block that writes these ranges, run on the settled store from after its control, arrives there again, with what it writes as
    /// at the start. The store is as before then. It takes as long as the block runs, and as the signals that it writes have words.
    pub fn stays_cold(
        &mut self,
        alloc: Global,
        i: usize,
        written: &[BitRange],
    ) -> Result<bool, AllocError> {
        let design = self.design;
        let Some(process) = design.processes().get(i) else {
            return Ok(false);
        };
        let code = compile(alloc, &process.body)?;
        let mut stays = returns_to_control(alloc, &code, &mut self.settled, MAX_COLD_STEPS)?;
        for range in written {
            if !self.put_back(range.signal) {
                stays = false;
            }
        }
        Ok(stays)
    }
}
