//! What is to be claimed of a design, but for residues.

use crate::copied::edge_plans;
use crate::drivers::{Needs, driver_order, drivers_needed};
use crate::modes::signal_plans;
use crate::starts::kind_plans;
use crate::vs_certificate::{Rules, SignalMode, Start};
use crate::writers::writers_of;
use crate::{Second, TextFacts, text_facts};
use std::alloc::{AllocError, Global};
use vs_design::Design;

/// What is to be claimed of a signal. Processes go by their numbers.
#[derive(Clone, Copy)]
pub struct SignalPlan {
    /// How it is written.
    pub mode: SignalMode,
    /// The process that writes it.
    pub writer: Option<usize>,
    /// The process that writes it at the start alone.
    pub second: Option<Second>,
    /// Whether version 1 has no such claim.
    pub is_new: bool,
}

/// What is to be claimed of a process, but for residues.
#[derive(Clone, Copy, PartialEq, Eq)]
pub enum KindPlan {
    /// A combinational block, and how its first outputs are explained.
    Block(Start),
    /// It waits for edges alone.
    Edge,
    /// It waits for times alone.
    Delay,
    /// It waits for times and for edges. Version 3 alone has it.
    Mixed,
}

/// A signal of an edge term, and the variable that it copies, by their numbers. In version 3 it may show the variable inverted.
#[derive(Clone, Copy)]
pub struct EdgePlan {
    /// The variable.
    pub root: usize,
    /// The signal.
    pub signal: usize,
    /// Whether an odd number of the copies between the two are inverse.
    pub is_inverted: bool,
}

/// What is to be claimed of a design, but for residues.
#[derive(Drop)]
pub struct Plan {
    /// Whether its certificate is of version 1 or 2, or of version 3.
    pub rules: Rules,
    /// Of each signal.
    pub signals: Vec<SignalPlan>,
    /// Of each process.
    pub kinds: Vec<KindPlan>,
    /// The signals of the edge terms, in design order.
    pub edges: Vec<EdgePlan>,
    /// The numbers of drivers, in an order in which they settle: those of continuous assignments come first, then those of processes.
    pub order: Vec<usize>,
    /// What the texts of the processes do.
    pub texts: Vec<TextFacts>,
}

impl Plan {
    /// Whether version 1 has no such claims.
    pub fn is_new(&self) -> bool {
        self.signals.iter().any(|s| s.is_new)
            || self
                .kinds
                .iter()
                .any(|kind| matches!(kind, KindPlan::Block(Start::Starter)))
    }

    /// Whether some process is to be claimed to wait for times and for edges.
    pub(crate) fn has_mixed(&self) -> bool {
        for kind in &self.kinds {
            if matches!(kind, KindPlan::Mixed) {
                return true;
            }
        }
        false
    }
}

// What the texts of the processes do.
fn texts_of(alloc: Global, design: &Design) -> Result<Vec<TextFacts>, AllocError> {
    let mut texts = Vec::new(alloc);
    for i in 0..design.processes().len() {
        texts.push(text_facts(alloc, design, i)?)?;
    }
    Ok(texts)
}

/// What is to be claimed of a design: by narrow rules in version 1 or 2, by wide ones in version 3. It takes as long as its texts are, and for a
/// block whose control names nets the steps of one run.
pub fn plan_of(alloc: Global, design: &Design, rules: Rules) -> Result<Plan, AllocError> {
    let texts = texts_of(alloc, design)?;
    let writers = writers_of(alloc, &texts, design.signals().len())?;
    let signals = signal_plans(alloc, design, rules, &texts, &writers)?;
    let needed = drivers_needed(alloc, design, &texts, Needs::Reads)?;
    let order = driver_order(alloc, design, &texts, &needed)?;
    let kinds = kind_plans(alloc, design, rules, &texts, &signals, &order)?;
    let edges = edge_plans(alloc, design, rules, &order)?;
    Ok(Plan {
        rules,
        signals,
        kinds,
        edges,
        order,
        texts,
    })
}
