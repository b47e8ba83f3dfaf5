//! Certificates of plans.
ghost use Rattle.std.specs.Prelude.{◌≡◌, IfOk, IfSome};

use crate::firing::firings_of;
use crate::plans::{EdgePlan, KindPlan, Plan, SignalPlan};
use crate::vs_certificate::{
    Certificate, ClaimedGrain, ClaimedKind, EdgeSignal, ProcessEntry, Rules, SignalEntry, Version,
};
use crate::{Firings, Second, text_lists, text_of};
use std::alloc::{AllocError, Global};
use vs_design::{Design, Process, Signal};

// What the lists of processes hang on besides their texts.
#[derive(Drop)]
struct Residues {
    rules: Rules,
    modulus: u64,
    firings: Firings,
}

// The path of a signal.
fn signal_name(alloc: Global, design: &Design, v: usize) -> Result<String, AllocError> {
    match design.signals().get(v) {
        None => Ok(String::new(alloc)),
        Some(signal) => text_of(alloc, &signal.path),
    }
}

// The name of a process that may be there.
fn process_name(alloc: Global, design: &Design, i: Option<usize>) -> Result<String, AllocError> {
    let Some(i) = i else {
        return Ok(String::new(alloc));
    };
    match design.processes().get(i) {
        None => Ok(String::new(alloc)),
        Some(process) => text_of(alloc, &process.name),
    }
}

// The name of a driver: those of continuous assignments come first.
fn driver_name(alloc: Global, design: &Design, driver: usize) -> Result<String, AllocError> {
    let assigns = design.assigns();
    if driver < assigns.len() {
        text_of(alloc, &assigns[driver].name)
    } else {
        process_name(alloc, design, Some(driver - assigns.len()))
    }
}

// The entries of edge terms.
fn edge_entries(
    alloc: Global,
    design: &Design,
    edges: &[EdgePlan],
) -> Result<Vec<EdgeSignal>, AllocError> {
    let mut entries = Vec::new(alloc);
    for edge in edges {
        entries.push(EdgeSignal {
            root: signal_name(alloc, design, edge.root)?,
            signal: signal_name(alloc, design, edge.signal)?,
        })?;
    }
    Ok(entries)
}

// The names of an order.
fn ordered(alloc: Global, design: &Design, order: &[usize]) -> Result<Vec<String>, AllocError> {
    let mut names = Vec::new(alloc);
    for driver in order {
        names.push(driver_name(alloc, design, *driver)?)?;
    }
    Ok(names)
}

// The number of a second that may be there.
fn process_of(second: Option<Second>) -> Option<usize> {
    match second {
        None => None,
        Some(second) => Some(second.process),
    }
}

// The entry of a signal.
fn signal_entry(
    alloc: Global,
    design: &Design,
    signal: &Signal,
    plan: SignalPlan,
) -> Result<SignalEntry, AllocError> {
    Ok(SignalEntry {
        mode: plan.mode,
        name: text_of(alloc, &signal.path)?,
        second: process_name(alloc, design, process_of(plan.second))?,
        writer: process_name(alloc, design, plan.writer)?,
    })
}

// The entries of the signals.
fn signal_entries(
    alloc: Global,
    design: &Design,
    plans: &[SignalPlan],
) -> Result<Vec<SignalEntry>, AllocError> {
    let signals = design.signals();
    let mut entries = Vec::new(alloc);
    for v in 0..signals.len() {
        if v < plans.len() {
            entries.push(signal_entry(alloc, design, &signals[v], plans[v])?)?;
        }
    }
    Ok(entries)
}

// The lists of a process; none where one has too many residues.
fn claimed_lists(
    alloc: Global,
    design: &Design,
    i: usize,
    residues: &Residues,
) -> Result<Option<Vec<Vec<u64>>>, AllocError> {
    if i >= design.processes().len() {
        return Ok(None);
    }
    text_lists(
        alloc,
        design,
        i,
        residues.rules,
        residues.modulus,
        &residues.firings,
    )
}

// The kind of a process; none where a list has too many residues.
fn claimed_kind(
    alloc: Global,
    design: &Design,
    i: usize,
    plan: KindPlan,
    residues: &Residues,
) -> Result<Option<ClaimedKind>, AllocError> {
    match plan {
        KindPlan::Block(start) => Ok(Some(ClaimedKind::Combinational(start))),
        KindPlan::Edge => Ok(Some(ClaimedKind::Edge)),
        KindPlan::Delay => match claimed_lists(alloc, design, i, residues)? {
            None => Ok(None),
            Some(lists) => Ok(Some(ClaimedKind::Delay(lists))),
        },
        KindPlan::Mixed => match claimed_lists(alloc, design, i, residues)? {
            None => Ok(None),
            Some(lists) => Ok(Some(ClaimedKind::Mixed(lists))),
        },
    }
}

// The entry of a process; none where a list has too many residues.
fn process_entry(
    alloc: Global,
    design: &Design,
    process: &Process,
    i: usize,
    plan: KindPlan,
    residues: &Residues,
) -> Result<Option<ProcessEntry>, AllocError> {
    match claimed_kind(alloc, design, i, plan, residues)? {
        None => Ok(None),
        Some(kind) => Ok(Some(ProcessEntry {
            kind,
            name: text_of(alloc, &process.name)?,
        })),
    }
}

// The entries of the processes; none where a list has too many residues.
fn process_entries(
    alloc: Global,
    design: &Design,
    plans: &[KindPlan],
    residues: &Residues,
) -> Result<Option<Vec<ProcessEntry>>, AllocError> {
    let processes = design.processes();
    let mut entries = Vec::new(alloc);
    for i in 0..processes.len() {
        if i < plans.len() {
            match process_entry(alloc, design, &processes[i], i, plans[i], residues)? {
                None => return Ok(None),
                Some(entry) => entries.push(entry)?,
            }
        }
    }
    Ok(Some(entries))
}

// The residues at which the edges of roots can fire, where a process hangs on them by its lists.
fn residues_of(
    alloc: Global,
    design: &Design,
    plan: &Plan,
    modulus: u64,
) -> Result<Residues, AllocError> {
    let firings = if plan.has_mixed() {
        firings_of(alloc, design, plan, modulus)?
    } else {
        Firings::none(alloc)
    };
    Ok(Residues {
        rules: plan.rules,
        modulus,
        firings,
    })
}

// The version of a plan: 3 by wide rules, and else 1, where that has all that is claimed.
fn version_of(plan: &Plan) -> Version {
    match plan.rules {
        Rules::Wide => Version::Three { displays: false },
        Rules::Narrow => {
            if plan.is_new() {
                Version::Two { displays: false }
            } else {
                Version::One
            }
        }
    }
}

/// The certificate of a plan, by a modulus; none where a delay control can end at more residues than a list of a certificate may have.
pub fn certificate_of(
    alloc: Global,
    design: &Design,
    plan: &Plan,
    grain: ClaimedGrain,
    modulus: u64,
) -> Result<Option<Certificate>, AllocError>
    ensures { IfOk result (λ o. IfSome o (λ c. c.grain ≡ grain)) }
{
    let residues = residues_of(alloc, design, plan, modulus)?;
    let Some(processes) = process_entries(alloc, design, &plan.kinds, &residues)? else {
        return Ok(None);
    };
    Ok(Some(Certificate {
        version: version_of(plan),
        grain,
        modulus,
        edges: edge_entries(alloc, design, &plan.edges)?,
        order: ordered(alloc, design, &plan.order)?,
        processes,
        signals: signal_entries(alloc, design, &plan.signals)?,
    }))
}
