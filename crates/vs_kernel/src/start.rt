//! The state of a run at its start.
ghost use Rattle.std.specs.Prelude.{ℕ, ◌≡◌, [], IfOk, length, map};
ghost use Rattle.std.specs.declared.alloc.Global.{Global};
ghost use Rattle.std.specs.declared.vec.Vec.{Vec};
ghost use Rattle.vs_design.specs.Stores.{start_store};
ghost use Rattle.vs_run_active.specs.vs_process.specs.States as states;
ghost use Rattle.vs_kernel.specs.Scripts.{AreScripts};
ghost use Rattle.vs_kernel.specs.Starting.{AreCounted, AreStarted};
ghost use Rattle.vs_run_steps.specs.Runs.{IsRunOf, marks_of, state_of};
ghost use Rattle.vs_run_active.specs.Rows.{AreRows};
ghost use Rattle.vs_run_active.specs.Terms.{terms_from};

use std::alloc::{AllocError, Global};
use vs_design::{Design, Store};
use vs_process::Script;
use vs_run_active::{
    Assigns, Events, Process as Started, ProcessTerm, Processes, Queue, Tables, terms_are_found,
    terms_of,
};
use vs_run_regions::vs_time_wheel::EventQueue;
use vs_run_regions::{Due, Regions};
use vs_run_steps::{RunState, Watched};

/// The tables of a design; of each continuous assignment it is told whether it is a copy that may be woken with others as one.
fn tables_of(
    alloc: Global,
    design: &Design,
    terms: &[ProcessTerm],
    copies: &[bool],
) -> Result<Tables, AllocError>
    ensures { IfOk result (λ tables. AreRows (length design.now.signals) design.now.assigns terms.now
        tables.groups tables.rows.items tables.watchers.items) }
{
    // A contract reads off this count that it fits.
    let _ = design.assigns().len();
    let signals = design.signals().len();
    let tables = Tables::of(alloc, design, signals, terms, copies)?;
    Ok(tables)
}

/// The processes at the start of their scripts.
fn processes_of<'a>(alloc: Global, scripts: &'a [Script<'a>]) -> Result<Processes<'a>, AllocError>
    ensures { IfOk result (λ processes. AreStarted scripts.entry.now processes) }
{
    let mut processes = Processes::new(alloc);
    for script in scripts {
        processes.push(Started::start(script))?;
    }
    Ok(processes)
}

/// Lists the numbers of what is active at the start of a run: every continuous assignment, then every active process, in design order.
fn list_first(
    queue: &mut Queue,
    assigns: usize,
    first_process: usize,
    processes: &Processes,
) -> Result<(), AllocError> {
    for assign in 0..assigns {
        queue.push(assign)?;
    }
    for number in 0..processes.len() {
        if let Some(process) = processes.get(number)
            && process.is_going()
        {
            let event = first_process.wrapping_add(number);
            queue.push(event)?;
        }
    }
    Ok(())
}

/// What is active at the start of a run; of each continuous assignment it is told whether it is silent.
fn events_of<'a>(
    alloc: Global,
    design: &'a Design,
    scripts: &'a [Script<'a>],
    groups: usize,
    silent: Vec<bool>,
) -> Result<Events<'a>, AllocError>
    ensures assigns { IfOk result (λ events. events.assigns ≡ map states.start_assign design.entry.now.assigns) }
    ensures processes { IfOk result (λ events. AreStarted scripts.entry.now events.processes) }
{
    let assigns = Assigns::start(alloc, design.assigns())?;
    let processes = processes_of(alloc, scripts)?;
    let first_process = assigns.len().wrapping_add(groups);
    let mut queue = Queue::new(alloc, silent);
    list_first(&mut queue, assigns.len(), first_process, &processes)?;
    Ok(Events {
        assigns,
        processes,
        queue,
        first_process,
    })
}

/// The counters of processes, all 0.
fn counters_of(alloc: Global, scripts: &[Script]) -> Result<Vec<Vec<u64>>, AllocError>
    ensures { IfOk result (λ counters. AreCounted scripts.now (map (λ (c : Vec ℕ Global). c.items) counters.items)) }
{
    let mut counters = Vec::new(alloc);
    for script in scripts {
        let count = script.counters();
        counters.push(vec![in alloc; 0; count]?)?;
    }
    Ok(counters)
}

/// The state in which every run of a design begins.
fn state_at_start<'a, Q: EventQueue<Due>>(
    alloc: Global,
    design: &'a Design,
    scripts: &'a [Script<'a>],
    terms: Vec<ProcessTerm>,
    wheel: Q,
    watched: Watched<'a>,
) -> Result<RunState<'a, Q>, AllocError>
where
    Q: Drop,
    requires empty { Q.bag wheel ≡ [] }
    requires at_zero { Q.clock wheel ≡ 0 }
    requires scripts { AreScripts design.now scripts.now }
    requires terms { terms.items ≡ terms_from 0 scripts.now }
    requires store { watched.store ≡ start_store design.now }
    requires rows { AreRows (length design.now.signals) design.now.assigns terms.items
        watched.tables.groups watched.tables.rows.items watched.tables.watchers.items }
    requires assigns { watched.events.assigns ≡ map states.start_assign design.now.assigns }
    requires processes { AreStarted scripts.now watched.events.processes }
    ensures state { IfOk result (λ run. state_of run ≡ states.start design.entry.now) }
    ensures run { IfOk result (λ run. IsRunOf design.entry.now run) }
    ensures marks { IfOk result (λ run. marks_of run ≡ watched.entry.marks.items) }
{
    terms_are_found();
    let regions = Regions::start(alloc, design, wheel);
    let counters = counters_of(alloc, scripts)?;
    Ok(RunState {
        alloc,
        design,
        terms,
        watched,
        regions,
        counters,
        calls: Vec::new(alloc),
        finishing: false,
        over: false,
        changes: Vec::new(alloc),
        woken: Vec::new(alloc),
    })
}

/// The state of a run of a design at its start, with these marks; of each continuous assignment it is told whether it is a copy that may be woken
/// with others as one, and whether it is silent.
pub fn running_of<'a, Q: EventQueue<Due>>(
    alloc: Global,
    design: &'a Design,
    scripts: &'a [Script<'a>],
    wheel: Q,
    copies: &[bool],
    silent: Vec<bool>,
    marks: Vec<u64>,
) -> Result<RunState<'a, Q>, AllocError>
where
    Q: Drop,
    requires empty { Q.bag wheel ≡ [] }
    requires at_zero { Q.clock wheel ≡ 0 }
    requires scripts { AreScripts design.now scripts.now }
    ensures state { IfOk result (λ run. state_of run ≡ states.start design.entry.now) }
    ensures run { IfOk result (λ run. IsRunOf design.entry.now run) }
    ensures marks { IfOk result (λ run. marks_of run ≡ marks.items) }
{
    let terms = terms_of(alloc, scripts)?;
    let tables = tables_of(alloc, design, &terms, copies)?;
    let events = events_of(alloc, design, scripts, tables.groups.groups.len(), silent)?;
    let watched = Watched {
        store: Store::start(alloc, design)?,
        tables,
        events,
        marks,
    };
    state_at_start(alloc, design, scripts, terms, wheel, watched)
}
