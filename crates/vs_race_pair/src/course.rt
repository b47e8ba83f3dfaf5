//! Two runs, and the events of a slot of each.
ghost use Rattle.std.specs.Prelude.{◌≡◌, ◌<◌, ◌^◌, false, map, OnOk};
ghost use Rattle.vs_run_steps.specs.Runs.{IsRunOf, state_of};

use crate::log::Log;
use crate::noting::note_event;
use crate::order::{Order, leave_region, make_event, next_event, order_of};
use crate::tracks::Tracks;
use std::alloc::{AllocError, Global};
use vs_design::Design;
use vs_kernel::vs_run_regions::Due;
use vs_kernel::vs_run_regions::vs_time_wheel::{EventQueue, Wheel};
use vs_kernel::vs_run_steps::Forms;
use vs_kernel::{Region, codes_of, running_of, scripts_of};
use vs_process::TextMap;
use vs_race_orders::{Planned, Span};
use vs_run_active::vs_process::Code;
use vs_run_regions::Pick;
use vs_run_steps::RunState;
use vs_vcd_writing::WriterFault;

/// The first time that no run reaches, in ticks.
const END_OF_TIME: u64 = 1 << 62;

/// Of which slot the events are logged, and of which signal the value at its end.
#[derive(Clone, Copy)]
pub(crate) struct Stage {
    /// The time of the slot, in ticks.
    pub(crate) time: u64,
    pub(crate) signal: usize,
    /// The most steps of a run.
    pub(crate) steps: u64,
}

// Makes the next move of a run.
fn take_move<Q: EventQueue<Due>, P: Pick>(
    run: &mut RunState<Q>,
    forms: &Forms,
    order: &mut Order,
    policy: &mut P,
) -> Result<(), WriterFault>
    requires run { IsRunOf forms.now run.old }
    requires going { (state_of run.old).over ≡ false }
    requires early { (state_of run.old).time < 2 ^ 62 }
    ensures { OnOk result (IsRunOf forms.now run.new) }
{
    match next_event(run, order, policy) {
        Some(event) => make_event(run, forms, order, event),
        None => {
            let _ = leave_region(run, forms, order)?;
            Ok(())
        }
    }
}

// Makes moves of a run, at most so many, until a time: how many are left.
fn run_to<Q: EventQueue<Due>, P: Pick>(
    run: &mut RunState<Q>,
    forms: &Forms,
    order: &mut Order,
    policy: &mut P,
    stage: Stage,
) -> Result<u64, WriterFault>
    requires { IsRunOf forms.now run.old }
    ensures { OnOk result (IsRunOf forms.now run.new) }
{
    for taken in 0..stage.steps {
        let time = run.regions.time();
        if run.over || time >= END_OF_TIME || time >= stage.time {
            return Ok(stage.steps - taken);
        }
        take_move(run, forms, order, policy)?;
    }
    Ok(0)
}

// Makes the next move of a slot, and logs it where it is an event.
fn log_move<'a, Q: EventQueue<Due>, P: Pick>(
    alloc: Global,
    design: &Design,
    maps: &[TextMap<'a>],
    log: &mut Log,
    tracks: &mut Tracks,
    run: &mut RunState<Q>,
    forms: &Forms,
    order: &mut Order,
    policy: &mut P,
) -> Result<(), WriterFault>
    requires run { IsRunOf forms.now run.old }
    requires going { (state_of run.old).over ≡ false }
    requires early { (state_of run.old).time < 2 ^ 62 }
    ensures { OnOk result (IsRunOf forms.now run.new) }
{
    match next_event(run, order, policy) {
        Some(event) => {
            let number = log.entries.len();
            note_event(alloc, design, maps, log, tracks, run, event)?;
            make_event(run, forms, order, event)?;
            tracks.follow(run, Some(number));
            Ok(())
        }
        None => {
            if let Region::Updates = leave_region(run, forms, order)? {
                tracks.activate(run.regions.active_len())?;
            }
            Ok(())
        }
    }
}

// Makes the moves of a slot, at most so many, and logs its events.
fn log_slot<'a, Q: EventQueue<Due>, P: Pick>(
    alloc: Global,
    design: &Design,
    maps: &[TextMap<'a>],
    run: &mut RunState<Q>,
    forms: &Forms,
    order: &mut Order,
    policy: &mut P,
    stage: Stage,
    steps: u64,
) -> Result<Log, WriterFault>
    requires { IsRunOf forms.now run.old }
{
    let mut log = Log::new(alloc);
    let mut tracks = Tracks::new(alloc, run)?;
    for taken in 0..steps {
        let time = run.regions.time();
        if run.over || time >= END_OF_TIME || time > stage.time {
            log.whole = true;
            break;
        }
        if log.is_full() {
            break;
        }
        let _ = taken;
        log_move(
            alloc,
            design,
            maps,
            &mut log,
            &mut tracks,
            run,
            forms,
            order,
            policy,
        )?;
    }
    log.value = run.watched.store.word(stage.signal, 0);
    Ok(log)
}

// The maps of the texts of processes with these codes.
fn maps_of<'a>(
    alloc: Global,
    design: &Design,
    codes: &'a [Code<'a>],
) -> Result<Vec<TextMap<'a>>, AllocError>
    requires { codes.now ≡ map (λ p. p.body) design.now.processes }
{
    design.is_well_formed();
    let mut maps = Vec::new(alloc);
    for code in codes {
        maps.push(TextMap::of(alloc, code)?)?;
    }
    Ok(maps)
}

// The events of a slot of a run that makes these choices; the processes have these maps and these codes, one each in order.
fn log_under(
    alloc: Global,
    design: &Design,
    maps: &[TextMap],
    codes: &[Code],
    choices: &[Span],
    stage: Stage,
) -> Result<Log, WriterFault>
    requires { codes.now ≡ map (λ p. p.body) design.now.processes }
{
    let Ok(queue) = Wheel::<Due>::new(alloc) else {
        return Err(WriterFault::Memory);
    };
    let scripts = scripts_of(alloc, design, codes)?;
    let forms = Forms::of(alloc, &*design)?;
    let mut run = running_of(
        alloc,
        &*design,
        &scripts,
        queue,
        &[],
        Vec::new(alloc),
        Vec::new(alloc),
    )?;
    let mut order = order_of(alloc, design, &mut run)?;
    let mut policy = Planned::new(choices);
    let left = run_to(&mut run, &forms, &mut order, &mut policy, stage)?;
    log_slot(
        alloc,
        design,
        maps,
        &mut run,
        &forms,
        &mut order,
        &mut policy,
        stage,
        left,
    )
}

// The same, with the maps of the processes made from their codes.
fn log_mapped<'x>(
    alloc: Global,
    design: &Design,
    codes: &'x [Code<'x>],
    choices: &[Span],
    stage: Stage,
) -> Result<Log, WriterFault>
    requires { codes.now ≡ map (λ p. p.body) design.now.processes }
{
    let maps = maps_of(alloc, design, codes)?;
    log_under(alloc, &*design, &maps, codes, choices, stage)
}

// The same, of codes that are lent for a shorter time than what they are made of.
fn log_borrowed(
    alloc: Global,
    design: &Design,
    codes: &[Code],
    choices: &[Span],
    stage: Stage,
) -> Result<Log, WriterFault>
    requires { codes.now ≡ map (λ p. p.body) design.now.processes }
{
    log_mapped(alloc, design, &*codes, choices, stage)
}

/// The events of a slot of a run that makes these choices, and at all others chooses the first event.
pub(crate) fn log_of(
    alloc: Global,
    design: &Design,
    choices: &[Span],
    stage: Stage,
) -> Result<Log, AllocError> {
    let codes = codes_of(alloc, design.processes())?;
    // No write to a sink that keeps nothing fails.
    let Ok(log) = log_borrowed(alloc, design, &codes, choices, stage) else {
        return Err(AllocError);
    };
    Ok(log)
}
