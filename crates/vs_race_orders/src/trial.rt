//! Runs of a design under an order, whose dump is compared with that of the first order.
ghost use Rattle.std.specs.Prelude.{◌<◌, IfOk, OnOk};
ghost use Rattle.vs_kernel.specs.Scripts.{AreScripts};
ghost use Rattle.vs_kernel.specs.Snapshot.{IsSnapshot};

use crate::chooser::Chooser;
use crate::comparing::Comparing;
use crate::sums::{LineSum, Meeting, Sums};
use std::alloc::Global;
use vs_design::Design;
use vs_kernel::Run;
use vs_process::Script;
use vs_run_regions::vs_time_wheel::{EventQueue, Wheel};
use vs_run_regions::{Due, Fifo, Pick};
use vs_vcd_writing::{Counted, Sink, WriterFault};

/// The first time that no run reaches, in ticks.
const END_OF_TIME: u64 = 1 << 62;

/// How far runs go.
#[derive(Clone, Copy)]
pub(crate) struct Bounds {
    /// The time before which the first item is always chosen, in ticks.
    pub(crate) from: u64,
    /// The moment up to which they go, in ticks.
    pub(crate) until: u64,
    /// The most steps that each takes.
    pub(crate) steps: u64,
    /// Whether lines count.
    pub(crate) lines: bool,
}

/// The dump of the first order.
#[derive(Drop)]
pub(crate) struct Reference {
    pub(crate) text: Vec<u8>,
    /// The sums of its lines, where lines count.
    pub(crate) sums: Sums,
    /// How many steps it took.
    pub(crate) taken: u64,
    /// Whether the run went to its end within the steps.
    pub(crate) whole: bool,
    /// Whether a slot ended.
    pub(crate) slots: bool,
}

/// How a trial ended.
#[derive(Clone, Copy)]
pub(crate) struct Ended {
    /// The time of the slot, in ticks, at whose end the dump was seen to differ.
    pub(crate) differs: Option<u64>,
    /// The time of the first slot, in ticks, to whose end the lines differ.
    pub(crate) lines: Option<u64>,
    /// Whether a slot ended.
    pub(crate) slots: bool,
    /// How many choices were made before the last slot.
    pub(crate) before: u64,
}

impl Ended {
    // Notes a slot that ended, where it did, with the sum of the lines to its end.
    fn slot(&mut self, ended: bool, meeting: &mut Meeting, time: u64, sum: u64) {
        if !ended {
            return;
        }
        self.slots = true;
        if self.lines.is_none() && meeting.differs(time, sum) {
            self.lines = Some(time);
        }
    }

    // Notes the end of a run that went to it, with the sum of all lines, where the first order went to its end too.
    fn end(&mut self, whole: bool, meeting: &mut Meeting, until: u64, sum: u64) {
        if whole && self.lines.is_none() && meeting.differs_at_end(sum) {
            self.lines = Some(until);
        }
    }
}

// Makes the steps of a slot, at most so many: how many are left of them. Of a run that is at its end none are.
fn take_slot<'a, Q: EventQueue<Due>, P: Pick, V: Sink>(
    run: &mut Run<'a, Q>,
    policy: &mut P,
    left: u64,
    vcd: &mut V,
    lines: &mut LineSum,
) -> Result<u64, WriterFault>
    requires run { IsSnapshot run.old }
    requires left { 0 < left }
    ensures run { OnOk result (IsSnapshot run.new) }
    ensures less { IfOk result (λ rest. rest < left) }
{
    if run.is_over() || run.time() >= END_OF_TIME {
        return Ok(0);
    }
    run.take_steps(policy, left, vcd, lines)
}

// The end of the dump of a run that went to its end, where it did.
fn finish_run<'a, Q: EventQueue<Due> + Drop, V: Sink>(
    run: Run<'a, Q>,
    until: u64,
    vcd: &mut V,
) -> Result<bool, WriterFault> {
    let over = run.is_over();
    if !over && run.time() <= until {
        return Ok(false);
    }
    let end = if over && run.is_finishing() {
        run.time()
    } else {
        until
    };
    run.finish(vcd, end)?;
    Ok(true)
}

/// The dump of a run in the first order; these are the scripts of the design's processes, one each in order.
pub(crate) fn reference_of(
    alloc: Global,
    design: &Design,
    scripts: &[Script],
    bounds: Bounds,
) -> Result<Reference, WriterFault>
    requires { AreScripts design.now scripts.now }
{
    let Ok(queue) = Wheel::<Due>::new(alloc) else {
        return Err(WriterFault::Memory);
    };
    let mut vcd = Counted::new(Vec::new(alloc));
    let mut run = Run::start(alloc, &*design, &*scripts, queue, false, &mut vcd)?;
    let mut lines = LineSum::new(bounds.lines);
    let mut sums = Sums::new(alloc);
    let mut left = bounds.steps;
    let mut slots = false;
    while left > 0 {
        if run.is_over() || run.time() > bounds.until {
            break;
        }
        let time = run.time();
        left = take_slot(&mut run, &mut Fifo, left, &mut vcd, &mut lines)?;
        if left > 0 {
            slots = true;
            sums.put(time, lines.sum())?;
        }
    }
    let whole = finish_run(run, bounds.until, &mut vcd)?;
    Ok(Reference {
        text: vcd.into_inner(),
        sums,
        taken: bounds.steps.saturating_sub(left),
        whole,
        slots: slots || whole,
    })
}

// Compares the end of a run with that of the first order.
fn end_trial<'a, Q: EventQueue<Due> + Drop>(
    run: Run<'a, Q>,
    until: u64,
    whole: bool,
    sink: &mut Comparing,
    meeting: &mut Meeting,
    sum: u64,
    ended: &mut Ended,
) -> Result<(), WriterFault> {
    if finish_run(run, until, sink)? {
        sink.end();
        ended.slots = true;
        ended.end(whole, meeting, until, sum);
    }
    if sink.differs() {
        ended.differs = Some(until);
    }
    Ok(())
}

/// A run under an order, which is compared with the first one; these are the scripts of the design's processes, one each in order.
pub(crate) fn run_trial(
    alloc: Global,
    design: &Design,
    scripts: &[Script],
    bounds: Bounds,
    reference: &Reference,
    chooser: &mut Chooser,
    sink: &mut Comparing,
) -> Result<Ended, WriterFault>
    requires { AreScripts design.now scripts.now }
{
    let Ok(queue) = Wheel::<Due>::new(alloc) else {
        return Err(WriterFault::Memory);
    };
    let mut run = Run::start(alloc, &*design, &*scripts, queue, true, sink)?;
    let mut lines = LineSum::new(bounds.lines);
    let mut meeting = Meeting::new(&reference.sums);
    let mut left = bounds.steps;
    let mut ended = Ended {
        differs: None,
        lines: None,
        slots: false,
        before: 0,
    };
    while left > 0 {
        let time = run.time();
        if run.is_over() || time > bounds.until {
            break;
        }
        chooser.set_free(time >= bounds.from);
        ended.before = chooser.count();
        left = take_slot(&mut run, chooser, left, sink, &mut lines)?;
        if sink.differs() {
            ended.differs = Some(time);
            return Ok(ended);
        }
        ended.slot(left > 0, &mut meeting, time, lines.sum());
    }
    let sum = lines.sum();
    end_trial(
        run,
        bounds.until,
        reference.whole,
        sink,
        &mut meeting,
        sum,
        &mut ended,
    )?;
    Ok(ended)
}
