//! The kernel: one run of a design.
ghost use Rattle.std.specs.Prelude.{◌≡◌, [], ◌<◌, ◌^◌, IfOk, IfErr, OnOk, OnErr};
ghost use Rattle.vs_kernel.specs.Faults.{is_write, FaultAt, OneFailed, after_fault};
ghost use Rattle.vs_kernel.specs.Runs.{RanTo, HasBegun};
ghost use Rattle.vs_kernel.specs.declared.kernel.Status.TheVariants as statuses;
ghost use Rattle.vs_run_regions.specs.vs_process.specs.Permitted.{NeverStuck};

use crate::kernel_run::launch;
use crate::outcome::{Outcome, RunFault};
use std::alloc::{AllocError, Global};
use std::marker::Model;
use vs_design::Design;
use vs_run_regions::vs_process::never_stuck;
use vs_run_regions::vs_time_wheel::EventQueue;
use vs_run_regions::{Due, Pick};
use vs_vcd_writing::Sink;

/// Whether a kernel may run.
#[derive(Clone, Copy, PartialEq, Eq, Debug)]
pub enum Status {
    /// It hasn't run.
    Ready,
    /// It has given an outcome.
    Done,
    /// It has failed.
    Failed,
}

/// The run of a design under a policy, which keeps the ends of delays and late updates in an event queue. A contract sees the design, and
/// whether it may run.
#[derive(Drop)]
pub struct Kernel<'a, Q: EventQueue<Due>, P> {
    alloc: Global,
    design: &'a Design,
    /// The queue until the run takes it.
    queue: Option<Q>,
    policy: P,
    status: Status,
}

impl<'a, Q: EventQueue<Due>, P> Model for Kernel<'a, Q, P> {
    ghost use Rattle.std.specs.Coded.{codes};
    ghost use Rattle.vs_design.specs.contracts.expression.Typed as expression;
    ghost use Rattle.vs_design.specs.contracts.statement.Statement as statement;
    ghost use Rattle.vs_kernel.specs.Stages.{Course, KeepsQueue};

    ghost Value = { Course };

    ghost coded = { Prim.hlevel (codes, statement.the_row.coded, expression.the_row.coded) };

    ghost view = { λ k. record { design = k.design.now; status = k.status } };

    ghost invariant = { λ k. KeepsQueue Q.bag Q.clock k.status k.queue };
}

impl<'a, Q: EventQueue<Due> + Drop, P: Pick + Drop> Kernel<'a, Q, P> {
    /// A kernel that hasn't run. The queue holds no events, and its time is 0.
    pub fn new(alloc: Global, design: &'a Design, queue: Q, policy: P) -> Result<Self, AllocError>
        requires empty { Q.bag queue ≡ [] }
        requires at_zero { Q.clock queue ≡ 0 }
        ensures { IfOk result (λ kernel. kernel ≡ record { design = design.entry.now; status = statuses.Ready }) }
    {
        Ok(Kernel {
            alloc,
            design,
            queue: Some(queue),
            policy,
            status: Status::Ready,
        })
    }

    /// Whether it may run.
    pub fn status(&self) -> Status
        ensures { result ≡ self.now.status }
    {
        self.status
    }

    /// Runs the design until its time is past `until`, in ticks, no event is left or `$finish` took effect, in at most `steps` permitted steps
    /// (IEEE 1364-2005, clauses 11 and 17.4.1). The value change dump is written to `vcd` while it runs, and the lines to `lines`: that of a
    /// `$display` when its step is taken, those of the calls of `$strobe` of a slot at its end, in the order of the calls (clause 17.1). At the end
    /// of a slot the dump is written first.
    ///
    /// After an outcome every further call answers `Done`, after a fault `Failed`, and writes nothing.
    pub fn run<V: Sink, L: Sink>(
        &mut self,
        until: u64,
        steps: u64,
        vcd: &mut V,
        lines: &mut L,
    ) -> Result<Outcome, RunFault>
        requires until { until < 2 ^ 62 }
        requires steps { steps < 2 ^ 62 }
        ensures ran { IfOk result (λ outcome. RanTo self.old.design until steps outcome
            (V.bytes vcd.old) (V.bytes vcd.new) (L.bytes lines.old) (L.bytes lines.new)) }
        ensures ok { OnOk result ((self.old.status ≡ statuses.Ready) × (self.new.status ≡ statuses.Done)) }
        ensures begun { OnErr result (self.old.status ≡ statuses.Ready
            → HasBegun self.old.design until steps (V.bytes vcd.old) (V.bytes vcd.new) (L.bytes lines.old) (L.bytes lines.new)) }
        ensures fault { IfErr result (λ fault. FaultAt self.old.status fault) }
        ensures err { OnErr result (self.new.status ≡ after_fault self.old.status) }
        ensures design { self.new.design ≡ self.old.design }
        ensures again { (self.old.status ≡ statuses.Ready → ⊥) → vcd.new ≡ vcd.old }
        ensures lines_again { (self.old.status ≡ statuses.Ready → ⊥) → lines.new ≡ lines.old }
        // A failed write is told only where the count of a sink rose.
        ensures failures { OneFailed (is_write result) (V.failed vcd.old) (V.failed vcd.new) (L.failed lines.old) (L.failed lines.new) }
        // In every state that an execution reaches and that isn't the end there is a permitted step.
        ensures never_stuck { NeverStuck }
    {
        never_stuck();
        match self.status {
            Status::Ready => {
                self.status = Status::Failed;
                let Some(queue) = self.queue.take() else {
                    unreachable!()
                };
                let design = self.design;
                let policy = &mut self.policy;
                let outcome = launch(self.alloc, design, queue, policy, until, steps, vcd, lines)?;
                self.status = Status::Done;
                Ok(outcome)
            }
            Status::Done => Err(RunFault::Done),
            Status::Failed => Err(RunFault::Failed),
        }
    }
}
