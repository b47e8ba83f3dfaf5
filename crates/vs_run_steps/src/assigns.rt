//! The moves of a continuous assignment.
ghost use Rattle.std.specs.Prelude.{◌≡◌, ◌<◌, ◌≤◌, true, false, Some, slice_get, IfOk, OnOk};
ghost use Rattle.vs_design.specs.declared.design.Assign as design_assign;
ghost use Rattle.vs_run_active.specs.vs_process.specs.Executions as executions;
ghost use Rattle.vs_run_steps.specs.Evaluations.{IsEvaluation};
ghost use Rattle.vs_run_steps.specs.Forms.{IsPlaceOf};
ghost use Rattle.vs_run_steps.specs.Outcomes.{HasOutcome};
ghost use Rattle.vs_run_steps.specs.Runs.{IsRunOf, marks_of, state_of};
ghost use Rattle.vs_run_steps.specs.Turns.{AreMade};
ghost use Rattle.vs_run_active.specs.Changes.{MarkChanges};

use crate::RunState;
use crate::evaluation::{copy_evaluation, drive, evaluation_any, spot_evaluation};
use crate::forms::Forms;
use std::alloc::AllocError;
use vs_design::vs_logic4::Vec4;
use vs_run_active::vs_process::{Move, Spot};
use vs_run_regions::Due;
use vs_run_regions::vs_time_wheel::EventQueue;

/// What the evaluation of a continuous assignment has come to.
#[derive(Clone, Copy)]
pub(crate) enum Evaluated {
    /// Its value would change nothing.
    Same,
    /// Its value waits to be written.
    Waits,
    /// Its value is written: its update is made too.
    Written,
}

/// Whether a continuous assignment has to be evaluated.
#[inline(always)]
pub fn needs<Q: EventQueue<Due>>(run: &RunState<Q>, assign: usize) -> bool
    ensures { result ≡ executions.is_enabled (state_of run.now) (Move.Evaluate assign) }
{
    match run.watched.events.assigns.get(assign) {
        Some(x) => x.needs(),
        None => false,
    }
}

/// Whether a value of a continuous assignment waits to be written.
#[inline(always)]
pub fn is_pending<Q: EventQueue<Due>>(run: &RunState<Q>, assign: usize) -> bool
    ensures { result ≡ executions.is_enabled (state_of run.now) (Move.Propagate assign) }
{
    match run.watched.events.assigns.get(assign) {
        Some(x) => x.pending().is_some(),
        None => false,
    }
}

/// The end of an evaluation whose value would change the bits of a spot: it is written at once, or waits to be written.
#[inline(always)]
fn give<Q: EventQueue<Due>>(
    run: &mut RunState<Q>,
    forms: &Forms,
    assign: usize,
    spot: &Spot,
    digits: Vec4,
    at_once: bool,
) -> Result<Evaluated, AllocError>
    requires run { IsRunOf forms.now run.old }
    requires active { executions.is_enabled (state_of run.old) (Move.Evaluate assign) ≡ true }
    requires value { IsEvaluation forms.now assign run.old.watched.store run.old.regions.time digits true }
    requires place { (a : design_assign.Assign) → slice_get forms.now.assigns assign ≡ Some a
        → IsPlaceOf forms.now.signals a.target spot.now }
    ensures run { OnOk result (IsRunOf forms.now run.new) }
    ensures come { IfOk result (λ e. HasOutcome at_once assign e (state_of run.old) (state_of run.new)) }
    ensures marked { OnOk result (MarkChanges (marks_of run.old) (marks_of run.new) (state_of run.old).store (state_of run.new).store) }
{
    if at_once {
        run.watched.events.assigns.leave(assign, None);
        run.write(spot, digits)?;
        return Ok(Evaluated::Written);
    }
    run.watched.events.assigns.leave(assign, Some(digits));
    Ok(Evaluated::Waits)
}

/// The evaluation of a continuous assignment of any form.
#[inline(never)]
fn evaluate_any<Q: EventQueue<Due>>(
    run: &mut RunState<Q>,
    forms: &Forms,
    assign: usize,
) -> Result<Evaluated, AllocError>
    requires run { IsRunOf forms.now run.old }
    requires active { executions.is_enabled (state_of run.old) (Move.Evaluate assign) ≡ true }
    ensures run { OnOk result (IsRunOf forms.now run.new) }
    ensures come { IfOk result (λ e. HasOutcome false assign e (state_of run.old) (state_of run.new)) }
    ensures marked { OnOk result (MarkChanges (marks_of run.old) (marks_of run.new) (state_of run.old).store (state_of run.new).store) }
{
    let (digits, differs) = evaluation_any(run, forms, assign)?;
    if !differs {
        run.watched.events.assigns.leave(assign, None);
        return Ok(Evaluated::Same);
    }
    run.watched.events.assigns.leave(assign, Some(digits));
    Ok(Evaluated::Waits)
}

/// The evaluation of a continuous assignment that isn't a copy, and at once its update, where it has a fixed place and may be.
#[inline(never)]
fn evaluate_placed<Q: EventQueue<Due>>(
    run: &mut RunState<Q>,
    forms: &Forms,
    assign: usize,
    at_once: bool,
) -> Result<Evaluated, AllocError>
    requires run { IsRunOf forms.now run.old }
    requires active { executions.is_enabled (state_of run.old) (Move.Evaluate assign) ≡ true }
    ensures run { OnOk result (IsRunOf forms.now run.new) }
    ensures come { IfOk result (λ e. HasOutcome at_once assign e (state_of run.old) (state_of run.new)) }
    ensures marked { OnOk result (MarkChanges (marks_of run.old) (marks_of run.new) (state_of run.old).store (state_of run.new).store) }
{
    let Some(placed) = spot_evaluation(run, forms, assign) else {
        let come = evaluate_any(run, forms, assign)?;
        return Ok(come);
    };
    let differs = placed.differs;
    if !differs {
        run.watched.events.assigns.leave(assign, None);
        return Ok(Evaluated::Same);
    }
    give(run, forms, assign, placed.spot, placed.digits, at_once)
}

/// The evaluation of a continuous assignment, and at once its update, where it has a fixed place and may be.
#[inline(always)]
fn make_evaluation<Q: EventQueue<Due>>(
    run: &mut RunState<Q>,
    forms: &Forms,
    assign: usize,
    at_once: bool,
) -> Result<Evaluated, AllocError>
    requires run { IsRunOf forms.now run.old }
    requires active { executions.is_enabled (state_of run.old) (Move.Evaluate assign) ≡ true }
    ensures run { OnOk result (IsRunOf forms.now run.new) }
    ensures come { IfOk result (λ e. HasOutcome at_once assign e (state_of run.old) (state_of run.new)) }
    ensures marked { OnOk result (MarkChanges (marks_of run.old) (marks_of run.new) (state_of run.old).store (state_of run.new).store) }
{
    let Some(copied) = copy_evaluation(run, forms, assign) else {
        return evaluate_placed(run, forms, assign, at_once);
    };
    let change = copied.change;
    if change.differing() == 0 {
        run.watched.events.assigns.leave(assign, None);
        return Ok(Evaluated::Same);
    }
    let digits = Vec4::from_planes(copied.spot.width, change.new_value, change.new_unknown);
    give(run, forms, assign, copied.spot, digits, at_once)
}

/// Whether the update of a continuous assignment may be made with its evaluation, in at most so many moves.
#[inline(always)]
pub fn may_follow<Q: EventQueue<Due>>(run: &RunState<Q>, assign: usize, limit: u64) -> bool
    ensures { result ≡ true → 1 < limit }
{
    limit > 1 && run.watched.events.queue.may_follow(assign)
}

/// The evaluation of a continuous assignment, and at once its update, where that may be: how many moves.
#[inline(always)]
pub fn evaluate<Q: EventQueue<Due>>(
    run: &mut RunState<Q>,
    forms: &Forms,
    assign: usize,
    limit: u64,
    at_once: bool,
) -> Result<u64, AllocError>
    requires limit { 0 < limit }
    requires two { at_once ≡ true → 1 < limit }
    requires run { IsRunOf forms.now run.old }
    requires active { executions.is_enabled (state_of run.old) (Move.Evaluate assign) ≡ true }
    ensures run { OnOk result (IsRunOf forms.now run.new) }
    ensures some { IfOk result (λ made. 0 < made) }
    ensures within { IfOk result (λ made. made ≤ limit) }
    ensures made { IfOk result (λ made. AreMade made (state_of run.old) (state_of run.new)) }
    ensures one { IfOk result (λ made. made ≡ 1 → state_of run.new ≡ executions.apply (Move.Evaluate assign) (state_of run.old)) }
    ensures marked { OnOk result (MarkChanges (marks_of run.old) (marks_of run.new) (state_of run.old).store (state_of run.new).store) }
{
    match make_evaluation(run, forms, assign, at_once)? {
        Evaluated::Same => Ok(1),
        Evaluated::Waits => {
            run.watched.events.queue.push(assign)?;
            Ok(1)
        }
        Evaluated::Written => Ok(2),
    }
}

/// The evaluation of a continuous assignment alone, which isn't listed: whether its value waits to be written.
#[inline(always)]
pub(crate) fn evaluate_alone<Q: EventQueue<Due>>(
    run: &mut RunState<Q>,
    forms: &Forms,
    assign: usize,
) -> Result<bool, AllocError>
    requires run { IsRunOf forms.now run.old }
    requires active { executions.is_enabled (state_of run.old) (Move.Evaluate assign) ≡ true }
    ensures run { OnOk result (IsRunOf forms.now run.new) }
    ensures made { OnOk result (state_of run.new ≡ executions.apply (Move.Evaluate assign) (state_of run.old)) }
    ensures marked { OnOk result (MarkChanges (marks_of run.old) (marks_of run.new) (state_of run.old).store (state_of run.new).store) }
{
    match make_evaluation(run, forms, assign, false)? {
        Evaluated::Waits => Ok(true),
        Evaluated::Same | Evaluated::Written => Ok(false),
    }
}

/// The update of a continuous assignment, where a value waits to be written: whether one does.
#[inline(always)]
pub(crate) fn update_member<Q: EventQueue<Due>>(
    run: &mut RunState<Q>,
    forms: &Forms,
    assign: usize,
) -> Result<bool, AllocError>
    requires { IsRunOf forms.now run.old }
    ensures run { OnOk result (IsRunOf forms.now run.new) }
    ensures told { IfOk result (λ made. made ≡ executions.is_enabled (state_of run.old) (Move.Propagate assign)) }
    ensures none { IfOk result (λ made. made ≡ false → run.new ≡ run.old) }
    ensures made { IfOk result (λ made. made ≡ true
        → state_of run.new ≡ executions.apply (Move.Propagate assign) (state_of run.old)) }
    ensures marked { OnOk result (MarkChanges (marks_of run.old) (marks_of run.new) (state_of run.old).store (state_of run.new).store) }
{
    let Some(x) = run.watched.events.assigns.get(assign) else {
        return Ok(false);
    };
    let Some(digits) = x.pending() else {
        return Ok(false);
    };
    run.watched.events.assigns.settle(assign);
    drive(run, forms, assign, digits)?;
    Ok(true)
}

/// The update of a continuous assignment.
#[inline(always)]
pub fn propagate<Q: EventQueue<Due>>(
    run: &mut RunState<Q>,
    forms: &Forms,
    assign: usize,
) -> Result<(), AllocError>
    requires run { IsRunOf forms.now run.old }
    requires active { executions.is_enabled (state_of run.old) (Move.Propagate assign) ≡ true }
    ensures run { OnOk result (IsRunOf forms.now run.new) }
    ensures made { OnOk result (AreMade 1 (state_of run.old) (state_of run.new)) }
    ensures state { OnOk result (state_of run.new ≡ executions.apply (Move.Propagate assign) (state_of run.old)) }
    ensures marked { OnOk result (MarkChanges (marks_of run.old) (marks_of run.new) (state_of run.old).store (state_of run.new).store) }
{
    update_member(run, forms, assign)?;
    Ok(())
}
