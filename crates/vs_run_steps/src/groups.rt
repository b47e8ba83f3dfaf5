//! The moves of the continuous assignments of a group.
ghost use Rattle.std.specs.Prelude.{◌≡◌, ◌<◌, true, slice_get, IfOk};
ghost use Rattle.vs_run_active.specs.vs_process.specs.Executions as executions;
ghost use Rattle.vs_run_steps.specs.Members.{group_move, members_in};
ghost use Rattle.vs_run_steps.specs.MembersMade.{AreDone, HasBegun};
ghost use Rattle.vs_run_steps.specs.Runs.{IsRunOf, state_of};

use crate::RunState;
use crate::assigns::{evaluate, evaluate_alone, is_pending, needs, update_member};
use crate::forms::Forms;
use std::alloc::AllocError;
use vs_run_active::vs_process::Move;
use vs_run_regions::Due;
use vs_run_regions::vs_time_wheel::EventQueue;

/// A member of a group; past the end there is none.
#[inline(always)]
fn member_at<Q: EventQueue<Due>>(run: &RunState<Q>, group: usize, index: usize) -> Option<usize>
    ensures { result ≡ slice_get (members_in run.now.watched.tables group) index }
{
    match run.watched.tables.groups.members_of(group).get(index) {
        Some(assign) => Some(*assign),
        None => None,
    }
}

/// Whether the first continuous assignment of a group has something to do.
#[inline(always)]
pub fn is_group_active<Q: EventQueue<Due>>(run: &RunState<Q>, group: usize) -> bool
    ensures { result ≡ executions.is_enabled (state_of run.now)
        (group_move run.now.watched.tables run.now.watched.events.assigns group) }
{
    match member_at(run, group, 0) {
        Some(first) => is_pending(run, first) || needs(run, first),
        None => false,
    }
}

/// The updates of the continuous assignments of a group whose values wait to be written, at most so many: how many moves.
#[inline(always)]
fn update_group<Q: EventQueue<Due>>(
    run: &mut RunState<Q>,
    forms: &Forms,
    group: usize,
    limit: u64,
) -> Result<u64, AllocError>
    requires limit { 0 < limit }
    requires run { IsRunOf forms.now run.old }
    ensures some { IfOk result (λ taken.
        HasBegun (members_in run.old.watched.tables group) (λ j. Move.Propagate j) (state_of run.old) taken) }
    ensures done { IfOk result (λ taken. AreDone forms.now limit run.old taken run.new) }
{
    let count = run.watched.tables.groups.members_of(group).len();
    let mut taken = 0;
    for i in 0..count {
        if taken == limit {
            return Ok(taken);
        }
        let Some(assign) = member_at(run, group, i) else {
            return Ok(taken);
        };
        if update_member(run, forms, assign)? {
            taken += 1;
        }
    }
    Ok(taken)
}

/// The evaluations of the continuous assignments of a group that need it, at most so many: how many moves. Their updates enter the queue as one.
#[inline(always)]
fn evaluate_group<Q: EventQueue<Due>>(
    run: &mut RunState<Q>,
    forms: &Forms,
    group: usize,
    limit: u64,
) -> Result<u64, AllocError>
    requires limit { 0 < limit }
    requires run { IsRunOf forms.now run.old }
    ensures some { IfOk result (λ taken.
        HasBegun (members_in run.old.watched.tables group) (λ j. Move.Evaluate j) (state_of run.old) taken) }
    ensures done { IfOk result (λ taken. AreDone forms.now limit run.old taken run.new) }
{
    let count = run.watched.tables.groups.members_of(group).len();
    let mut differs = false;
    let mut taken = 0;
    for i in 0..count {
        if taken == limit {
            return Ok(taken);
        }
        let Some(assign) = member_at(run, group, i) else {
            return Ok(taken);
        };
        if needs(run, assign) {
            if evaluate_alone(run, forms, assign)? {
                differs = true;
            }
            taken += 1;
        }
    }
    if differs {
        let event = run.watched.tables.groups.assigns.wrapping_add(group);
        run.watched.events.queue.push(event)?;
    }
    Ok(taken)
}

/// The evaluations of the continuous assignments of a group that need it, each with its update at once, at most so many moves: how many.
#[inline(always)]
fn copy_group<Q: EventQueue<Due>>(
    run: &mut RunState<Q>,
    forms: &Forms,
    group: usize,
    limit: u64,
) -> Result<u64, AllocError>
    requires limit { 0 < limit }
    requires run { IsRunOf forms.now run.old }
    ensures some { IfOk result (λ taken.
        HasBegun (members_in run.old.watched.tables group) (λ j. Move.Evaluate j) (state_of run.old) taken) }
    ensures done { IfOk result (λ taken. AreDone forms.now limit run.old taken run.new) }
{
    let count = run.watched.tables.groups.members_of(group).len();
    let mut taken = 0;
    for i in 0..count {
        if taken == limit {
            return Ok(taken);
        }
        let Some(assign) = member_at(run, group, i) else {
            return Ok(taken);
        };
        if needs(run, assign) {
            let left = limit - taken;
            let made = evaluate(run, forms, assign, left, left > 1)?;
            taken += made;
        }
    }
    Ok(taken)
}

/// What the copies of a group have to do, at most so many moves: their updates, where that of the first one is pending, else their evaluations, with
/// their updates where these would be next.
#[inline(never)]
pub fn run_group<Q: EventQueue<Due>>(
    run: &mut RunState<Q>,
    forms: &Forms,
    group: usize,
    limit: u64,
) -> Result<u64, AllocError>
    requires limit { 0 < limit }
    requires run { IsRunOf forms.now run.old }
    requires active { executions.is_enabled (state_of run.old)
        (group_move run.old.watched.tables run.old.watched.events.assigns group) ≡ true }
    ensures some { IfOk result (λ taken. 0 < taken) }
    ensures done { IfOk result (λ taken. AreDone forms.now limit run.old taken run.new) }
{
    let Some(first) = member_at(run, group, 0) else {
        return Ok(0);
    };
    if is_pending(run, first) {
        update_group(run, forms, group, limit)
    } else if run.watched.events.queue.is_empty() {
        copy_group(run, forms, group, limit)
    } else {
        evaluate_group(run, forms, group, limit)
    }
}
