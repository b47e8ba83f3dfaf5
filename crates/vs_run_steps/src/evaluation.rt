//! What the evaluations of continuous assignments give, and how they are driven.
ghost use Rattle.std.specs.Prelude.{◌≡◌, ◌+◌, ◌≤◌, pos, Some, length, slice_get, IfOk, IfSome, OnOk};
ghost use Rattle.vs_design.specs.vs_logic4.specs.Parts.{selected};
ghost use Rattle.vs_design.specs.declared.design.Assign as design_assign;
ghost use Rattle.vs_design.specs.InOrder.{IsStoreOf, numbered_word};
ghost use Rattle.vs_run_active.specs.vs_process.specs.vs_eval.specs.Masks.{IsChangeOf};
ghost use Rattle.vs_run_steps.specs.Evaluations.{HasDigits, IsDriven, IsEvaluation};
ghost use Rattle.vs_run_steps.specs.Placed.{IsCopied, IsPlaced};
ghost use Rattle.vs_run_steps.specs.Runs.{Agrees, Keeps, Plan, state_of};

use crate::RunState;
use crate::forms::{Form, Forms};
use std::alloc::AllocError;
use vs_design::Store;
use vs_design::vs_logic4::Vec4;
use vs_eval::{cut_value, write_of};
use vs_run_active::vs_process::Spot;
use vs_run_active::vs_process::vs_eval::WordChange;
use vs_run_regions::Due;
use vs_run_regions::vs_time_wheel::EventQueue;

/// The evaluation of a copy: the word that it gives a value, and what that makes of it.
#[derive(Clone, Copy)]
pub(crate) struct Copied<'f> {
    pub spot: &'f Spot,
    pub change: WordChange,
}

/// The evaluation of a continuous assignment that has a fixed place: the place, the value, and whether it would change anything.
#[derive(Clone, Copy)]
pub(crate) struct Placed<'f> {
    pub spot: &'f Spot,
    pub digits: Vec4,
    pub differs: bool,
}

/// The bits of a spot.
#[inline(always)]
fn bits_of(store: &Store, spot: &Spot) -> Vec4
    requires { spot.now.shift + spot.now.width ≤ length (numbered_word store.now spot.now.index) }
    ensures { result ≡ selected (pos spot.now.shift) spot.now.width (numbered_word store.now spot.now.index) }
{
    let (value, unknown) = store.planes_of(spot.index);
    let shift = spot.shift;
    Vec4::from_planes(spot.width, value >> shift, unknown >> shift)
}

/// What a copy makes of the word of a spot, which is a whole word: the change to the value of another one of its size.
#[inline(always)]
fn change_of_copy(store: &Store, spot: &Spot, from: usize) -> WordChange
    requires whole { length (numbered_word store.now spot.now.index) ≡ spot.now.width }
    requires sized { length (numbered_word store.now from) ≡ spot.now.width }
    ensures { IsChangeOf result (numbered_word store.now spot.now.index) (numbered_word store.now from) }
{
    let (new_value, new_unknown) = store.planes_of(from);
    let (value, unknown) = store.planes_of(spot.index);
    WordChange {
        value,
        unknown,
        new_value,
        new_unknown,
    }
}

/// The value that a continuous assignment of any form has to be given, and whether it would change anything.
#[inline(never)]
pub(crate) fn evaluation_any<Q: EventQueue<Due>>(
    run: &RunState<Q>,
    forms: &Forms,
    assign: usize,
) -> Result<(Vec4, bool), AllocError>
    ensures { IfOk result (λ r. IsEvaluation forms.now assign run.now.watched.store run.now.regions.time r.0 r.1) }
{
    let Some(a) = forms.assign(assign) else {
        return Ok((Vec4::from_planes(1, 0, 0), false));
    };
    let time = run.regions.time();
    let digits = cut_value(&a.target, &a.source, &run.watched.store, time);
    let write = write_of(run.alloc, &a.target, digits, &run.watched.store, time)?;
    let held = run.watched.store.has(&write);
    Ok((digits, !held))
}

/// The evaluation of a continuous assignment that is a copy, where it is one.
#[inline(always)]
pub(crate) fn copy_evaluation<'f, Q: EventQueue<Due>>(
    run: &RunState<Q>,
    forms: &'f Forms,
    assign: usize,
) -> Option<Copied<'f>>
    requires store { IsStoreOf forms.now.signals run.now.watched.store }
    requires there { (a : design_assign.Assign) × (slice_get forms.now.assigns assign ≡ Some a) }
    ensures { IfSome result (λ c. IsCopied forms.now assign run.now.watched.store run.now.regions.time c) }
{
    let form = forms.get(assign)?;
    match form {
        Form::Copy(spot, from) => {
            let change = change_of_copy(&run.watched.store, spot, *from);
            Some(Copied { spot, change })
        }
        Form::Fixed(_, _) => None,
        Form::Other => None,
    }
}

/// The evaluation of a continuous assignment that has a fixed place and isn't a copy.
#[inline(always)]
pub(crate) fn spot_evaluation<'f, Q: EventQueue<Due>>(
    run: &RunState<Q>,
    forms: &'f Forms,
    assign: usize,
) -> Option<Placed<'f>>
    requires store { IsStoreOf forms.now.signals run.now.watched.store }
    requires there { (a : design_assign.Assign) × (slice_get forms.now.assigns assign ≡ Some a) }
    ensures { IfSome result (λ p. IsPlaced forms.now assign run.now.watched.store run.now.regions.time p) }
{
    let form = forms.get(assign)?;
    match form {
        Form::Copy(_, _) => None,
        Form::Fixed(spot, source) => {
            let store = &run.watched.store;
            let digits = source.cut_value(spot.width, store, run.regions.time());
            let held = bits_of(store, spot) == digits;
            Some(Placed {
                spot,
                digits,
                differs: !held,
            })
        }
        Form::Other => None,
    }
}

/// Gives a continuous assignment of any form digits.
#[inline(never)]
fn drive_any<Q: EventQueue<Due>>(
    run: &mut RunState<Q>,
    forms: &Forms,
    assign: usize,
    digits: Vec4,
) -> Result<(), AllocError>
    ghost plan: { Plan }
    requires { Agrees plan.design plan.terms run.old }
    ensures driven { OnOk result (IsDriven forms.now assign digits (state_of run.old) (state_of run.new)) }
    ensures keeps { OnOk result (Keeps plan.design plan.terms run.old run.new) }
{
    let Some(a) = forms.assign(assign) else {
        return Ok(());
    };
    let time = run.regions.time();
    let write = write_of(run.alloc, &a.target, digits, &run.watched.store, time)?;
    run.write_any(&write)?;
    Ok(())
}

/// Gives a continuous assignment digits, as many as it has.
#[inline(always)]
pub(crate) fn drive<Q: EventQueue<Due>>(
    run: &mut RunState<Q>,
    forms: &Forms,
    assign: usize,
    digits: Vec4,
) -> Result<(), AllocError>
    ghost plan: { Plan }
    requires agrees { Agrees plan.design plan.terms run.old }
    requires design { forms.now ≡ plan.design }
    requires digits { HasDigits forms.now assign digits }
    ensures driven { OnOk result (IsDriven forms.now assign digits (state_of run.old) (state_of run.new)) }
    ensures keeps { OnOk result (Keeps plan.design plan.terms run.old run.new) }
{
    let Some(spot) = forms.place(assign) else {
        return drive_any(run, forms, assign, digits);
    };
    run.write(spot, digits)?;
    Ok(())
}
