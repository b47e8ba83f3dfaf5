//! The values of parameters that may name one another, whatever their order.
ghost use Rattle.std.specs.Prelude.{◌≡◌, ◌++◌, ◌<◌, ◌⊎◌, ℕ, List, Bool, Some, None, false, length, map, replicate, IfOk, IfErr, OnOk};
ghost use Rattle.std.proofs.Common.{set};
ghost use Rattle.vs_scopes.specs.vs_widths.specs.declared.bindings.Binding.TheVariants.{Pending};
ghost use Rattle.vs_scopes.specs.vs_widths.specs.Environment.{Environment};
ghost use Rattle.vs_widths.specs.Names.{meaning_of, nested_names, by_bytes};
ghost use Rattle.vs_scopes.specs.Declarations.{Bindings};
ghost use Rattle.vs_scopes.specs.Parameters.{outer_fault, outer_faults, own_faults, with_given};
ghost use Rattle.vs_scopes.specs.scopes_passes.Parts.{read_given};
ghost use Rattle.vs_elab_constants.specs.passes.Finding.{number_of, is_number, AreNumbers, AreNamed, AreFound, AreAll, IsTried, reported_fault, IsRoundOutcome, found_constants};
ghost use Rattle.vs_elab_constants.specs.passes.Values.{RefusesValues, AddsConstants};

use crate::evaluating::{ParameterValues, bind, constant_given, push_constant};
use crate::order::order;
use std::alloc::{AllocError, Global};
use vs_scopes::vs_widths::{Binding, Const, WidthReason};
use vs_scopes::{Given, ParameterRefusal, add_first};
use vs_widths::{Levels, Names};

/// What is known of the value of a parameter.
#[derive(Clone, Copy)]
pub enum Tried {
    /// It is this constant.
    Is(Const),
    /// It has this fault, where names are bound as they are.
    Not(WidthReason),
}

/// What is found next.
#[derive(Clone, Copy)]
pub enum Round {
    /// Nothing: the value of each parameter is found.
    Nothing,
    /// The value of the parameter of this number.
    Value(usize, Const),
    /// Nothing: each parameter whose value isn't found has a fault, one of them this one. Where this one is that it is no constant, so it is with each.
    Stuck(WidthReason),
}

/// The value of a parameter, where these names of its scope are known, and those of the scopes around.
fn try_value<'s, 'o>(
    alloc: Global,
    around: &Levels,
    outer: &'o [&'o Names<'s, Binding>],
    known: &'o Names<'s, Binding>,
    given: &Given,
) -> Result<Tried, ParameterRefusal>
    ensures ok { IfOk result (IsTried (meaning_of around.now) (meaning_of (known.now ++ nested_names outer.now)) (read_given given.now)) }
    ensures fault { IfErr result (RefusesValues false (λ w. outer_fault w (meaning_of around.now) (read_given given.now)) (λ w. false)) }
{
    let levels = Levels::new(known, outer);
    match constant_given(alloc, around, &levels, given) {
        Ok(constant) => Ok(Tried::Is(constant)),
        Err(ParameterRefusal::Own(reason)) => Ok(Tried::Not(reason)),
        Err(ParameterRefusal::Outer(reason)) => Err(ParameterRefusal::Outer(reason)),
        Err(ParameterRefusal::Mismatch) => Err(ParameterRefusal::Mismatch),
        Err(ParameterRefusal::Memory) => Err(ParameterRefusal::Memory),
    }
}

/// The number of the first parameter of each name.
fn numbered<'s>(alloc: Global, list: &[Given<'s>]) -> Result<Names<'s, usize>, AllocError>
    ensures { IfOk result (AreNumbers (map read_given list.now)) }
{
    let mut numbers = Names::new(alloc);
    for number in 0..list.len() {
        add_first(list[number].parameter.name, number, &mut numbers)?;
    }
    Ok(numbers)
}

/// Binds the names of parameters to no value yet.
fn bind_pending<'s>(list: &[Given<'s>], names: &mut Names<'s, Binding>) -> Result<(), AllocError>
    ensures { OnOk result ((n : List ℕ) → meaning_of names.new n
        ≡ with_given (λ g. Pending) (map read_given list.now) (meaning_of names.old) n) }
{
    for number in (0..list.len()).rev() {
        bind(list[number].parameter.name, Binding::Pending, names)?;
    }
    Ok(())
}

/// No values, of so many parameters.
fn no_values(alloc: Global, count: usize) -> Result<Vec<Option<Const>>, AllocError>
    ensures { IfOk result (λ v. v.items ≡ replicate count None) }
{
    let mut values = Vec::new(alloc);
    values.resize(count, None)?;
    Ok(values)
}

/// Whether a parameter of this number is the first one of its name.
fn is_first(numbers: &Names<usize>, name: &[u8], number: usize) -> bool
    ensures { result ≡ is_number (meaning_of numbers.now name.now) number }
{
    match numbers.find(name) {
        Some(first) => first == number,
        None => false,
    }
}

/// Keeps the value of a parameter; its name is bound to it where the parameter is the first one of the name.
fn keep<'s>(
    list: &[Given<'s>],
    numbers: &Names<'s, usize>,
    number: usize,
    constant: &Const,
    values: &mut Vec<Option<Const>>,
    known: &mut Names<'s, Binding>,
) -> Result<(), AllocError>
    requires within { number < length list.now }
    requires all { length values.now.items ≡ length list.now }
    requires numbers { AreNumbers (map read_given list.now) numbers.now }
    ensures values { OnOk result (values.new.items ≡ set values.old.items number (Some constant.now)) }
    ensures named { OnOk result ((outward : Bindings) (env : Environment)
        → AreNamed outward env (map read_given list.now) values.old.items known.old
        → AreNamed outward env (map read_given list.now) values.new.items known.new) }
{
    let name = list[number].parameter.name;
    if is_first(numbers, name, number) {
        bind(name, Binding::Constant(*constant), known)?;
    }
    values[number] = Some(*constant);
    Ok(())
}

/// Finds the value of a parameter, where those of the parameters that it names are found.
fn find_value<'s>(
    alloc: Global,
    around: &Levels,
    outer: &[&Names<'s, Binding>],
    list: &[Given<'s>],
    numbers: &Names<'s, usize>,
    number: usize,
    values: &mut Vec<Option<Const>>,
    known: &mut Names<'s, Binding>,
) -> Result<(), ParameterRefusal>
    requires within { number < length list.now }
    requires all { length values.now.items ≡ length list.now }
    requires numbers { AreNumbers (map read_given list.now) numbers.now }
    ensures all { OnOk result (length values.new.items ≡ length list.now) }
    ensures found { OnOk result ((env : Environment)
        → AreFound (meaning_of around.now) env (nested_names outer.now) (map read_given list.now) values.old.items known.old
        → AreFound (meaning_of around.now) env (nested_names outer.now) (map read_given list.now) values.new.items known.new) }
    ensures fault { IfErr result (RefusesValues false
        (λ w. outer_faults w (meaning_of around.now) (map read_given list.now)) (λ w. false)) }
{
    if values[number].is_some() {
        return Ok(());
    }
    match try_value(alloc, around, &*outer, &*known, &list[number])? {
        Tried::Not(_) => Ok(()),
        Tried::Is(constant) => Ok(keep(list, numbers, number, &constant, values, known)?),
    }
}

/// Finds the values of parameters, each behind those that it names.
fn find_each<'s>(
    alloc: Global,
    around: &Levels,
    outer: &[&Names<'s, Binding>],
    list: &[Given<'s>],
    numbers: &Names<'s, usize>,
    values: &mut Vec<Option<Const>>,
    known: &mut Names<'s, Binding>,
) -> Result<(), ParameterRefusal>
    requires all { length values.now.items ≡ length list.now }
    requires numbers { AreNumbers (map read_given list.now) numbers.now }
    ensures all { OnOk result (length values.new.items ≡ length list.now) }
    ensures found { OnOk result ((env : Environment)
        → AreFound (meaning_of around.now) env (nested_names outer.now) (map read_given list.now) values.old.items known.old
        → AreFound (meaning_of around.now) env (nested_names outer.now) (map read_given list.now) values.new.items known.new) }
    ensures fault { IfErr result (RefusesValues false
        (λ w. outer_faults w (meaning_of around.now) (map read_given list.now)) (λ w. false)) }
{
    let order = order(alloc, list, numbers)?;
    for number in &order {
        if *number < list.len() {
            find_value(alloc, around, outer, list, numbers, *number, values, known)?;
        }
    }
    Ok(())
}

/// The fault that is told of parameters, with one more that has a fault: another one than that it is no constant, where there is one.
fn reported_fault(before: Option<WidthReason>, reason: WidthReason) -> WidthReason
    ensures { result ≡ reported_fault before reason }
{
    match before {
        None | Some(WidthReason::NotConstant) => reason,
        Some(other) => other,
    }
}

/// What is found next, in the order of the text.
fn next_value<'s>(
    alloc: Global,
    around: &Levels,
    outer: &[&Names<'s, Binding>],
    list: &[Given<'s>],
    values: &[Option<Const>],
    known: &Names<'s, Binding>,
) -> Result<Round, ParameterRefusal>
    requires all { length values.now ≡ length list.now }
    ensures ok { IfOk result (IsRoundOutcome (meaning_of around.now) (meaning_of (known.now ++ nested_names outer.now))
        (map read_given list.now) values.now) }
    ensures fault { IfErr result (RefusesValues false
        (λ w. outer_faults w (meaning_of around.now) (map read_given list.now)) (λ w. false)) }
{
    let mut fault = None;
    for number in 0..list.len() {
        if values[number].is_none() {
            match try_value(alloc, around, &*outer, &*known, &list[number])? {
                Tried::Is(constant) => return Ok(Round::Value(number, constant)),
                Tried::Not(reason) => fault = Some(reported_fault(fault, reason)),
            }
        }
    }
    match fault {
        None => Ok(Round::Nothing),
        Some(reason) => Ok(Round::Stuck(reason)),
    }
}

/// Finds the values of all parameters that aren't found yet.
fn find_rest<'s>(
    alloc: Global,
    around: &Levels,
    outer: &[&Names<'s, Binding>],
    list: &[Given<'s>],
    numbers: &Names<'s, usize>,
    values: &mut Vec<Option<Const>>,
    known: &mut Names<'s, Binding>,
) -> Result<(), ParameterRefusal>
    requires all { length values.now.items ≡ length list.now }
    requires numbers { AreNumbers (map read_given list.now) numbers.now }
    ensures all { OnOk result ((length values.new.items ≡ length list.now) × AreAll values.new.items) }
    ensures found { OnOk result ((env : Environment)
        → AreFound (meaning_of around.now) env (nested_names outer.now) (map read_given list.now) values.old.items known.old
        → AreFound (meaning_of around.now) env (nested_names outer.now) (map read_given list.now) values.new.items known.new) }
    ensures fault { IfErr result (λ e. (env : Environment)
        → AreFound (meaning_of around.now) env (nested_names outer.now) (map read_given list.now) values.old.items known.old
        → RefusesValues false (λ w. outer_faults w (meaning_of around.now) (map read_given list.now))
        (λ w. own_faults w (meaning_of around.now) env (map read_given list.now)) e) }
{
    loop {
        match next_value(alloc, around, outer, list, &*values, &*known)? {
            Round::Nothing => return Ok(()),
            Round::Stuck(reason) => return Err(ParameterRefusal::Own(reason)),
            Round::Value(number, constant) => {
                keep(list, numbers, number, &constant, values, known)?;
            }
        }
    }
}

/// Finds the values of parameters: each behind those that it names, so that each is looked at a few times however many there are. The last
/// step finds what is left, and rests on no order.
fn find_values<'s>(
    alloc: Global,
    around: &Levels,
    outer: &[&Names<'s, Binding>],
    list: &[Given<'s>],
    known: &mut Names<'s, Binding>,
) -> Result<Vec<Option<Const>>, ParameterRefusal>
    ensures all { IfOk result (λ v. (length v.items ≡ length list.now) × AreAll v.items) }
    ensures found { IfOk result (λ v. (env : Environment)
        → AreFound (meaning_of around.now) env (nested_names outer.now) (map read_given list.now) (replicate (length list.now) None) known.old
        → AreFound (meaning_of around.now) env (nested_names outer.now) (map read_given list.now) v.items known.new) }
    ensures fault { IfErr result (λ e. (env : Environment)
        → AreFound (meaning_of around.now) env (nested_names outer.now) (map read_given list.now) (replicate (length list.now) None) known.old
        → RefusesValues false (λ w. outer_faults w (meaning_of around.now) (map read_given list.now))
        (λ w. own_faults w (meaning_of around.now) env (map read_given list.now)) e) }
{
    let numbers = numbered(alloc, list)?;
    let mut values = no_values(alloc, list.len())?;
    find_each(alloc, around, outer, list, &numbers, &mut values, known)?;
    find_rest(alloc, around, outer, list, &numbers, &mut values, known)?;
    Ok(values)
}

/// Appends the constants that parameters are.
fn push_found<'s>(
    list: &[Given<'s>],
    values: &[Option<Const>],
    constants: &mut Vec<(&'s [u8], Const)>,
) -> Result<(), AllocError>
    requires all { length values.now ≡ length list.now }
    ensures { OnOk result (by_bytes constants.new.items
        ≡ by_bytes constants.old.items ++ found_constants (map read_given list.now) values.now) }
{
    for number in 0..list.len() {
        if let Some(constant) = values[number] {
            push_constant(list[number].parameter.name, &constant, constants)?;
        }
    }
    Ok(())
}

/// Adds the constants that parameters are; `outer` are the names of the scopes around theirs that are seen there.
pub(crate) fn add_constants<'s>(
    alloc: Global,
    around: &Levels,
    outer: &[&Names<'s, Binding>],
    list: &[Given<'s>],
    values: &mut ParameterValues<'s>,
) -> Result<(), ParameterRefusal>
    ensures ok { OnOk result
        (AddsConstants (meaning_of around.now) (nested_names outer.now) (map read_given list.now) values.old values.new) }
    ensures fault { IfErr result (RefusesValues false
        (λ w. outer_faults w (meaning_of around.now) (map read_given list.now))
        (λ w. own_faults w (meaning_of around.now) (meaning_of (values.old.known ++ nested_names outer.now)) (map read_given list.now))) }
{
    bind_pending(list, &mut values.known)?;
    let found = find_values(alloc, around, outer, list, &mut values.known)?;
    Ok(push_found(list, &found, &mut values.constants)?)
}
