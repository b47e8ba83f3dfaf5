//! In which order to look at parameters that name one another. No value rests on it: whatever the order, what is found is the same.
use std::alloc::{AllocError, Global};
use vs_scopes::{Given, names_in};
use vs_syntax::{Expr, ParameterForm, Range};
use vs_widths::Names;

/// What is left to do with the parameter of a number.
#[derive(Clone, Copy)]
enum Visit {
    /// To look at it, and at those that it needs.
    Visit(usize),
    /// To put it into the order, behind those that it needs.
    Place(usize),
}

/// How far parameters are looked at.
#[derive(Drop)]
struct Walk {
    /// Whether each parameter was met.
    met: Vec<bool>,
    /// What is left to do, the next last.
    tasks: Vec<Visit>,
    /// Parameters behind those that they need.
    order: Vec<usize>,
}

/// Leaves the parameter of a name to be looked at, where it is one.
fn push_use(name: &[u8], numbers: &Names<usize>, tasks: &mut Vec<Visit>) -> Result<(), AllocError> {
    match numbers.find(name) {
        Some(number) => Ok(tasks.push(Visit::Visit(number))?),
        None => Ok(()),
    }
}

/// Leaves the parameters that an expression names to be looked at.
fn push_uses(
    alloc: Global,
    e: &Expr,
    numbers: &Names<usize>,
    tasks: &mut Vec<Visit>,
) -> Result<(), AllocError> {
    let names = names_in(alloc, e)?;
    for name in &names {
        push_use(name, numbers, tasks)?;
    }
    Ok(())
}

/// Leaves the parameters that a range names to be looked at.
fn push_range_uses(
    alloc: Global,
    range: &Range,
    numbers: &Names<usize>,
    tasks: &mut Vec<Visit>,
) -> Result<(), AllocError> {
    push_uses(alloc, &range.left, numbers, tasks)?;
    push_uses(alloc, &range.right, numbers, tasks)
}

/// Leaves the parameters that a parameter of the same scope needs to be looked at: those in its range, and in its value where nothing
/// overrides that.
fn push_given_uses(
    alloc: Global,
    given: &Given,
    numbers: &Names<usize>,
    tasks: &mut Vec<Visit>,
) -> Result<(), AllocError> {
    if let Some(ParameterForm::Vector(form)) = given.parameter.form {
        if let Some(range) = &form.range {
            push_range_uses(alloc, range, numbers, tasks)?;
        }
    }
    match given.over {
        Some(_) => Ok(()),
        None => push_uses(alloc, given.parameter.value, numbers, tasks),
    }
}

/// Meets a parameter; whether it wasn't met before.
fn meet(met: &mut [bool], number: usize) -> bool {
    match met.get_mut(number) {
        Some(met) => {
            let is_new = !*met;
            *met = true;
            is_new
        }
        None => false,
    }
}

/// The next parameter that wasn't met; those that come before it are put into the order.
fn next(walk: &mut Walk) -> Result<Option<usize>, AllocError> {
    while let Some(task) = walk.tasks.pop() {
        match task {
            Visit::Place(number) => walk.order.push(number)?,
            Visit::Visit(number) => {
                if meet(&mut walk.met, number) {
                    return Ok(Some(number));
                }
            }
        }
    }
    Ok(None)
}

/// Looks at the next parameter that wasn't met: it comes behind those that it needs.
fn advance(
    alloc: Global,
    list: &[Given],
    numbers: &Names<usize>,
    walk: &mut Walk,
) -> Result<(), AllocError> {
    let Some(number) = next(walk)? else {
        return Ok(());
    };
    let Some(given) = list.get(number) else {
        return Ok(());
    };
    walk.tasks.push(Visit::Place(number))?;
    push_given_uses(alloc, given, numbers, &mut walk.tasks)
}

/// A walk before its first step, where all parameters, of which there are so many, are left to be looked at.
fn start(alloc: Global, count: usize) -> Result<Walk, AllocError> {
    let mut met = Vec::new(alloc);
    met.resize(count, false)?;
    let mut tasks = Vec::new(alloc);
    for number in (0..count).rev() {
        tasks.push(Visit::Visit(number))?;
    }
    Ok(Walk {
        met,
        tasks,
        order: Vec::new(alloc),
    })
}

/// The numbers of parameters, each behind those that it needs, where it doesn't need itself.
pub(crate) fn order(
    alloc: Global,
    list: &[Given],
    numbers: &Names<usize>,
) -> Result<Vec<usize>, AllocError> {
    let mut walk = start(alloc, list.len())?;
    for _ in 0..list.len().saturating_add(1) {
        advance(alloc, list, numbers, &mut walk)?;
    }
    Ok(walk.order)
}
