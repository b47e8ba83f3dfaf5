//! The map of the text of a process: its places, and where each leads.
ghost use Rattle.std.specs.Prelude.{ℕ, ◌≡◌, ◌++◌, ◌∷◌, [], true, false, Some, map, length, slice_get, IfOk, OnOk};
ghost use Rattle.std.specs.List.{list_any};
ghost use Rattle.vs_design.specs.WellFormed.{numbers, counts_from};
ghost use Rattle.vs_process.specs.Extras.{starts_in, starts_of};
ghost use Rattle.vs_process.specs.Steps.{is_default};
ghost use Rattle.vs_process.specs.Ways.{ways, way_on, past_ways, task_ways};
ghost use Rattle.vs_process.specs.Stops.{inside, tos_in, task_statement, stop_view, stop_of, IsText};

use crate::code::Code;
use crate::draft::{Extra, Op, Task};
use std::alloc::{AllocError, Global};
use vs_design::{Statement, Typed};

/// A place of a map.
#[derive(Drop)]
pub struct Stop<'a> {
    /// The statement that is done there. There is none at a later test of a `repeat`.
    pub statement: Option<&'a Statement>,
    /// The place of what is left to be done without it.
    pub behind: usize,
    /// The places where it leads.
    pub tos: Vec<usize>,
}

/// A map of the text of a process.
#[derive(Drop)]
pub struct TextMap<'a> {
    /// Its places, from number 1 on; place 0 is the end.
    pub stops: Vec<Stop<'a>>,
    /// The place where it starts.
    pub start: usize,
}

// A place of a code, or its end where there is none.
fn inside(n: usize, place: usize) -> usize
    ensures { result ≡ inside n place }
{
    if place <= n { place } else { 0 }
}

// Puts a place where an instruction leads.
fn push_to(tos: &mut Vec<usize>, n: usize, place: usize) -> Result<(), AllocError>
    ensures { OnOk result (tos.new.items ≡ tos.old.items ++ tos_in n (way_on place ∷ [])) }
{
    tos.push(inside(n, place))?;
    Ok(())
}

// Puts the places where the items of a `case` start.
fn push_starts(tos: &mut Vec<usize>, n: usize, extra: &Extra) -> Result<(), AllocError>
    ensures { OnOk result (tos.new.items ≡ tos.old.items ++ tos_in n (map way_on (starts_of extra.now))) }
{
    if let Extra::Starts(starts) = extra {
        for start in starts {
            push_to(tos, n, *start)?;
        }
    }
    Ok(())
}

// Whether one of the items of a `case` is a `default`.
fn has_default(items: &[(Vec<Typed>, Statement)]) -> bool
    ensures { result ≡ list_any is_default items.now }
{
    items.iter().any(|i| i.0.is_empty())
}

// The places where an instruction leads.
fn tos_of(alloc: Global, n: usize, op: &Op) -> Result<Vec<usize>, AllocError>
    ensures { IfOk result (λ tos. tos.items ≡ tos_in n (task_ways op.now op.now.task)) }
{
    let mut tos = Vec::new(alloc);
    match &op.task {
        Task::Perform(s) => match s {
            Statement::Null(_)
            | Statement::Assign(_, _, _)
            | Statement::Later(_, _, _, _)
            | Statement::Call(_, _)
            | Statement::Finish(_) => push_to(&mut tos, n, op.behind)?,
            Statement::Block(_)
            | Statement::Delay(_, _, _)
            | Statement::Event(_, _, _)
            | Statement::Forever(_, _) => push_to(&mut tos, n, op.first)?,
            Statement::If(_, _, _, _) => {
                push_to(&mut tos, n, op.first)?;
                push_to(&mut tos, n, op.second)?;
            }
            Statement::Case(_, _, _, items) => {
                push_starts(&mut tos, n, &op.extra)?;
                if !has_default(items) {
                    push_to(&mut tos, n, op.behind)?;
                }
            }
            Statement::While(_, _, _) | Statement::Repeat(_, _, _, _) => {
                push_to(&mut tos, n, op.first)?;
                push_to(&mut tos, n, op.behind)?;
            }
        },
        Task::Turns(_) => {
            push_to(&mut tos, n, op.first)?;
            push_to(&mut tos, n, op.behind)?;
        }
    }
    Ok(tos)
}

// The place of an instruction.
fn stop_of<'a>(alloc: Global, n: usize, op: &Op<'a>) -> Result<Stop<'a>, AllocError>
    ensures { IfOk result (λ s. stop_view s ≡ stop_of n op.now) }
{
    let tos = tos_of(alloc, n, op)?;
    let statement = match &op.task {
        Task::Perform(s) => Some(*s),
        Task::Turns(_) => None,
    };
    Ok(Stop {
        statement,
        behind: op.behind,
        tos,
    })
}

// The places of a code.
fn stops_of<'a>(alloc: Global, ops: &[Op<'a>]) -> Result<Vec<Stop<'a>>, AllocError>
    ensures { IfOk result (λ stops. map stop_view stops.items ≡ map (stop_of (length ops.now)) ops.now) }
{
    let mut stops = Vec::new(alloc);
    for op in ops {
        let stop = stop_of(alloc, ops.len(), op)?;
        stops.push(stop)?;
    }
    Ok(stops)
}

impl<'a> TextMap<'a> {
    /// The map of the text of a process.
    pub fn of(alloc: Global, code: &'a Code<'a>) -> Result<TextMap<'a>, AllocError>
        requires { counts_from 0 (numbers code.now) ≡ true }
        ensures { IfOk result (λ t. IsText code.entry.now (map stop_view t.stops.items) t.start) }
    {
        let (ops, _, start) = code.parts();
        let stops = stops_of(alloc, ops)?;
        let start = inside(ops.len(), start);
        Ok(TextMap { stops, start })
    }
}
