//! Where a process that is run alone stands in its flat code.
ghost use Rattle.std.specs.Prelude.{◌≡◌, ℕ, List, length, IfOk, OnOk, OnErr, MatchOption};
ghost use Rattle.vs_design.specs.Stores.{put};
ghost use Rattle.vs_process.specs.Changes.{store_after};
ghost use Rattle.vs_process.specs.Codes.{job_of, todo_in, IsCode, IsOpAt, IsEnd};
ghost use Rattle.vs_process.specs.Landings.{landing, lands, next_of, statement_lands, EndsSo};
ghost use Rattle.vs_process.specs.Links.{item_of};
ghost use Rattle.vs_process.specs.Places.{perform, flat};
ghost use Rattle.vs_process.specs.Steps.{assignment, has_nothing, step};

use crate::choices::{branch, start_taken, starts_of, turn, turns_for};
use crate::code::Code;
use crate::draft::{Op, Task};
use crate::halt::Halt;
use std::alloc::{AllocError, Global};
use std::marker::Model;
use vs_design::{Statement, Store, Target, Typed};
use vs_strobe::vs_eval::{cut_value, write_of};

/// Where a process stands in its code, with the counters of its statements `repeat`. A contract sees it as what the process still
/// has to do.
#[derive(Drop)]
pub struct Cursor<'a> {
    ops: &'a [Op<'a>],
    place: usize,
    counters: Vec<u64>,
}

impl<'a> Model for Cursor<'a> {
    ghost use Rattle.std.specs.Prelude.{length};
    ghost use Rattle.std.specs.Coded.{codes};
    ghost use Rattle.vs_design.specs.contracts.statement.Statement as statement;
    ghost use Rattle.vs_process.specs.Places.{Todo};
    ghost use Rattle.vs_process.specs.Codes.{todo_in, IsCode};

    ghost Value = { Todo };

    ghost coded = { Prim.hlevel (codes, statement.the_row.coded) };

    ghost view = { λ c. todo_in c.ops.now c.counters.items c.place };

    ghost invariant = { λ c. IsCode c.ops.now (length c.counters.items) };
}

// The instruction at a place, where it isn't the end.
fn op_at<'a>(ops: &'a [Op<'a>], place: usize) -> Option<&'a Op<'a>>
    ensures { MatchOption result (IsEnd ops.entry.now place) (λ x. IsOpAt ops.entry.now place x.now) }
{
    if place == 0 {
        return None;
    }
    if place > ops.len() {
        return None;
    }
    Some(&ops[place - 1])
}

// Whether a place is the end.
fn is_end<'a>(ops: &'a [Op<'a>], place: usize) -> bool
    ensures { (counters : List ℕ) → result ≡ has_nothing (todo_in ops.now counters place) }
{
    match op_at(ops, place) {
        Some(_) => false,
        None => true,
    }
}

// The blocking assignment of an expression.
fn assign(
    alloc: Global,
    target: &Target,
    e: &Typed,
    store: &mut Store,
    time: u64,
) -> Result<(), AllocError>
    ensures store { OnOk result (store.new ≡ put store.old (assignment target.now e.now store.old time)) }
    ensures store_kept { OnErr result (store.new ≡ store.old) }
{
    let digits = cut_value(target, e, store, time);
    let write = write_of(alloc, target, digits, store, time)?;
    store.put(&write);
    Ok(())
}

// The step of a statement: how it ends, and where it leads.
fn perform<'a>(
    alloc: Global,
    op: &'a Op<'a>,
    s: &'a Statement,
    counters: &mut Vec<u64>,
    store: &mut Store,
    time: u64,
) -> Result<(Halt<'a>, usize), AllocError>
    ensures lands { IfOk result (λ r. landing r.1 counters.new.items
        ≡ statement_lands op.entry.now s.entry.now counters.old.items store.old time) }
    ensures ends { IfOk result (λ r. EndsSo (perform s.entry.now) store.old time r.0 store.new) }
    ensures counters_kept { OnErr result (counters.new.items ≡ counters.old.items) }
    ensures store_kept { OnErr result (store.new ≡ store.old) }
{
    match s {
        Statement::Null(_) => Ok((Halt::Nothing, op.behind)),
        Statement::Assign(_, target, e) => {
            assign(alloc, target, e, store, time)?;
            Ok((Halt::Nothing, op.behind))
        }
        Statement::Later(_, _, _, _) => Ok((Halt::Nothing, op.behind)),
        Statement::Call(_, _) => Ok((Halt::Nothing, op.behind)),
        Statement::Finish(_) => Ok((Halt::Nothing, op.behind)),
        Statement::Block(_) => Ok((Halt::Nothing, op.first)),
        Statement::Delay(n, ticks, _) => Ok((Halt::Delay(*n, *ticks), op.first)),
        Statement::Event(n, terms, _) => Ok((Halt::Wait(*n, terms), op.first)),
        Statement::If(_, e, _, _) => {
            let place = branch(e, store, time, op.first, op.second);
            Ok((Halt::Nothing, place))
        }
        Statement::Case(_, kind, e, items) => {
            let starts = starts_of(&op.extra);
            let place = start_taken(*kind, e, store, time, items, starts, op.behind);
            Ok((Halt::Nothing, place))
        }
        Statement::While(_, e, _) => {
            let place = branch(e, store, time, op.first, op.behind);
            Ok((Halt::Nothing, place))
        }
        Statement::Repeat(_, signed, e, _) => {
            let left = turns_for(*signed, e, store, time);
            let place = turn(op, counters, left);
            Ok((Halt::Nothing, place))
        }
        Statement::Forever(_, _) => Ok((Halt::Nothing, op.first)),
    }
}

// The step of an instruction: how it ends, and where it leads.
fn run<'a>(
    alloc: Global,
    op: &'a Op<'a>,
    counters: &mut Vec<u64>,
    store: &mut Store,
    time: u64,
) -> Result<(Halt<'a>, usize), AllocError>
    ensures lands { IfOk result (λ r. landing r.1 counters.new.items
        ≡ lands op.entry.now op.entry.now.task counters.old.items store.old time) }
    ensures ends { IfOk result (λ r.
        EndsSo (item_of counters.old.items (job_of op.entry.now.counter op.entry.now.task)) store.old time r.0 store.new) }
    ensures counters_kept { OnErr result (counters.new.items ≡ counters.old.items) }
    ensures store_kept { OnErr result (store.new ≡ store.old) }
{
    match op.task {
        Task::Perform(s) => perform(alloc, op, s, counters, store, time),
        Task::Turns(_) => {
            let left = counters.get(op.counter).copied().unwrap_or(0);
            let place = turn(op, counters, left);
            Ok((Halt::Nothing, place))
        }
    }
}

// The step at a place of a code, which may be its end: how it ends, and where it leads.
fn step<'a>(
    alloc: Global,
    ops: &'a [Op<'a>],
    counters: &mut Vec<u64>,
    place: usize,
    store: &mut Store,
    time: u64,
) -> Result<(Halt<'a>, usize), AllocError>
    requires code { IsCode ops.now (length counters.old.items) }
    ensures code { IsCode ops.entry.now (length counters.new.items) }
    ensures next { IfOk result (λ r. (step (todo_in ops.entry.now counters.old.items place) store.old time).next
        ≡ next_of r.0 (todo_in ops.entry.now counters.new.items r.1)) }
    ensures store { OnOk result (store.new
        ≡ store_after store.old (step (todo_in ops.entry.now counters.old.items place) store.old time).write) }
    ensures counters_kept { OnErr result (counters.new.items ≡ counters.old.items) }
    ensures store_kept { OnErr result (store.new ≡ store.old) }
{
    let Some(op) = op_at(ops, place) else {
        return Ok((Halt::Nothing, place));
    };
    run(alloc, op, counters, store, time)
}

impl<'a> Cursor<'a> {
    /// The start of a process with this code.
    pub fn start(alloc: Global, code: &'a Code<'a>) -> Result<Self, AllocError>
        ensures { IfOk result (λ cursor. cursor ≡ flat code.entry.now) }
    {
        let (ops, counters, place) = code.parts();
        let counters = vec![in alloc; 0; counters]?;
        Ok(Cursor {
            ops,
            place,
            counters,
        })
    }

    /// Whether the process has nothing left to do.
    pub fn is_empty(&self) -> bool
        ensures { result ≡ has_nothing self.now }
    {
        is_end(self.ops, self.place)
    }

    /// One step of the process (IEEE 1364-2005, clauses 9.2 and 9.4 to 9.7) at `time`, in ticks, which it takes alone: how it ends. The write of a
    /// blocking assignment is made in the store; a nonblocking update, what a call prints and a `$finish` are left out. A process with nothing left to
    /// do stays where it is. Without memory the place and the store are as they were.
    pub fn step(
        &mut self,
        alloc: Global,
        store: &mut Store,
        time: u64,
    ) -> Result<Halt<'a>, AllocError>
        ensures next { IfOk result (λ halt. (step self.old store.old time).next ≡ next_of halt self.new) }
        ensures store { OnOk result (store.new ≡ store_after store.old (step self.old store.old time).write) }
        ensures place_kept { OnErr result (self.new ≡ self.old) }
        ensures store_kept { OnErr result (store.new ≡ store.old) }
    {
        let (halt, place) = step(alloc, self.ops, &mut self.counters, self.place, store, time)?;
        self.place = place;
        Ok(halt)
    }
}
