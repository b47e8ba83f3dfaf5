//! Statements around others that are made already (IEEE 1364-2005, clauses 9.4, 9.6 and 9.7).
ghost use Rattle.std.specs.Prelude.{ℕ, List, Option, length, IfOk, IfErr};
ghost use Rattle.std.specs.declared.boxed.Box.{Box};
ghost use Rattle.std.specs.declared.alloc.Global.{Global};
ghost use Rattle.vs_syntax.specs.declared.tree.Stmt.{Stmt};
ghost use Rattle.vs_syntax.specs.declared.tree.Stmt.TheVariants as form;
ghost use Rattle.vs_elab_statements.specs.vs_scopes.specs.Printed.{Path};
ghost use Rattle.vs_elab_statements.specs.vs_elab_signals.specs.declared.opened.ElabScope.{ElabScope as FoundScope};
ghost use Rattle.vs_elab_statements.specs.Surroundings.{Surroundings};
ghost use Rattle.vs_elab_statements.specs.passes.Faults.{IsBelow};
ghost use Rattle.vs_elab_statements.specs.passes.Views.{IsView};
ghost use Rattle.vs_elab_statements.specs.passes.Bodies.{Answers, MeansStatement, IsRepeated, statement_burden};
ghost use Rattle.vs_elab_statements.specs.forms_passes.Forms.{IsBegun, IsNumberedBody, IsOtherwise};

use crate::numbers::numbered;
use crate::{StatementFault, View, delay, event_terms, operand};
use std::alloc::{AllocError, Global};
use vs_design::{Statement, Target, Typed};
use vs_syntax::{DelayValue, EventControl, Expr, ForHeader};

/// An `if` of a condition, around its number with the statement behind the condition, and around what stands behind `else` (IEEE 1364-2005,
/// clause 9.4).
#[inline(never)]
pub fn if_around(
    alloc: Global,
    view: &View,
    e: &Box<Expr>,
    inner: (u32, Statement),
    other: Statement,
) -> Result<Statement, StatementFault>
    ensures answer { (envs : Path → Surroundings) (p : Path) (first middle next : ℕ) (x : Box Stmt Global) (o : Option (Box Stmt Global)) →
        IsView view.now envs p → IsNumberedBody envs p first x.value inner.0 inner.1 middle → IsOtherwise envs p middle o other next →
        Answers view.now.list.now envs p (statement_burden (envs p) first (form.If e.now x o))
        (λ d. MeansStatement envs p first (form.If e.now x o) d next) result }
    ensures below { IfErr result (IsBelow (length view.now.list.now)) }
{
    let (number, inner) = inner;
    let (_, condition) = operand(alloc, view.names, e)?;
    let first = Box::new(alloc, inner)?;
    let second = Box::new(alloc, other)?;
    Ok(Statement::If(number, condition, first, second))
}

/// A `while` of a condition, around its number with the statement behind it (IEEE 1364-2005, clause 9.6).
#[inline(never)]
pub fn while_around(
    alloc: Global,
    view: &View,
    e: &Expr,
    inner: (u32, Statement),
) -> Result<Statement, StatementFault>
    ensures answer { (envs : Path → Surroundings) (p : Path) (first next : ℕ) (x : Box Stmt Global) →
        IsView view.now envs p → IsNumberedBody envs p first x.value inner.0 inner.1 next →
        Answers view.now.list.now envs p (statement_burden (envs p) first (form.While e.now x))
        (λ d. MeansStatement envs p first (form.While e.now x) d next) result }
    ensures below { IfErr result (IsBelow (length view.now.list.now)) }
{
    let (number, inner) = inner;
    let (_, condition) = operand(alloc, view.names, e)?;
    Ok(Statement::While(number, condition, Box::new(alloc, inner)?))
}

/// A `repeat` of a count, around its number with the statement behind it (IEEE 1364-2005, clause 9.6).
#[inline(never)]
pub fn repeat_around(
    alloc: Global,
    view: &View,
    e: &Expr,
    inner: (u32, Statement),
) -> Result<Statement, StatementFault>
    ensures answer { (envs : Path → Surroundings) (p : Path) (first next : ℕ) (x : Box Stmt Global) →
        IsView view.now envs p → IsNumberedBody envs p first x.value inner.0 inner.1 next →
        Answers view.now.list.now envs p (statement_burden (envs p) first (form.Repeat e.now x))
        (λ d. MeansStatement envs p first (form.Repeat e.now x) d next) result }
    ensures below { IfErr result (IsBelow (length view.now.list.now)) }
{
    let (number, inner) = inner;
    let (signed, count) = operand(alloc, view.names, e)?;
    Ok(Statement::Repeat(number, signed, count, Box::new(alloc, inner)?))
}

/// A `forever`, around its number with the statement behind it (IEEE 1364-2005, clause 9.6).
#[inline(never)]
pub fn forever_around(alloc: Global, inner: (u32, Statement)) -> Result<Statement, StatementFault>
    ensures answer { (list : List FoundScope) (envs : Path → Surroundings) (p : Path) (first next : ℕ) (x : Box Stmt Global) →
        IsNumberedBody envs p first x.value inner.0 inner.1 next →
        Answers list envs p (statement_burden (envs p) first (form.Forever x))
        (λ d. MeansStatement envs p first (form.Forever x) d next) result }
    ensures below { (n : ℕ) → IfErr result (IsBelow n) }
{
    let (number, inner) = inner;
    Ok(Statement::Forever(number, Box::new(alloc, inner)?))
}

/// A delay, around its number with the statement behind it (IEEE 1364-2005, clause 9.7.1).
#[inline(never)]
pub fn delay_around(
    alloc: Global,
    view: &View,
    value: &DelayValue,
    inner: (u32, Statement),
) -> Result<Statement, StatementFault>
    ensures answer { (envs : Path → Surroundings) (p : Path) (first next : ℕ) (x : Box Stmt Global) →
        IsView view.now envs p → IsNumberedBody envs p first x.value inner.0 inner.1 next →
        Answers view.now.list.now envs p (statement_burden (envs p) first (form.Delay value.now x))
        (λ d. MeansStatement envs p first (form.Delay value.now x) d next) result }
    ensures below { IfErr result (IsBelow (length view.now.list.now)) }
{
    let (number, inner) = inner;
    let ticks = delay(alloc, view.names, view.ratio.ticks, value)?;
    Ok(Statement::Delay(number, ticks, Box::new(alloc, inner)?))
}

/// An event control, around its number with the statement behind it (IEEE 1364-2005, clause 9.7.2).
#[inline(never)]
pub fn event_around(
    alloc: Global,
    view: &View,
    control: &EventControl,
    inner: (u32, Statement),
) -> Result<Statement, StatementFault>
    ensures answer { (envs : Path → Surroundings) (p : Path) (first next : ℕ) (x : Box Stmt Global) →
        IsView view.now envs p → IsNumberedBody envs p first x.value inner.0 inner.1 next →
        Answers view.now.list.now envs p (statement_burden (envs p) first (form.Event control.now x))
        (λ d. MeansStatement envs p first (form.Event control.now x) d next) result }
    ensures below { IfErr result (IsBelow (length view.now.list.now)) }
{
    let (number, inner) = inner;
    let terms = event_terms(alloc, view.names, control, &inner)?;
    Ok(Statement::Event(number, terms, Box::new(alloc, inner)?))
}

/// A `for` of these parts: its first assignment, and then a `while`, whose body ends with its second assignment
/// (IEEE 1364-2005, clause 9.6).
fn repeated(
    alloc: Global,
    begin: Statement,
    number: u32,
    condition: Typed,
    body: Statement,
    step: Statement,
) -> Result<Statement, AllocError>
    ensures { IfOk result (IsRepeated begin number condition body step) }
{
    let mut inner = Vec::with_capacity(alloc, 2)?;
    inner.push(body)?;
    inner.push(step)?;
    let body = Box::new(alloc, Statement::Block(inner))?;
    let mut all = Vec::with_capacity(alloc, 2)?;
    all.push(begin)?;
    all.push(Statement::While(number, condition, body))?;
    Ok(Statement::Block(all))
}

/// A `for`, around its first assignment and around the number of its `while` with the statement behind it: its condition and its second
/// assignment, in this order (IEEE 1364-2005, clause 9.6).
#[inline(never)]
pub fn for_around(
    alloc: Global,
    view: &View,
    next: &mut u32,
    head: &Box<ForHeader>,
    begin: (u32, Target, Typed),
    inner: (u32, Statement),
) -> Result<Statement, StatementFault>
    ensures answer { (envs : Path → Surroundings) (p : Path) (first middle : ℕ) (x : Box Stmt Global) → IsView view.now envs p →
        IsBegun envs p first head.now.value.first.0 head.now.value.first.1 begin.0 begin.1 begin.2 middle →
        IsNumberedBody envs p middle x.value inner.0 inner.1 next.old →
        Answers view.now.list.now envs p (statement_burden (envs p) first (form.For head.now x))
        (λ d. MeansStatement envs p first (form.For head.now x) d next.new) result }
    ensures below { IfErr result (IsBelow (length view.now.list.now)) }
{
    let (number, body) = inner;
    let (_, condition) = operand(alloc, view.names, &head.condition)?;
    let (last, target, source) = numbered(alloc, view, next, &head.step.0, &head.step.1)?;
    let step = Statement::Assign(last, target, source);
    let (first, target, source) = begin;
    let begin = Statement::Assign(first, target, source);
    Ok(repeated(alloc, begin, number, condition, body, step)?)
}
