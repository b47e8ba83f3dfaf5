//! Statements that hold no others (IEEE 1364-2005, clauses 9.2 and 17).
ghost use Rattle.std.specs.Prelude.{◌≡◌, length, IfErr, MatchResult};
ghost use Rattle.vs_syntax.specs.declared.tree.Stmt.TheVariants as form;
ghost use Rattle.vs_design.specs.declared.statement.Statement.TheVariants as made;
ghost use Rattle.vs_elab_statements.specs.vs_scopes.specs.Printed.{Path};
ghost use Rattle.vs_elab_statements.specs.Surroundings.{Surroundings};
ghost use Rattle.vs_elab_statements.specs.passes.Faults.{IsBelow};
ghost use Rattle.vs_elab_statements.specs.passes.Views.{IsView, IsPlaced};
ghost use Rattle.vs_elab_statements.specs.passes.Bodies.{Answers, MeansStatement, statement_burden};
ghost use Rattle.vs_elab_statements.specs.forms_passes.Forms.{TakesOne, TakesOneNot};

use crate::numbers::{numbered, take_number};
use crate::{StatementFault, View, call, due};
use std::alloc::Global;
use vs_design::Statement;
use vs_syntax::{DelayValue, Expr, Left, PrintArguments, PrintTask};

/// A statement that does nothing: `;` alone, or a task of a dump, which changes nothing in a run. It has the next number.
#[inline(never)]
pub fn null(next: &mut u32) -> Result<Statement, StatementFault>
    ensures { MatchResult result (λ y. (y ≡ made.Null next.old) × TakesOne next.old next.new) (TakesOneNot next.old) }
{
    let number = take_number(next)?;
    Ok(Statement::Null(number))
}

/// A call of `$finish`, which has the next number (IEEE 1364-2005, clause 17.4.1).
#[inline(never)]
pub fn finish(next: &mut u32) -> Result<Statement, StatementFault>
    ensures { MatchResult result (λ y. (y ≡ made.Finish next.old) × TakesOne next.old next.new) (TakesOneNot next.old) }
{
    let number = take_number(next)?;
    Ok(Statement::Finish(number))
}

/// A blocking assignment, which has the next number (IEEE 1364-2005, clause 9.2.1).
#[inline(never)]
pub fn assign(
    alloc: Global,
    view: &View,
    next: &mut u32,
    left: &Box<Left>,
    e: &Expr,
) -> Result<Statement, StatementFault>
    ensures answer { (envs : Path → Surroundings) (p : Path) → IsView view.now envs p →
        Answers view.now.list.now envs p (statement_burden (envs p) next.old (form.Assign left.now e.now))
        (λ d. MeansStatement envs p next.old (form.Assign left.now e.now) d next.new) result }
    ensures below { IfErr result (IsBelow (length view.now.list.now)) }
{
    let (number, target, source) = numbered(alloc, view, next, left, e)?;
    Ok(Statement::Assign(number, target, source))
}

/// A nonblocking assignment, which has the next number (IEEE 1364-2005, clause 9.2.2).
#[inline(never)]
pub fn later(
    alloc: Global,
    view: &View,
    next: &mut u32,
    left: &Box<Left>,
    value: &Option<DelayValue>,
    e: &Box<Expr>,
) -> Result<Statement, StatementFault>
    ensures answer { (envs : Path → Surroundings) (p : Path) → IsView view.now envs p →
        Answers view.now.list.now envs p (statement_burden (envs p) next.old (form.Later left.now value.now e.now))
        (λ d. MeansStatement envs p next.old (form.Later left.now value.now e.now) d next.new) result }
    ensures below { IfErr result (IsBelow (length view.now.list.now)) }
{
    let (number, target, source) = numbered(alloc, view, next, left, e)?;
    let ticks = due(alloc, view.names, view.ratio.ticks, value)?;
    Ok(Statement::Later(number, ticks, target, source))
}

/// A call of `$display` or `$strobe`, which has the next number (IEEE 1364-2005, clause 17.1).
#[inline(never)]
pub fn print(
    alloc: Global,
    view: &View,
    next: &mut u32,
    task: PrintTask,
    all: &PrintArguments,
) -> Result<Statement, StatementFault>
    requires { IsPlaced view.now.list.now view.now.place }
    ensures answer { (envs : Path → Surroundings) (p : Path) → IsView view.now envs p →
        Answers view.now.list.now envs p (statement_burden (envs p) next.old (form.Print task all.now))
        (λ d. MeansStatement envs p next.old (form.Print task all.now) d next.new) result }
    ensures below { IfErr result (IsBelow (length view.now.list.now)) }
{
    let number = take_number(next)?;
    let made = call(alloc, view, task, all)?;
    Ok(Statement::Call(number, made))
}
