//! The bodies of processes (IEEE 1364-2005, clauses 6.2.1 and 9.9).
ghost use Rattle.std.specs.Prelude.{length, IfErr};
ghost use Rattle.vs_elab_statements.specs.vs_scopes.specs.Printed.{Path};
ghost use Rattle.vs_elab_statements.specs.Members.{named_signal, sets, runs, repeats};
ghost use Rattle.vs_elab_statements.specs.Surroundings.{Surroundings};
ghost use Rattle.vs_elab_statements.specs.passes.Faults.{IsBelow};
ghost use Rattle.vs_elab_statements.specs.passes.Views.{IsView, IsPlaced};
ghost use Rattle.vs_elab_statements.specs.passes.Bodies.{Embodies};
ghost use Rattle.vs_scopes.specs.Pieces.{blocks_in};
ghost use Rattle.vs_elab_statements.specs.Blocks.{HaveScopes};

use crate::statements::statement;
use crate::{PROCEDURAL, StatementFault, View, declared_assignment, take_number};
use std::alloc::Global;
use vs_design::Statement;
use vs_syntax::{Expr, Stmt};

/// The body of a process that sets a variable to the value in its declaration.
pub fn set_body(
    alloc: Global,
    view: &View,
    target: &[u8],
    value: &Expr,
) -> Result<Statement, StatementFault>
    ensures answer { (envs : Path → Surroundings) (p : Path) → IsView view.now envs p →
        Embodies view.now.list.now envs p (sets (record { target = named_signal target.now; value = value.now })) result }
    ensures below { IfErr result (IsBelow (length view.now.list.now)) }
{
    let (target, source) = declared_assignment(alloc, view.names, PROCEDURAL, target, value)?;
    Ok(Statement::Assign(0, target, source))
}

/// The body of a process that runs a statement once. The named blocks in it have their scopes in the list.
pub fn run_body(alloc: Global, view: &View, s: &Stmt) -> Result<Statement, StatementFault>
    requires placed { IsPlaced view.now.list.now view.now.place }
    requires blocks { HaveScopes view.now.list.now view.now.place (blocks_in s.now) }
    ensures answer { (envs : Path → Surroundings) (p : Path) → IsView view.now envs p →
        Embodies view.now.list.now envs p (runs s.now) result }
    ensures below { IfErr result (IsBelow (length view.now.list.now)) }
{
    let mut next = 0;
    statement(alloc, view, &mut next, s)
}

/// The body of a process that runs a statement for ever. The named blocks in it have their scopes in the list.
pub fn repeat_body(alloc: Global, view: &View, s: &Stmt) -> Result<Statement, StatementFault>
    requires placed { IsPlaced view.now.list.now view.now.place }
    requires blocks { HaveScopes view.now.list.now view.now.place (blocks_in s.now) }
    ensures answer { (envs : Path → Surroundings) (p : Path) → IsView view.now envs p →
        Embodies view.now.list.now envs p (repeats s.now) result }
    ensures below { IfErr result (IsBelow (length view.now.list.now)) }
{
    let mut next = 0;
    let number = take_number(&mut next)?;
    let body = statement(alloc, view, &mut next, s)?;
    Ok(Statement::Forever(number, Box::new(alloc, body)?))
}
