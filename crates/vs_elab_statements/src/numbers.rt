//! The numbers of statements, and assignments with theirs.
ghost use Rattle.std.specs.Prelude.{◌≡◌, length, IfErr, MatchResult};
ghost use Rattle.vs_elab_statements.specs.vs_scopes.specs.Printed.{Path};
ghost use Rattle.vs_elab_statements.specs.Surroundings.{Surroundings};
ghost use Rattle.vs_elab_statements.specs.passes.Faults.{IsBelow};
ghost use Rattle.vs_elab_statements.specs.passes.Views.{IsView};
ghost use Rattle.vs_elab_statements.specs.passes.Bodies.{Answers, IsNumbered, numbered_burden};
ghost use Rattle.vs_elab_statements.specs.forms_passes.Forms.{TakesOne, TakesOneNot};

use crate::vs_widths::AssignmentKind;
use crate::{StatementFault, View, assignment};
use std::alloc::Global;
use vs_design::{Target, Typed};
use vs_syntax::{Expr, Left};

/// The kind of an assignment that is a statement.
pub const PROCEDURAL: AssignmentKind = AssignmentKind::Procedural;

/// The number of a statement, which is the next one.
pub fn take_number(next: &mut u32) -> Result<u32, StatementFault>
    ensures { MatchResult result (λ number. (number ≡ next.old) × TakesOne next.old next.new) (TakesOneNot next.old) }
{
    let number = *next;
    match number.checked_add(1) {
        Some(more) => {
            *next = more;
            Ok(number)
        }
        None => Err(StatementFault::Overfull),
    }
}

/// The number of an assignment, which is the next one, and its two sides.
pub fn numbered(
    alloc: Global,
    view: &View,
    next: &mut u32,
    left: &Left,
    e: &Expr,
) -> Result<(u32, Target, Typed), StatementFault>
    ensures answer { (envs : Path → Surroundings) (p : Path) → IsView view.now envs p →
        Answers view.now.list.now envs p (numbered_burden (envs p) next.old left.now e.now)
        (λ q. IsNumbered (envs p) next.old left.now e.now q.0 q.1 q.2 next.new) result }
    ensures below { IfErr result (IsBelow (length view.now.list.now)) }
{
    let number = take_number(next)?;
    let (target, source) = assignment(alloc, view.names, PROCEDURAL, left, e)?;
    Ok((number, target, source))
}
