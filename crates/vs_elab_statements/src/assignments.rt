//! Assignments with their targets as parts of a design.
ghost use Rattle.std.specs.Prelude.{◌≤◌};
ghost use Rattle.vs_widths.specs.Names.{meaning_of};
ghost use Rattle.vs_scopes.specs.vs_widths.specs.Findings.{has_width_fault};
ghost use Rattle.vs_widths.specs.Expressions.{meant, name_meant};
ghost use Rattle.vs_elab_statements.specs.Members.{places, named_signal};
ghost use Rattle.vs_elab_statements.specs.Statements.{assign_fault, IsSource, IsAssignment};
ghost use Rattle.vs_scopes.specs.scopes_passes.Answers.{Elaborates};
ghost use Rattle.vs_scopes.specs.scopes_passes.Sizes.{width_faults};

use std::alloc::Global;
use vs_design::{Target, Typed};
use vs_scopes::BodyFault;
use vs_scopes::vs_widths::Shape;
use vs_syntax::{Expr, Left};
use vs_widths::{
    AssignmentKind, Levels, name_target, shape_of, shape_of_name, target, typed, typed_name,
};

/// The right side of an assignment to a target of this size.
pub fn source(alloc: Global, names: &Levels, width: u32, e: &Expr) -> Result<Typed, BodyFault>
    requires { width ≤ 64 }
    ensures { let env = meaning_of names.now in
        Elaborates (width_faults (λ w. has_width_fault w (meant env e.now).finding))
        (IsSource (meant env e.now) width) result }
{
    let right = shape_of(alloc, names, e)?;
    let context = Shape {
        width: width.max(right.width),
        signed: right.signed,
    };
    Ok(typed(alloc, names, context, e)?)
}

/// What a name means, as the right side of an assignment to a target of this size.
pub fn name_source(
    alloc: Global,
    names: &Levels,
    width: u32,
    name: &[u8],
) -> Result<Typed, BodyFault>
    requires { width ≤ 64 }
    ensures { let m = name_meant (meaning_of names.now name.now) in
        Elaborates (width_faults (λ w. has_width_fault w m.finding)) (IsSource m width) result }
{
    let right = shape_of_name(names, name)?;
    let context = Shape {
        width: width.max(right.width),
        signed: right.signed,
    };
    Ok(typed_name(alloc, names, context, name)?)
}

/// The two sides of an assignment of this kind.
pub fn assignment(
    alloc: Global,
    names: &Levels,
    how: AssignmentKind,
    left: &Left,
    e: &Expr,
) -> Result<(Target, Typed), BodyFault>
    ensures { let env = meaning_of names.now in
        Elaborates (λ r. assign_fault r how env (places left.now) e.now)
        (λ p. IsAssignment how env (places left.now) e.now p.0 p.1) result }
{
    let target = target(alloc, names, how, left)?;
    let source = source(alloc, names, target.width, e)?;
    Ok((target, source))
}

/// The two sides of the declaration assignment of a name.
pub fn declared_assignment(
    alloc: Global,
    names: &Levels,
    how: AssignmentKind,
    name: &[u8],
    e: &Expr,
) -> Result<(Target, Typed), BodyFault>
    ensures { let env = meaning_of names.now in
        Elaborates (λ r. assign_fault r how env (named_signal name.now) e.now)
        (λ p. IsAssignment how env (named_signal name.now) e.now p.0 p.1) result }
{
    let target = name_target(alloc, names, how, name)?;
    let source = source(alloc, names, target.width, e)?;
    Ok((target, source))
}
