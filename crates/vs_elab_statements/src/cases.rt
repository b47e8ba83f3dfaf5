//! The expressions of `case` statements (IEEE 1364-2005, clause 9.5).
ghost use Rattle.std.specs.Prelude.{◌≡◌, ◌∷◌, map};
ghost use Rattle.std.specs.List.{list_any};
ghost use Rattle.vs_scopes.specs.vs_widths.specs.Findings.{Has, together, alike};
ghost use Rattle.vs_widths.specs.Expressions.{meant};
ghost use Rattle.vs_widths.specs.Names.{meaning_of};
ghost use Rattle.vs_scopes.specs.scopes_passes.Answers.{Elaborates};
ghost use Rattle.vs_elab_statements.specs.Statements.{AreTypedAt, operand_fault, label_exprs, common_finding, case_finding, case_fault, is_default, has_two_defaults};
ghost use Rattle.vs_elab_statements.specs.passes.Bodies.{Shapes, IsCase};

use std::alloc::Global;
use vs_design::Typed;
use vs_scopes::vs_widths::{Shape, WidthFault};
use vs_scopes::{BodyFault, Reason};
use vs_syntax::{CaseLabel, Expr, Stmt};
use vs_widths::{Levels, shape_of, typed};

/// A size and a sign with those of an expression in the same context: the larger size, and signed where both are.
fn with_expr(alloc: Global, names: &Levels, shape: Shape, e: &Expr) -> Result<Shape, WidthFault>
    ensures { Shapes (together alike (Has shape.width shape.signed) (meant (meaning_of names.now) e.now).finding) result }
{
    let other = shape_of(alloc, names, e)?;
    Ok(Shape {
        width: shape.width.max(other.width),
        signed: shape.signed && other.signed,
    })
}

/// A size and a sign with those of expressions in the same context.
fn with_exprs(alloc: Global, names: &Levels, shape: Shape, es: &[Expr]) -> Result<Shape, WidthFault>
    ensures { Shapes (common_finding (meaning_of names.now) (Has shape.width shape.signed) es.now) result }
{
    let mut all = shape;
    for e in es {
        all = with_expr(alloc, names, all, e)?;
    }
    Ok(all)
}

/// A size and a sign with those of the expressions of a `case` item.
fn with_label(
    alloc: Global,
    names: &Levels,
    shape: Shape,
    label: &CaseLabel,
) -> Result<Shape, WidthFault>
    ensures { Shapes (common_finding (meaning_of names.now) (Has shape.width shape.signed) (label_exprs label.now)) result }
{
    match label {
        CaseLabel::Expressions(first, others) => {
            let first = with_expr(alloc, names, shape, first)?;
            with_exprs(alloc, names, first, others)
        }
        CaseLabel::Default(_) => Ok(shape),
    }
}

/// The size and the sign of all expressions of a `case`.
fn case_shape(
    alloc: Global,
    names: &Levels,
    e: &Expr,
    items: &[(CaseLabel, Stmt)],
) -> Result<Shape, WidthFault>
    ensures { Shapes (case_finding (meaning_of names.now) e.now (map (λ x. x.0) items.now)) result }
{
    let mut all = shape_of(alloc, names, e)?;
    for (label, _) in items {
        all = with_label(alloc, names, all, label)?;
    }
    Ok(all)
}

/// Whether what stands before a `case` item is `default`.
fn is_default(label: &CaseLabel) -> bool
    ensures { result ≡ is_default label.now }
{
    match label {
        CaseLabel::Expressions(_, _) => false,
        CaseLabel::Default(_) => true,
    }
}

/// Whether more than one of these items is a `default`.
fn has_two_defaults(items: &[(CaseLabel, Stmt)]) -> bool
    ensures { result ≡ has_two_defaults (map (λ x. x.0) items.now) }
{
    let mut seen = false;
    for (label, _) in items {
        if is_default(label) {
            if seen {
                return true;
            }
            seen = true;
        }
    }
    false
}

/// The expression of a `case`, at the size and the sign of all its expressions, and those.
pub fn case_operand(
    alloc: Global,
    names: &Levels,
    e: &Expr,
    items: &[(CaseLabel, Stmt)],
) -> Result<(Shape, Typed), BodyFault>
    ensures { let env = meaning_of names.now in
        Elaborates (λ r. case_fault r env e.now (map (λ x. x.0) items.now))
        (λ p. IsCase env e.now (map (λ x. x.0) items.now) p.0 p.1) result }
{
    if has_two_defaults(items) {
        return Err(BodyFault::Refused(Reason::DeclaredTwice));
    }
    let shape = case_shape(alloc, names, e, items)?;
    let value = typed(alloc, names, shape, e)?;
    Ok((shape, value))
}

/// Expressions at a size and a sign.
fn values(
    alloc: Global,
    names: &Levels,
    shape: Shape,
    first: &Expr,
    others: &[Expr],
) -> Result<Vec<Typed>, BodyFault>
    ensures { let env = meaning_of names.now in
        Elaborates (λ r. list_any (operand_fault r env) (first.now ∷ others.now))
        (λ v. AreTypedAt env shape.width shape.signed (first.now ∷ others.now) v.items) result }
{
    let mut done = Vec::with_capacity(alloc, 1)?;
    let one = typed(alloc, names, shape, first)?;
    done.push(one)?;
    for e in others {
        let one = typed(alloc, names, shape, e)?;
        done.push(one)?;
    }
    Ok(done)
}

/// The expressions of a `case` item, at a size and a sign; a `default` has none.
pub fn label_values(
    alloc: Global,
    names: &Levels,
    shape: Shape,
    label: &CaseLabel,
) -> Result<Vec<Typed>, BodyFault>
    ensures { let env = meaning_of names.now in
        Elaborates (λ r. list_any (operand_fault r env) (label_exprs label.now))
        (λ v. AreTypedAt env shape.width shape.signed (label_exprs label.now) v.items) result }
{
    match label {
        CaseLabel::Expressions(first, others) => values(alloc, names, shape, first, others),
        CaseLabel::Default(_) => Ok(Vec::new(alloc)),
    }
}
