//! Left sides of assignments.
ghost use Rattle.std.specs.Prelude.{◌≡◌, true, [], IfOk, IfErr, map};
ghost use Rattle.std.specs.List.{list_all};
ghost use Rattle.vs_widths.specs.Findings.{Refuses};
ghost use Rattle.vs_widths.specs.Names.{meaning_of};
ghost use Rattle.vs_widths.specs.Aiming.{IsTarget};
ghost use Rattle.vs_widths.specs.Lefts.{Aimed, aimed, name_aimed, concat_aimed, is_left, as_left, expr_aimed};
ghost use Rattle.vs_widths.specs.passes.Aims.{Aims, Joins};

use crate::aiming::named_target;
use crate::kinds::AssignmentKind;
use crate::levels::Levels;
use crate::measuring::measured_selects;
use crate::{WidthFault, WidthReason};
use std::alloc::Global;
use vs_design::Target;
use vs_syntax::{Expr, Left};

/// What a left side means as a target of a design (IEEE 1364-2005, clauses 6.1 and 9.2).
pub fn target(
    alloc: Global,
    names: &Levels,
    how: AssignmentKind,
    left: &Left,
) -> Result<Target, WidthFault>
    ensures target { IfOk result (IsTarget how (meaning_of names.now) (aimed how (meaning_of names.now) left.now)) }
    ensures fault { IfErr result (Refuses (aimed how (meaning_of names.now) left.now).finding) }
{
    aim(alloc, names, how, left)
}

/// The target of a declaration assignment: a name alone (IEEE 1364-2005, clauses 6.1.1 and 6.2.1).
pub fn name_target(
    alloc: Global,
    names: &Levels,
    how: AssignmentKind,
    name: &[u8],
) -> Result<Target, WidthFault>
    ensures target { IfOk result (IsTarget how (meaning_of names.now) (name_aimed how (meaning_of names.now name.now) [])) }
    ensures fault { IfErr result (Refuses (name_aimed how (meaning_of names.now name.now) []).finding) }
{
    named_target(alloc, names, how, name, Vec::new(alloc))
}

/// Whether an expression has the form of a left side: a name, a name with selects, or a concatenation of such. An output port is connected
/// to nothing else (IEEE 1364-2005, clause 12.3.9.2).
#[cycle(is_left)]
pub fn is_left(e: &Expr) -> bool
    ensures { result ≡ is_left e.now }
{
    match e {
        Expr::Name(_) => true,
        Expr::Select(_, _) => true,
        Expr::Concat(first, rest) => is_left(first) && are_left(rest),
        _ => false,
    }
}

/// What an expression with the form of a left side means as a target of a design (IEEE 1364-2005, clauses 6.1 and 12.3.9.2).
pub fn expr_target(
    alloc: Global,
    names: &Levels,
    how: AssignmentKind,
    e: &Expr,
) -> Result<Target, WidthFault>
    requires { is_left e.now ≡ true }
    ensures target { IfOk result (IsTarget how (meaning_of names.now) (expr_aimed how (meaning_of names.now) e.now)) }
    ensures fault { IfErr result (Refuses (expr_aimed how (meaning_of names.now) e.now).finding) }
{
    aim_expr(alloc, names, how, e)
}

/// Whether each of some expressions has the form of a left side.
#[cycle(is_left)]
fn are_left(es: &[Expr]) -> bool
    ensures { result ≡ list_all is_left es.now }
{
    for e in es {
        if !is_left(e) {
            return false;
        }
    }
    true
}

/// A left side, by its form.
#[cycle(aim)]
fn aim(
    alloc: Global,
    names: &Levels,
    how: AssignmentKind,
    left: &Left,
) -> Result<Target, WidthFault>
    ensures { Aims how (meaning_of names.now) (aimed how (meaning_of names.now) left.now) result }
{
    match left {
        Left::Name(name, selects) => {
            let selects = measured_selects(alloc, names, selects)?;
            named_target(alloc, names, how, name, selects)
        }
        Left::Concat(first, rest) => {
            let first = aim(alloc, names, how, first)?;
            aim_parts(alloc, names, how, first, rest)
        }
    }
}

/// The first part of a concatenation, and those behind it.
#[cycle(aim)]
fn aim_parts(
    alloc: Global,
    names: &Levels,
    how: AssignmentKind,
    first: Target,
    rest: &[Left],
) -> Result<Target, WidthFault>
    ensures { (m : Aimed) → IsTarget how (meaning_of names.now) m first →
        Aims how (meaning_of names.now) (concat_aimed m (map (aimed how (meaning_of names.now)) rest.now)) result }
{
    let mut all = first;
    for left in rest {
        let part = aim(alloc, names, how, left)?;
        all = joined(all, part)?;
    }
    Ok(all)
}

/// An expression with the form of a left side, by that form.
#[cycle(aim_expr)]
fn aim_expr(
    alloc: Global,
    names: &Levels,
    how: AssignmentKind,
    e: &Expr,
) -> Result<Target, WidthFault>
    requires left { is_left e.now ≡ true }
    ensures { Aims how (meaning_of names.now) (as_left how (meaning_of names.now) e.now) result }
{
    match e {
        Expr::Name(name) => named_target(alloc, names, how, name, Vec::new(alloc)),
        Expr::Select(name, selects) => {
            let selects = measured_selects(alloc, names, selects)?;
            named_target(alloc, names, how, name, selects)
        }
        Expr::Concat(first, rest) => {
            let first = aim_expr(alloc, names, how, first)?;
            aim_exprs(alloc, names, how, first, rest)
        }
        _ => unreachable!(),
    }
}

/// The first part of a concatenation, and those behind it, each with the form of a left side.
#[cycle(aim_expr)]
fn aim_exprs(
    alloc: Global,
    names: &Levels,
    how: AssignmentKind,
    first: Target,
    rest: &[Expr],
) -> Result<Target, WidthFault>
    requires left { list_all (λ b. b) (map is_left rest.now) ≡ true }
    ensures { (m : Aimed) → IsTarget how (meaning_of names.now) m first →
        Aims how (meaning_of names.now) (concat_aimed m (map (as_left how (meaning_of names.now)) rest.now)) result }
{
    let mut whole = first;
    for e in rest {
        let part = aim_expr(alloc, names, how, e)?;
        whole = joined(whole, part)?;
    }
    Ok(whole)
}

/// Two targets beside one another (IEEE 1364-2005, clause 5.1.14). A target has at most as many places as bits: no more than 64.
fn joined(high: Target, low: Target) -> Result<Target, WidthFault>
    ensures { Joins high low result }
{
    if high.width + low.width > 64 {
        return Err(WidthFault::Refused(WidthReason::TooWide));
    }
    let width = high.width + low.width;
    let mut parts = low.parts;
    let mut others = high.parts;
    parts.append(&mut others)?;
    Ok(Target { parts, width })
}
