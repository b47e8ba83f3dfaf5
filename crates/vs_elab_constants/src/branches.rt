//! The branches of generate constructs.
ghost use Rattle.std.specs.Prelude.{◌≡◌};
ghost use Rattle.vs_widths.specs.Names.{meaning_of};
ghost use Rattle.vs_scopes.specs.Pieces.{unboxed};
ghost use Rattle.vs_scopes.specs.Reads.{read_content};
ghost use Rattle.vs_scopes.specs.Generate.{takes, branch_taken, other_taken, chosen};
ghost use Rattle.vs_scopes.specs.scopes_passes.Answers.{Elaborates};
ghost use Rattle.vs_elab_constants.specs.generate_passes.Branches.{choice_fault};

use crate::conditions::holds;
use std::alloc::Global;
use vs_scopes::{BodyFault, Content, content_of};
use vs_syntax::{Expr, ModuleItem};
use vs_widths::Levels;

/// What a branch generates: an `if` without `begin` decides again.
#[cycle(taken)]
fn branch_taken<'s>(
    alloc: Global,
    names: &Levels,
    item: &'s ModuleItem,
) -> Result<Content<'s>, BodyFault>
    ensures { let t = branch_taken (meaning_of names.now) item.entry.now in
        Elaborates (choice_fault t) (λ x. t ≡ takes (read_content x)) result }
{
    let ModuleItem::If(condition, first, other) = item else {
        return Ok(content_of(item));
    };
    if holds(alloc, names, condition)? {
        branch_taken(alloc, names, first)
    } else {
        other_taken(alloc, names, other)
    }
}

/// What stands behind `else` generates, where it is taken.
#[cycle(taken)]
fn other_taken<'s>(
    alloc: Global,
    names: &Levels,
    other: &'s Option<Box<ModuleItem>>,
) -> Result<Content<'s>, BodyFault>
    ensures { let t = other_taken (meaning_of names.now) (unboxed other.entry.now) in
        Elaborates (choice_fault t) (λ x. t ≡ takes (read_content x)) result }
{
    match other {
        Some(item) => branch_taken(alloc, names, item),
        None => Ok(Content::Nothing),
    }
}

/// What an `if` generates (IEEE 1364-2005, clause 12.4.2).
pub fn chosen<'s>(
    alloc: Global,
    names: &Levels,
    condition: &Expr,
    first: &'s ModuleItem,
    other: &'s Option<Box<ModuleItem>>,
) -> Result<Content<'s>, BodyFault>
    ensures { let t = chosen (meaning_of names.now) condition.now first.entry.now (unboxed other.entry.now) in
        Elaborates (choice_fault t) (λ x. t ≡ takes (read_content x)) result }
{
    if holds(alloc, names, condition)? {
        branch_taken(alloc, names, first)
    } else {
        other_taken(alloc, names, other)
    }
}
