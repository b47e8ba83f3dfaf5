//! The values of genvars.
ghost use Rattle.std.specs.Prelude.{◌≡◌, IfOk, IfErr};
ghost use Rattle.vs_scopes.specs.vs_widths.specs.Constants.{constant_finding};
ghost use Rattle.vs_scopes.specs.vs_widths.specs.Findings.{Refuses};
ghost use Rattle.vs_widths.specs.Names.{meaning_of};
ghost use Rattle.vs_widths.specs.Expressions.{meant};
ghost use Rattle.vs_scopes.specs.Generate.{genvar_value, genvar_fault};
ghost use Rattle.vs_scopes.specs.scopes_passes.Answers.{Elaborates};
ghost use Rattle.vs_scopes.specs.scopes_passes.Sizes.{width_faults};
ghost use Rattle.vs_elab_constants.specs.generate_passes.Turns.{IsGenvarValue};

use std::alloc::Global;
use vs_scopes::vs_widths::{Const, WidthFault, WidthReason};
use vs_scopes::{BodyFault, Reason};
use vs_syntax::Expr;
use vs_widths::{Levels, Shape, constant_at, shape_of};

/// How many bits a genvar has (profile).
const GENVAR_WIDTH: u32 = 32;

/// The value that an expression gives a genvar, as an assignment to 32 bits with a sign does.
fn assigned(alloc: Global, names: &Levels, e: &Expr) -> Result<Const, WidthFault>
    ensures ok { IfOk result (IsGenvarValue (meaning_of names.now) e.now) }
    ensures fault { IfErr result (Refuses (constant_finding (meant (meaning_of names.now) e.now))) }
{
    let found = shape_of(alloc, names, e)?;
    let width = found.width.max(GENVAR_WIDTH);
    let signed = found.signed;
    let value = constant_at(alloc, names, Shape { width, signed }, e)?;
    Ok(Const::new(value.resize(GENVAR_WIDTH, false), true, None))
}

/// The value that an expression gives a genvar, which has no x and no z (IEEE 1364-2005, clause 12.4.1; x and z: profile).
pub fn genvar_value(alloc: Global, names: &Levels, e: &Expr) -> Result<Const, BodyFault>
    ensures { let env = meaning_of names.now in
        Elaborates (width_faults (genvar_fault env e.now)) (λ c. c ≡ genvar_value env e.now) result }
{
    let value = assigned(alloc, names, e)?;
    match value.value.to_signed() {
        Some(_) => Ok(value),
        None => Err(BodyFault::Refused(Reason::Width(WidthReason::NotConstant))),
    }
}
