//! What the crates above ask of an expression.
ghost use Rattle.std.specs.Prelude.{◌≡◌, IfOk, IfErr};
ghost use Rattle.vs_widths.specs.Names.{meaning_of};
ghost use Rattle.vs_widths.specs.Expressions.{meant, name_meant};
ghost use Rattle.vs_widths.specs.declared.faults.WidthFault.TheVariants.{Memory};
ghost use Rattle.vs_widths.specs.Constants.{constant_finding};
ghost use Rattle.vs_widths.specs.Findings.{Has, Refuses};
ghost use Rattle.vs_widths.specs.Typing.{IsTyped, IsTypedAs, IsConstant, IsConstantAt};

use crate::levels::Levels;
use crate::measuring::{measured, of_name};
use crate::{Const, Shape, WidthFault, fitted, known};
use std::alloc::Global;
use vs_design::Typed;
use vs_design::vs_logic4::Vec4;
use vs_syntax::Expr;

/// The size and sign that an expression has by itself (IEEE 1364-2005, clauses 5.4.1 and 5.5.1).
pub fn shape_of(alloc: Global, names: &Levels, e: &Expr) -> Result<Shape, WidthFault>
    ensures shape { IfOk result (λ s. (meant (meaning_of names.now) e.now).finding ≡ Has s.width s.signed) }
    ensures fault { IfErr result (Refuses (meant (meaning_of names.now) e.now).finding) }
{
    Ok(measured(alloc, names, e)?.shape)
}

/// An expression at a size and a sign (IEEE 1364-2005, clauses 5.4 and 5.5).
pub fn typed(alloc: Global, names: &Levels, shape: Shape, e: &Expr) -> Result<Typed, WidthFault>
    ensures typed { IfOk result (IsTyped (meaning_of names.now) e.now shape.width shape.signed) }
    ensures fault { IfErr result (Refuses (meant (meaning_of names.now) e.now).finding) }
{
    let x = measured(alloc, names, e)?;
    Ok(fitted(alloc, &x.form, shape)?)
}

/// The size and sign of what a name means (IEEE 1364-2005, clauses 12.2 and 12.7).
pub fn shape_of_name(names: &Levels, name: &[u8]) -> Result<Shape, WidthFault>
    ensures shape { IfOk result (λ s. (name_meant (meaning_of names.now name.now)).finding ≡ Has s.width s.signed) }
    ensures fault { IfErr result (Refuses (name_meant (meaning_of names.now name.now)).finding) }
    ensures memory { IfErr result (λ e. e ≡ Memory → ⊥) }
{
    Ok(of_name(names.find(name))?.shape)
}

/// What a name means, at a size and a sign (IEEE 1364-2005, clauses 12.2 and 12.7).
pub fn typed_name(
    alloc: Global,
    names: &Levels,
    shape: Shape,
    name: &[u8],
) -> Result<Typed, WidthFault>
    ensures typed { IfOk result (IsTypedAs (name_meant (meaning_of names.now name.now)) shape.width shape.signed) }
    ensures fault { IfErr result (Refuses (name_meant (meaning_of names.now name.now)).finding) }
{
    let x = of_name(names.find(name))?;
    Ok(fitted(alloc, &x.form, shape)?)
}

/// The value that an expression has by itself, where it names no signal.
pub fn constant(alloc: Global, names: &Levels, e: &Expr) -> Result<Const, WidthFault>
    ensures constant { IfOk result (IsConstant (meaning_of names.now) e.now) }
    ensures fault { IfErr result (Refuses (constant_finding (meant (meaning_of names.now) e.now))) }
{
    let x = measured(alloc, names, e)?;
    let value = known(alloc, &x.form, x.shape)?;
    Ok(Const::new(value, x.shape.signed, None))
}

/// The value that an expression has at a size and a sign, as on the right of an assignment, where it names no signal.
pub fn constant_at(
    alloc: Global,
    names: &Levels,
    shape: Shape,
    e: &Expr,
) -> Result<Vec4, WidthFault>
    ensures constant { IfOk result (IsConstantAt (meaning_of names.now) e.now shape.width shape.signed) }
    ensures fault { IfErr result (Refuses (constant_finding (meant (meaning_of names.now) e.now))) }
{
    let x = measured(alloc, names, e)?;
    known(alloc, &x.form, shape)
}
