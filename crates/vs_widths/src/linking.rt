//! Operators of two operands.
ghost use Rattle.std.specs.Prelude.{◌≡◌, Some, IfOk, true, false, max};
ghost use Rattle.vs_design.specs.vs_logic4.specs.Operators.{sizing_of};
ghost use Rattle.vs_design.specs.vs_logic4.specs.declared.operators.Sizing.TheVariants as sizing;
ghost use Rattle.vs_widths.specs.Expressions.{linked_meant};
ghost use Rattle.vs_widths.specs.Findings.{Has, alike};
ghost use Rattle.vs_widths.specs.Senses.{sense};
ghost use Rattle.vs_widths.specs.select_passes.Measures.{meaning, IsFlexible, IsMeasured, IsOwnPart};
ghost use Rattle.vs_widths.specs.passes.Forms.{ends_in_test, IsOperated, IsTestLink, IsTested};

use crate::{BIT, Measured, Shape, Sizable};
use std::alloc::{AllocError, Global};
use vs_design::Link;
use vs_design::vs_logic4::{Binary, Sizing};

/// The size and sign of two operands of one context (IEEE 1364-2005, clauses 5.4.1 and 5.5.1).
pub fn joined_shape(left: Shape, right: Shape) -> Shape
    ensures found { alike left.width left.signed right.width right.signed ≡ Has result.width result.signed }
    ensures width { result.width ≡ max left.width right.width }
{
    Shape {
        width: left.width.max(right.width),
        signed: left.signed && right.signed,
    }
}

/// A part at its own size and sign, whatever the context.
pub fn own(alloc: Global, x: Measured) -> Result<Sizable, AllocError>
    ensures { IfOk result (λ y. IsOwnPart x y) }
{
    Ok(Sizable::Own(x.shape, Box::new(alloc, x.form)?))
}

/// What an operator makes of an operand and the one behind it.
#[inline(never)]
pub fn linked(
    alloc: Global,
    left: Measured,
    operator: Binary,
    right: Measured,
) -> Result<Measured, AllocError>
    requires left { IsFlexible left.form }
    requires right { IsFlexible right.form }
    ensures { IfOk result (λ y. IsMeasured (linked_meant (meaning left) (operator, meaning right)) y) }
{
    match operator.sizing() {
        Sizing::Alike => alike(alloc, left, operator, right),
        Sizing::Shift => shifted(alloc, left, operator, right),
        Sizing::Comparison => compared(alloc, left, operator, right),
        Sizing::Logical => combined(alloc, left, operator, right),
    }
}

/// An operator whose operands have the size and sign of the context.
fn alike(
    alloc: Global,
    left: Measured,
    operator: Binary,
    right: Measured,
) -> Result<Measured, AllocError>
    requires left { IsFlexible left.form }
    requires right { IsFlexible right.form }
    requires sizing { sizing_of operator ≡ sizing.Alike }
    ensures { IfOk result (λ y. IsMeasured (linked_meant (meaning left) (operator, meaning right)) y) }
{
    let shape = joined_shape(left.shape, right.shape);
    let form = operated(alloc, left.form, operator, right.form)?;
    Ok(Measured { shape, form })
}

/// A shift, whose amount has its own size and sign.
fn shifted(
    alloc: Global,
    left: Measured,
    operator: Binary,
    right: Measured,
) -> Result<Measured, AllocError>
    requires left { IsFlexible left.form }
    requires right { IsFlexible right.form }
    requires sizing { sizing_of operator ≡ sizing.Shift }
    ensures { IfOk result (λ y. IsMeasured (linked_meant (meaning left) (operator, meaning right)) y) }
{
    let shape = left.shape;
    let amount = own(alloc, right)?;
    let form = operated(alloc, left.form, operator, amount)?;
    Ok(Measured { shape, form })
}

/// A comparison, whose operands have the larger of their sizes and their common sign.
fn compared(
    alloc: Global,
    left: Measured,
    operator: Binary,
    right: Measured,
) -> Result<Measured, AllocError>
    requires left { IsFlexible left.form }
    requires right { IsFlexible right.form }
    requires sizing { sizing_of operator ≡ sizing.Comparison }
    ensures { IfOk result (λ y. IsMeasured (linked_meant (meaning left) (operator, meaning right)) y) }
{
    let shape = joined_shape(left.shape, right.shape);
    let link = Link {
        operator,
        width: shape.width,
        signed: shape.signed,
    };
    let form = tested(alloc, left.form, shape, link, right.form)?;
    Ok(Measured { shape: BIT, form })
}

/// `&&` or `||`, whose operands have their own sizes and signs.
fn combined(
    alloc: Global,
    left: Measured,
    operator: Binary,
    right: Measured,
) -> Result<Measured, AllocError>
    requires left { IsFlexible left.form }
    requires right { IsFlexible right.form }
    requires sizing { sizing_of operator ≡ sizing.Logical }
    ensures { IfOk result (λ y. IsMeasured (linked_meant (meaning left) (operator, meaning right)) y) }
{
    let link = Link {
        operator,
        width: 1,
        signed: false,
    };
    let right = own(alloc, right)?;
    let form = tested(alloc, left.form, left.shape, link, right)?;
    Ok(Measured { shape: BIT, form })
}

/// An operator between operands of one context, behind those before it.
fn operated(
    alloc: Global,
    left: Sizable,
    operator: Binary,
    right: Sizable,
) -> Result<Sizable, AllocError>
    ensures { IfOk result (λ y. IsOperated left operator right y) }
{
    match left.into_chain() {
        Ok((first, others)) => {
            let mut links = others;
            links.push((operator, right))?;
            Ok(Sizable::Chain(first, links))
        }
        Err(left) => {
            let links = vec![in alloc; (operator, right)]?;
            Ok(Sizable::Chain(Box::new(alloc, left)?, links))
        }
    }
}

/// A comparison, `&&` or `||`, behind those before it where the left side is the result of such a one.
fn tested(
    alloc: Global,
    left: Sizable,
    shape: Shape,
    link: Link,
    right: Sizable,
) -> Result<Sizable, AllocError>
    requires sized { (sense left).size shape.width ≡ Some shape.width }
    requires test { IsTestLink shape.width link ((sense right).size link.width) }
    ensures { IfOk result (λ y. IsTested left shape link right y) }
{
    match left.into_tests() {
        Ok((first, others)) => {
            if continues(shape, link.width, &others) {
                let mut links = others;
                links.push((link, right))?;
                return Ok(Sizable::Tests(first, links));
            }
            first_tested(alloc, Sizable::Tests(first, others), shape, link, right)
        }
        Err(left) => first_tested(alloc, left, shape, link, right),
    }
}

/// A comparison, `&&` or `||` whose left side has its own size and sign.
fn first_tested(
    alloc: Global,
    left: Sizable,
    shape: Shape,
    link: Link,
    right: Sizable,
) -> Result<Sizable, AllocError>
    requires sized { (sense left).size shape.width ≡ Some shape.width }
    requires test { IsTestLink shape.width link ((sense right).size link.width) }
    ensures { IfOk result (λ y. IsTested left shape link right y) }
{
    let first = Sizable::Own(shape, Box::new(alloc, left)?);
    let links = vec![in alloc; (link, right)]?;
    Ok(Sizable::Tests(Box::new(alloc, first)?, links))
}

/// Whether a comparison, `&&` or `||` of this size can stand behind these operators, whose result has this size and sign.
fn continues(shape: Shape, width: u32, links: &[(Link, Sizable)]) -> bool
    ensures unsigned { result ≡ true → shape.signed ≡ false }
    ensures width { result ≡ true → shape.width ≡ width }
    ensures ends { result ≡ true → ends_in_test links.now ≡ true }
{
    !shape.signed && shape.width == width && ends_in_test(links)
}

/// Whether the last of these operators gives one bit.
fn ends_in_test(links: &[(Link, Sizable)]) -> bool
    ensures { result ≡ ends_in_test links.now }
{
    let count = links.len();
    if count == 0 {
        return false;
    }
    let (link, _) = &links[count - 1];
    match link.operator.sizing() {
        Sizing::Alike => false,
        Sizing::Shift => false,
        Sizing::Comparison => true,
        Sizing::Logical => true,
    }
}
