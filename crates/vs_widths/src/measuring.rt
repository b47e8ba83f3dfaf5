//! The own size and sign of each part of an expression.
ghost use Rattle.std.specs.Prelude.{◌≡◌, ◌<◌, ◌≤◌, false, List, Some, IfErr, OnOk, map};
ghost use Rattle.vs_widths.specs.Names.{meaning_of};
ghost use Rattle.vs_widths.specs.Expressions.{meant, meant_selects, digits_meant, name_meant, unary_meant, chain_meant, choice_meant, repeat_meant};
ghost use Rattle.vs_widths.specs.declared.bindings.Binding.TheVariants.{Signal};
ghost use Rattle.vs_widths.specs.declared.faults.WidthFault.TheVariants.{Memory};
ghost use Rattle.std.specs.List.{All};
ghost use Rattle.vs_widths.specs.Meants.{Meant};
ghost use Rattle.vs_widths.specs.Selects.{named, operand_meant, constant_span, excerpt_meant, select_meant};
ghost use Rattle.vs_widths.specs.select_passes.Measures.{meaning, IsFlexible, IsMeasured, Measures};
ghost use Rattle.vs_widths.specs.select_passes.Places.{selects_meaning, IsFlexibleSelect};
ghost use Rattle.vs_widths.specs.passes.Forms.{links_meant, pairs_meant, AddsPair, AddsPart, AreJoined, Joins, Repeats, Closes};
ghost use Rattle.vs_widths.specs.passes.Selects.{MeasuresSelects};

use crate::levels::Levels;
use crate::linking::{joined_shape, linked, own};
use crate::{
    BIT, Binding, Const, Meaning, Measured, Shape, Sizable, WidthFault, WidthReason,
    bits_of_constant, count_of, excerpt, named, operand,
};
use std::alloc::{AllocError, Global};
use vs_design::Count;
use vs_design::vs_logic4::{Binary, Unary, Vec4};
use vs_syntax::{Expr, PartSelect};

const TOO_WIDE: WidthFault = WidthFault::Refused(WidthReason::TooWide);

const WRONG_KIND: WidthFault = WidthFault::Refused(WidthReason::WrongKind);

/// An expression with its own size and sign, and those of its parts.
#[cycle(measured)]
pub fn measured(alloc: Global, names: &Levels, e: &Expr) -> Result<Measured, WidthFault>
    ensures { Measures (meant (meaning_of names.now) e.now) result }
{
    match e {
        Expr::Number(literal) => Ok(of_digits(literal.value, literal.signed)),
        Expr::Name(name) => of_name(names.find(name)),
        Expr::Select(name, selects) => {
            let selects = measured_selects(alloc, names, selects)?;
            of_select(alloc, names.find(name), selects)
        }
        Expr::Group(inner) => measured(alloc, names, inner),
        Expr::Unary(operator, x) => {
            let x = measured(alloc, names, x)?;
            of_unary(alloc, *operator, x)
        }
        Expr::Chain(first, links) => measured_links(alloc, names, first, links),
        Expr::Choice(pairs, last) => measured_pairs(alloc, names, pairs, last),
        Expr::Concat(first, rest) => {
            let parts = measured_parts(alloc, names, first, rest)?;
            closed(alloc, parts.shape, parts)
        }
        Expr::Repeat(count, first, rest) => {
            let parts = measured_parts(alloc, names, first, rest)?;
            let count = measured(alloc, names, count)?;
            counted(alloc, count, parts)
        }
        Expr::Cast(signed, x) => {
            let x = measured(alloc, names, x)?;
            let shape = Shape {
                width: x.shape.width,
                signed: *signed,
            };
            closed(alloc, shape, x)
        }
    }
}

/// The selects behind a name.
#[cycle(measured)]
pub fn measured_selects(
    alloc: Global,
    names: &Levels,
    selects: &[(Expr, Option<(PartSelect, Expr)>)],
) -> Result<Vec<(Measured, Option<(PartSelect, Measured)>)>, WidthFault>
    ensures { MeasuresSelects (meant_selects (meaning_of names.now) selects.now) result }
{
    let mut done = Vec::new(alloc);
    for (index, part) in selects {
        let index = measured(alloc, names, index)?;
        let Some((how, e)) = part else {
            done.push((index, None))?;
            continue;
        };
        let other = measured(alloc, names, e)?;
        done.push((index, Some((*how, other))))?;
    }
    Ok(done)
}

/// An operand and those behind it.
#[cycle(measured)]
#[inline(never)]
fn measured_links(
    alloc: Global,
    names: &Levels,
    first: &Expr,
    links: &[(Binary, Expr)],
) -> Result<Measured, WidthFault>
    ensures { Measures (chain_meant (meant (meaning_of names.now) first.now) (links_meant (meaning_of names.now) links.now)) result }
{
    let mut all = measured(alloc, names, first)?;
    for (operator, e) in links {
        let operand = measured(alloc, names, e)?;
        all = linked(alloc, all, *operator, operand)?;
    }
    Ok(all)
}

/// Operands behind conditions, and the last operand.
#[cycle(measured)]
#[inline(never)]
fn measured_pairs(
    alloc: Global,
    names: &Levels,
    pairs: &[(Expr, Expr)],
    last: &Expr,
) -> Result<Measured, WidthFault>
    ensures { Measures (choice_meant (pairs_meant (meaning_of names.now) pairs.now) (meant (meaning_of names.now) last.now)) result }
{
    let fallback = measured(alloc, names, last)?;
    let mut shape = fallback.shape;
    let mut done = Vec::new(alloc);
    for (condition, e) in pairs {
        let condition = measured(alloc, names, condition)?;
        let operand = measured(alloc, names, e)?;
        shape = joined_shape(shape, operand.shape);
        add_pair(alloc, &mut done, condition, operand.form)?;
    }
    Ok(Measured {
        shape,
        form: Sizable::Choice(done, Box::new(alloc, fallback.form)?),
    })
}

/// The parts of a concatenation beside one another, which no context changes.
#[cycle(measured)]
#[inline(never)]
fn measured_parts(
    alloc: Global,
    names: &Levels,
    first: &Expr,
    rest: &[Expr],
) -> Result<Measured, WidthFault>
    ensures { Joins (meant (meaning_of names.now) first.now) (map (meant (meaning_of names.now)) rest.now) result }
{
    let highest = measured(alloc, names, first)?;
    let mut width = highest.shape.width;
    let mut done = Vec::new(alloc);
    for e in rest {
        let part = measured(alloc, names, e)?;
        if width + part.shape.width > 64 {
            return Err(TOO_WIDE);
        }
        width += part.shape.width;
        add_part(alloc, &mut done, part)?;
    }
    let highest = own(alloc, highest)?;
    Ok(Measured {
        shape: unsigned(width),
        form: Sizable::Concat(Box::new(alloc, highest)?, done),
    })
}

/// A condition, which has its own size and sign, and the operand behind it, added to those before them.
#[inline(never)]
fn add_pair(
    alloc: Global,
    done: &mut Vec<(Sizable, Sizable)>,
    condition: Measured,
    operand: Sizable,
) -> Result<(), AllocError>
    ensures { OnOk result (AddsPair condition operand done.old.items done.new.items) }
{
    done.push((own(alloc, condition)?, operand))?;
    Ok(())
}

/// A part, which has its own size and sign, added to those before it.
#[inline(never)]
fn add_part(alloc: Global, done: &mut Vec<Sizable>, part: Measured) -> Result<(), AllocError>
    ensures { OnOk result (AddsPart part done.old.items done.new.items) }
{
    done.push(own(alloc, part)?)?;
    Ok(())
}

/// The size and sign of a concatenation of so many bits (IEEE 1364-2005, clause 5.5.1).
fn unsigned(width: u32) -> Shape
    requires some { 0 < width }
    requires most { width ≤ 64 }
    ensures width { result.width ≡ width }
    ensures sign { result.signed ≡ false }
{
    Shape {
        width,
        signed: false,
    }
}

/// A number.
fn of_digits(value: Vec4, signed: bool) -> Measured
    ensures { IsMeasured (digits_meant value signed) result }
{
    Measured {
        shape: Shape {
            width: value.width(),
            signed,
        },
        form: Sizable::Number(value),
    }
}

/// A signal.
fn of_signal(meaning: Meaning, signal: usize) -> Result<Measured, WidthFault>
    ensures measures { Measures (name_meant (Some (Signal meaning signal))) result }
    ensures memory { IfErr result (λ e. e ≡ Memory → ⊥) }
{
    match meaning.words {
        None => Ok(Measured {
            shape: meaning.shape,
            form: Sizable::Signal(signal),
        }),
        Some(_) => Err(WRONG_KIND),
    }
}

/// A name, by what it is bound to.
#[inline(never)]
pub fn of_name(binding: Option<Binding>) -> Result<Measured, WidthFault>
    ensures measures { Measures (name_meant binding) result }
    ensures memory { IfErr result (λ e. e ≡ Memory → ⊥) }
{
    let Some(binding) = binding else {
        return Err(WidthFault::Refused(WidthReason::Unknown));
    };
    match binding {
        Binding::Signal(meaning, signal) => of_signal(meaning, signal),
        Binding::Constant(constant) => Ok(of_digits(constant.value, constant.signed)),
        Binding::Pending => Err(WidthFault::Refused(WidthReason::NotConstant)),
        Binding::Other => Err(WRONG_KIND),
        Binding::Genvar => Err(WRONG_KIND),
    }
}

/// Bits of a signal.
fn of_place(
    alloc: Global,
    binding: Option<Binding>,
    selects: Vec<(Measured, Option<(PartSelect, Measured)>)>,
) -> Result<Measured, WidthFault>
    requires flexible { All IsFlexibleSelect selects.items }
    ensures { Measures (operand_meant (named binding (selects_meaning selects.items))) result }
{
    let place = named(alloc, binding, selects)?;
    Ok(operand(alloc, place)?)
}

/// Bits of a constant.
fn of_constant(
    alloc: Global,
    constant: Const,
    selects: Vec<(Measured, Option<(PartSelect, Measured)>)>,
) -> Result<Measured, WidthFault>
    requires flexible { All IsFlexibleSelect selects.items }
    ensures { Measures (excerpt_meant constant.value (constant_span constant (selects_meaning selects.items))) result }
{
    let extent = bits_of_constant(alloc, constant, selects)?;
    Ok(excerpt(alloc, constant.value, extent)?)
}

/// A name with selects, by what it is bound to.
#[inline(never)]
fn of_select(
    alloc: Global,
    binding: Option<Binding>,
    selects: Vec<(Measured, Option<(PartSelect, Measured)>)>,
) -> Result<Measured, WidthFault>
    requires flexible { All IsFlexibleSelect selects.items }
    ensures { Measures (select_meant binding (selects_meaning selects.items)) result }
{
    match binding {
        None => of_place(alloc, binding, selects),
        Some(Binding::Constant(constant)) => of_constant(alloc, constant, selects),
        Some(Binding::Signal(_, _)) => of_place(alloc, binding, selects),
        Some(Binding::Pending) => of_place(alloc, binding, selects),
        Some(Binding::Genvar) => of_place(alloc, binding, selects),
        Some(Binding::Other) => of_place(alloc, binding, selects),
    }
}

/// An operator and its operand.
#[inline(never)]
fn of_unary(alloc: Global, operator: Unary, x: Measured) -> Result<Measured, WidthFault>
    requires flexible { IsFlexible x.form }
    ensures { Measures (unary_meant operator (meaning x)) result }
{
    let form = Sizable::Unary(operator, Box::new(alloc, x.form)?);
    if operator.gives_bit() {
        return Ok(Measured {
            shape: BIT,
            form: Sizable::Closed(x.shape, Box::new(alloc, form)?),
        });
    }
    Ok(Measured {
        shape: x.shape,
        form,
    })
}

/// A part that has its own size and sign, brought to those of its context, with the size and sign that its context sees.
#[inline(never)]
fn closed(alloc: Global, shape: Shape, x: Measured) -> Result<Measured, WidthFault>
    ensures { Closes x shape result }
{
    Ok(Measured {
        shape,
        form: Sizable::Closed(x.shape, Box::new(alloc, x.form)?),
    })
}

/// Joined parts as often as a count says.
#[inline(never)]
fn counted(alloc: Global, count: Measured, parts: Measured) -> Result<Measured, WidthFault>
    requires flexible { IsFlexible count.form }
    ensures { (first : Meant) (rest : List Meant) → AreJoined first rest parts → Measures (repeat_meant (meaning count) first rest) result }
{
    let times = count_of(alloc, &count)?;
    repeated(alloc, times, parts)
}

/// Joined parts so many times.
#[inline(never)]
fn repeated(alloc: Global, times: u64, parts: Measured) -> Result<Measured, WidthFault>
    requires some { 0 < times }
    ensures { Repeats times parts result }
{
    if times > 64 || times as u32 * parts.shape.width > 64 {
        return Err(TOO_WIDE);
    }
    let count = Count {
        times: times as u32,
    };
    let shape = unsigned(count.times * parts.shape.width);
    let form = Sizable::Repeat(count, Box::new(alloc, parts.form)?);
    Ok(Measured {
        shape,
        form: Sizable::Closed(shape, Box::new(alloc, form)?),
    })
}
