//! Forms at the size and with the sign of their context.
ghost use Rattle.std.specs.Prelude.{◌≡◌, IfOk, OnOk};
ghost use Rattle.vs_widths.specs.Each.{Each};
ghost use Rattle.vs_widths.specs.Senses.{sense, IsFitted, IsExtended, IsLink, IsTest, IsPair, IsPart};

use crate::forms::Sizable;
use crate::shape::{BIT, Shape};
use std::alloc::{AllocError, Global};
use vs_design::vs_logic4::Binary;
use vs_design::{Extension, Link, Operand, Typed};

/// A form at the size and with the sign of a context.
#[cycle(fitted)]
pub fn fitted(alloc: Global, form: &Sizable, shape: Shape) -> Result<Typed, AllocError>
    ensures { IfOk result (λ y. IsFitted (sense form.now) shape.width shape.signed y) }
{
    match form {
        Sizable::Number(value) => Ok(Typed::Number(value.resize(shape.width, shape.signed))),
        Sizable::Signal(signal) => Ok(Typed::Signal(Operand {
            signal: *signal,
            width: shape.width,
            signed: shape.signed,
        })),
        Sizable::Slice(slice) => Ok(Typed::Slice(*slice)),
        Sizable::Select(selection, word, low) => {
            let word = boxed(alloc, word, shape)?;
            let low = boxed(alloc, low, shape)?;
            Ok(Typed::Select(**selection, word, low))
        }
        Sizable::Excerpt(excerpt, low) => {
            let low = boxed(alloc, low, shape)?;
            Ok(Typed::Excerpt(**excerpt, low))
        }
        Sizable::Unary(operator, x) => {
            let x = boxed(alloc, x, shape)?;
            Ok(Typed::Unary(*operator, x))
        }
        Sizable::Chain(first, links) => {
            let first = boxed(alloc, first, shape)?;
            let links = fitted_links(alloc, links, shape)?;
            Ok(Typed::Chain(first, links))
        }
        Sizable::Tests(first, links) => {
            let first = boxed(alloc, first, BIT)?;
            let links = fitted_tests(alloc, links)?;
            extended(alloc, Typed::Chain(first, links), shape)
        }
        Sizable::Choice(pairs, last) => {
            let pairs = fitted_pairs(alloc, pairs, shape)?;
            let last = boxed(alloc, last, shape)?;
            Ok(Typed::Choice(pairs, last))
        }
        Sizable::Concat(first, rest) => {
            let first = boxed(alloc, first, shape)?;
            let rest = fitted_parts(alloc, rest, shape)?;
            Ok(Typed::Concat(first, rest))
        }
        Sizable::Repeat(count, x) => {
            let x = boxed(alloc, x, shape)?;
            Ok(Typed::Repeat(*count, x))
        }
        Sizable::Own(own, x) => fitted(alloc, x, *own),
        Sizable::Closed(own, x) => {
            let x = boxed(alloc, x, *own)?;
            Ok(resized(x, shape))
        }
    }
}

/// A form at the size and with the sign of a context, in a box: never inlined, so that a deep form takes little stack.
#[cycle(fitted)]
#[inline(never)]
fn boxed(alloc: Global, form: &Sizable, shape: Shape) -> Result<Box<Typed>, AllocError>
    ensures { IfOk result (λ y. IsFitted (sense form.now) shape.width shape.signed y.value) }
{
    Ok(Box::new(alloc, fitted(alloc, form, shape)?)?)
}

/// Operands behind the first one, at the size and with the sign of a context.
#[cycle(fitted)]
#[inline(never)]
fn fitted_links(
    alloc: Global,
    links: &[(Binary, Sizable)],
    shape: Shape,
) -> Result<Vec<(Link, Typed)>, AllocError>
    ensures { IfOk result (λ ys. Each (IsLink shape.width shape.signed) links.now ys.items) }
{
    let mut done = Vec::with_capacity(alloc, links.len())?;
    for (operator, form) in links {
        let operand = fitted(alloc, form, shape)?;
        let link = Link {
            operator: *operator,
            width: shape.width,
            signed: shape.signed,
        };
        done.push((link, operand))?;
    }
    Ok(done)
}

/// Operands behind the first one, each at the size and with the sign of its link.
#[cycle(fitted)]
#[inline(never)]
fn fitted_tests(alloc: Global, links: &[(Link, Sizable)]) -> Result<Vec<(Link, Typed)>, AllocError>
    ensures { IfOk result (λ ys. Each IsTest links.now ys.items) }
{
    let mut done = Vec::with_capacity(alloc, links.len())?;
    for (link, form) in links {
        let shape = Shape {
            width: link.width,
            signed: link.signed,
        };
        let operand = fitted(alloc, form, shape)?;
        done.push((*link, operand))?;
    }
    Ok(done)
}

/// Conditions and the operands behind them, at the size and with the sign of a context.
#[cycle(fitted)]
#[inline(never)]
fn fitted_pairs(
    alloc: Global,
    pairs: &[(Sizable, Sizable)],
    shape: Shape,
) -> Result<Vec<(Typed, Typed)>, AllocError>
    ensures { IfOk result (λ ys. Each (IsPair shape.width shape.signed) pairs.now ys.items) }
{
    let mut done = Vec::with_capacity(alloc, pairs.len())?;
    for (condition, value) in pairs {
        let condition = fitted(alloc, condition, shape)?;
        let value = fitted(alloc, value, shape)?;
        done.push((condition, value))?;
    }
    Ok(done)
}

/// Parts of a concatenation, at the size and with the sign of a context.
#[cycle(fitted)]
#[inline(never)]
fn fitted_parts(alloc: Global, parts: &[Sizable], shape: Shape) -> Result<Vec<Typed>, AllocError>
    ensures { IfOk result (λ ys. Each (IsPart shape.width shape.signed) parts.now ys.items) }
{
    let mut done = Vec::with_capacity(alloc, parts.len())?;
    for part in parts {
        let part = fitted(alloc, part, shape)?;
        done.push(part)?;
    }
    Ok(done)
}

/// An operand brought to the size and sign of a context.
fn resized(x: Box<Typed>, shape: Shape) -> Typed
    ensures { IsExtended x.value shape.width shape.signed result }
{
    let extension = Extension {
        width: shape.width,
        signed: shape.signed,
    };
    Typed::Resized(extension, x)
}

/// An operand brought to the size and sign of a context.
#[inline(never)]
fn extended(alloc: Global, x: Typed, shape: Shape) -> Result<Typed, AllocError>
    ensures { IfOk result (λ y. IsExtended x shape.width shape.signed y) }
{
    Ok(resized(Box::new(alloc, x)?, shape))
}
