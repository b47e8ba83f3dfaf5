//! Copies of expressions.
ghost use Rattle.std.specs.Prelude.{IfOk};
ghost use Rattle.vs_eval.specs.Copies.{HasValueOf, HaveLinksOf, HavePairsOf, HavePartsOf};

use std::alloc::{AllocError, Global};
use vs_design::{Link, Typed};

/// A copy of an expression.
#[cycle(copy)]
fn copied(alloc: Global, e: &Typed) -> Result<Typed, AllocError>
    ensures { IfOk result (λ copy. HasValueOf copy e.now) }
{
    match e {
        Typed::Number(digits) => Ok(Typed::Number(*digits)),
        Typed::Signal(o) => Ok(Typed::Signal(*o)),
        Typed::Slice(s) => Ok(Typed::Slice(*s)),
        Typed::Select(s, word, low) => {
            let word = boxed(alloc, word)?;
            Ok(Typed::Select(*s, word, boxed(alloc, low)?))
        }
        Typed::Excerpt(s, low) => Ok(Typed::Excerpt(*s, boxed(alloc, low)?)),
        Typed::Unary(operator, x) => Ok(Typed::Unary(*operator, boxed(alloc, x)?)),
        Typed::Chain(x, links) => {
            let x = boxed(alloc, x)?;
            Ok(Typed::Chain(x, copied_links(alloc, links)?))
        }
        Typed::Choice(pairs, last) => {
            let last = boxed(alloc, last)?;
            Ok(Typed::Choice(copied_pairs(alloc, pairs)?, last))
        }
        Typed::Concat(x, others) => {
            let x = boxed(alloc, x)?;
            Ok(Typed::Concat(x, copied_parts(alloc, others)?))
        }
        Typed::Repeat(count, x) => Ok(Typed::Repeat(*count, boxed(alloc, x)?)),
        Typed::Resized(size, x) => Ok(Typed::Resized(*size, boxed(alloc, x)?)),
    }
}

/// A copy of an expression, in a box.
#[cycle(copy)]
pub(crate) fn boxed(alloc: Global, e: &Typed) -> Result<Box<Typed>, AllocError>
    ensures { IfOk result (λ copy. HasValueOf copy.value e.now) }
{
    let copy = copied(alloc, e)?;
    Ok(Box::new(alloc, copy)?)
}

/// Copies of operands after operators.
#[cycle(copy)]
fn copied_links(alloc: Global, links: &[(Link, Typed)]) -> Result<Vec<(Link, Typed)>, AllocError>
    ensures { IfOk result (λ all. HaveLinksOf all.items links.now) }
{
    let mut all = Vec::with_capacity(alloc, links.len())?;
    for (link, e) in links {
        let copy = copied(alloc, e)?;
        all.push((*link, copy))?;
    }
    Ok(all)
}

/// Copies of conditions and of the operands after them.
#[cycle(copy)]
fn copied_pairs(alloc: Global, pairs: &[(Typed, Typed)]) -> Result<Vec<(Typed, Typed)>, AllocError>
    ensures { IfOk result (λ all. HavePairsOf all.items pairs.now) }
{
    let mut all = Vec::with_capacity(alloc, pairs.len())?;
    for (condition, e) in pairs {
        let condition = copied(alloc, condition)?;
        let copy = copied(alloc, e)?;
        all.push((condition, copy))?;
    }
    Ok(all)
}

/// Copies of parts.
#[cycle(copy)]
fn copied_parts(alloc: Global, parts: &[Typed]) -> Result<Vec<Typed>, AllocError>
    ensures { IfOk result (λ all. HavePartsOf all.items parts.now) }
{
    let mut all = Vec::with_capacity(alloc, parts.len())?;
    for part in parts {
        let copy = copied(alloc, part)?;
        all.push(copy)?;
    }
    Ok(all)
}
