//! The delay controls of a text.
ghost use Rattle.std.specs.Prelude.{◌≡◌, ◌++◌, IfOk, OnOk, map};
ghost use Rattle.vs_design.specs.Uses.{joined};
ghost use Rattle.vs_rules.specs.Controls.{controls_in};

use std::alloc::{AllocError, Global};
use vs_design::{Statement, Typed};

#[cycle(controls)]
fn push_controls(alloc: Global, out: &mut Vec<u32>, s: &Statement) -> Result<(), AllocError>
    ensures { OnOk result (out.new.items ≡ out.old.items ++ controls_in s.now) }
{
    match s {
        Statement::Null(_)
        | Statement::Assign(_, _, _)
        | Statement::Later(_, _, _, _)
        | Statement::Call(_, _)
        | Statement::Finish(_) => Ok(()),
        Statement::Block(all) => push_block_controls(alloc, out, all),
        Statement::Delay(number, _, body) => {
            out.push(*number)?;
            push_controls(alloc, out, body)
        }
        Statement::Event(_, _, body)
        | Statement::While(_, _, body)
        | Statement::Repeat(_, _, _, body)
        | Statement::Forever(_, body) => push_controls(alloc, out, body),
        Statement::If(_, _, then, other) => {
            push_controls(alloc, out, then)?;
            push_controls(alloc, out, other)
        }
        Statement::Case(_, _, _, items) => push_item_controls(alloc, out, items),
    }
}

#[cycle(controls)]
fn push_block_controls(
    alloc: Global,
    out: &mut Vec<u32>,
    all: &[Statement],
) -> Result<(), AllocError>
    ensures { OnOk result (out.new.items ≡ out.old.items ++ joined (map controls_in all.now)) }
{
    for s in all {
        push_controls(alloc, out, s)?;
    }
    Ok(())
}

#[cycle(controls)]
fn push_item_controls(
    alloc: Global,
    out: &mut Vec<u32>,
    items: &[(Vec<Typed>, Statement)],
) -> Result<(), AllocError>
    ensures { OnOk result (out.new.items ≡ out.old.items ++ joined (map (λ i. controls_in i.1) items.now)) }
{
    for (_, body) in items {
        push_controls(alloc, out, body)?;
    }
    Ok(())
}

/// The numbers of the delay controls of a text, in its order (IEEE 1364-2005, clause 9.7.1). The delay of a nonblocking assignment is none.
pub fn controls(alloc: Global, body: &Statement) -> Result<Vec<u32>, AllocError>
    ensures { IfOk result (λ c. c.items ≡ controls_in body.now) }
{
    let mut out = Vec::new(alloc);
    push_controls(alloc, &mut out, body)?;
    Ok(out)
}
