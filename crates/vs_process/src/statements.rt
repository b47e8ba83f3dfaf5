//! Which bits statements write.
ghost use Rattle.std.specs.Prelude.{◌≡◌, ◌++◌, IfOk, OnOk, map};
ghost use Rattle.vs_design.specs.Uses.{joined, writes};
ghost use Rattle.vs_process.specs.Writes.{statement_writes};

use std::alloc::{AllocError, Global};
use vs_design::{BitRange, Statement, Target, Typed, writes};

fn push_target_writes(
    alloc: Global,
    out: &mut Vec<BitRange>,
    target: &Target,
) -> Result<(), AllocError>
    ensures { OnOk result (out.new.items ≡ out.old.items ++ writes target.now) }
{
    let ranges = writes(alloc, target)?;
    out.extend_from_slice(&ranges)?;
    Ok(())
}

#[cycle(statement_writes)]
fn push_writes(alloc: Global, out: &mut Vec<BitRange>, s: &Statement) -> Result<(), AllocError>
    ensures { OnOk result (out.new.items ≡ out.old.items ++ statement_writes s.now) }
{
    match s {
        Statement::Null(_) | Statement::Call(_, _) | Statement::Finish(_) => Ok(()),
        Statement::Assign(_, target, _) | Statement::Later(_, _, target, _) => {
            push_target_writes(alloc, out, target)
        }
        Statement::Block(all) => push_block_writes(alloc, out, all),
        Statement::Delay(_, _, body)
        | Statement::Event(_, _, body)
        | Statement::While(_, _, body)
        | Statement::Repeat(_, _, _, body)
        | Statement::Forever(_, body) => push_writes(alloc, out, body),
        Statement::If(_, _, then, other) => {
            push_writes(alloc, out, then)?;
            push_writes(alloc, out, other)
        }
        Statement::Case(_, _, _, items) => push_item_writes(alloc, out, items),
    }
}

#[cycle(statement_writes)]
fn push_block_writes(
    alloc: Global,
    out: &mut Vec<BitRange>,
    all: &[Statement],
) -> Result<(), AllocError>
    ensures { OnOk result (out.new.items ≡ out.old.items ++ joined (map statement_writes all.now)) }
{
    for s in all {
        push_writes(alloc, out, s)?;
    }
    Ok(())
}

#[cycle(statement_writes)]
fn push_item_writes(
    alloc: Global,
    out: &mut Vec<BitRange>,
    items: &[(Vec<Typed>, Statement)],
) -> Result<(), AllocError>
    ensures { OnOk result (out.new.items ≡ out.old.items ++ joined (map (λ i. statement_writes i.1) items.now)) }
{
    for (_, body) in items {
        push_writes(alloc, out, body)?;
    }
    Ok(())
}

/// The ranges of bits that a statement can write, in the order of the text: those of the targets of its assignments, blocking and nonblocking
/// (IEEE 1364-2005, clause 9.2). An index that isn't constant counts as the whole signal.
pub fn statement_writes(alloc: Global, statement: &Statement) -> Result<Vec<BitRange>, AllocError>
    ensures { IfOk result (λ r. r.items ≡ statement_writes statement.now) }
{
    let mut out = Vec::new(alloc);
    push_writes(alloc, &mut out, statement)?;
    Ok(out)
}
