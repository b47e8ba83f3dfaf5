//! What texts read.
ghost use Rattle.std.specs.Prelude.{◌≡◌, ◌++◌, IfOk, OnOk, map};
ghost use Rattle.vs_design.specs.Uses.{joined, reads};
ghost use Rattle.vs_design.specs.Statements.{statement_reads};
ghost use Rattle.vs_rules.specs.vs_process.specs.Threads.{item_reads};
ghost use Rattle.vs_rules.specs.Paths.{text_reads};

use crate::ranges::case_reads;
use std::alloc::{AllocError, Global};
use vs_design::{BitRange, Statement, Typed, reads, statement_reads};

fn push_expression_reads(
    alloc: Global,
    out: &mut Vec<BitRange>,
    e: &Typed,
) -> Result<(), AllocError>
    ensures { OnOk result (out.new.items ≡ out.old.items ++ reads e.now) }
{
    let ranges = reads(alloc, e)?;
    out.extend_from_slice(&ranges)?;
    Ok(())
}

fn push_assignment_reads(
    alloc: Global,
    out: &mut Vec<BitRange>,
    s: &Statement,
) -> Result<(), AllocError>
    ensures { OnOk result (out.new.items ≡ out.old.items ++ statement_reads s.now) }
{
    let ranges = statement_reads(alloc, s)?;
    out.extend_from_slice(&ranges)?;
    Ok(())
}

fn push_case_reads(
    alloc: Global,
    out: &mut Vec<BitRange>,
    selector: &Typed,
    items: &[(Vec<Typed>, Statement)],
) -> Result<(), AllocError>
    ensures { OnOk result (out.new.items ≡ out.old.items ++ (reads selector.now ++ joined (map item_reads items.now))) }
{
    let ranges = case_reads(alloc, selector, items)?;
    out.extend_from_slice(&ranges)?;
    Ok(())
}

#[cycle(text_reads)]
fn push_text_reads(alloc: Global, out: &mut Vec<BitRange>, s: &Statement) -> Result<(), AllocError>
    ensures { OnOk result (out.new.items ≡ out.old.items ++ text_reads s.now) }
{
    match s {
        Statement::Null(_) | Statement::Call(_, _) | Statement::Finish(_) => Ok(()),
        Statement::Assign(_, _, _) | Statement::Later(_, _, _, _) => {
            push_assignment_reads(alloc, out, s)
        }
        Statement::Block(all) => push_block_reads(alloc, out, all),
        Statement::Delay(_, _, body) | Statement::Event(_, _, body) | Statement::Forever(_, body) =>
            push_text_reads(alloc, out, body),
        Statement::If(_, e, then, other) => {
            push_expression_reads(alloc, out, e)?;
            push_text_reads(alloc, out, then)?;
            push_text_reads(alloc, out, other)
        }
        Statement::Case(_, _, selector, items) => {
            push_case_reads(alloc, out, selector, items)?;
            push_item_reads(alloc, out, items)
        }
        Statement::While(_, e, body) | Statement::Repeat(_, _, e, body) => {
            push_expression_reads(alloc, out, e)?;
            push_text_reads(alloc, out, body)
        }
    }
}

#[cycle(text_reads)]
fn push_block_reads(
    alloc: Global,
    out: &mut Vec<BitRange>,
    all: &[Statement],
) -> Result<(), AllocError>
    ensures { OnOk result (out.new.items ≡ out.old.items ++ joined (map text_reads all.now)) }
{
    for s in all {
        push_text_reads(alloc, out, s)?;
    }
    Ok(())
}

#[cycle(text_reads)]
fn push_item_reads(
    alloc: Global,
    out: &mut Vec<BitRange>,
    items: &[(Vec<Typed>, Statement)],
) -> Result<(), AllocError>
    ensures { OnOk result (out.new.items ≡ out.old.items ++ joined (map (λ i. text_reads i.1) items.now)) }
{
    for (_, body) in items {
        push_text_reads(alloc, out, body)?;
    }
    Ok(())
}

/// The ranges that a text reads, indices of targets included. Arguments of calls and event terms are none.
pub fn text_reads(alloc: Global, body: &Statement) -> Result<Vec<BitRange>, AllocError>
    ensures { IfOk result (λ rs. rs.items ≡ text_reads body.now) }
{
    let mut out = Vec::new(alloc);
    push_text_reads(alloc, &mut out, body)?;
    Ok(out)
}
