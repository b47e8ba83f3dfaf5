//! What statements read and wait for.
ghost use Rattle.std.specs.Prelude.{◌≡◌, ◌++◌, IfOk, OnOk, map};
ghost use Rattle.std.specs.List.{list_any};
ghost use Rattle.vs_design.specs.Uses.{joined};
ghost use Rattle.vs_design.specs.Statements.{all_reads, assignment_reads, arg_reads, call_reads, statement_reads, event_terms, has_control};

use crate::expression::Typed;
use crate::range::BitRange;
use crate::statement::{Call, EventTerm, FormatArg, Statement, Target};
use crate::uses::{push_all_reads, push_reads, push_target_reads};
use std::alloc::{AllocError, Global};

fn push_assignment_reads(
    out: &mut Vec<BitRange>,
    target: &Target,
    source: &Typed,
) -> Result<(), AllocError>
    ensures { OnOk result (out.new.items ≡ out.old.items ++ assignment_reads target.now source.now) }
{
    push_reads(out, source)?;
    push_target_reads(out, target)
}

fn push_arg_reads(out: &mut Vec<BitRange>, arg: &FormatArg) -> Result<(), AllocError>
    ensures { OnOk result (out.new.items ≡ out.old.items ++ arg_reads arg.now) }
{
    match arg {
        FormatArg::Value(_, e) => push_reads(out, e),
        FormatArg::Time => Ok(()),
    }
}

fn push_call_reads(out: &mut Vec<BitRange>, call: &Call) -> Result<(), AllocError>
    ensures { OnOk result (out.new.items ≡ out.old.items ++ call_reads call.now) }
{
    for arg in &call.args {
        push_arg_reads(out, arg)?;
    }
    Ok(())
}

#[cycle(statement_reads)]
fn push_statement_reads(out: &mut Vec<BitRange>, s: &Statement) -> Result<(), AllocError>
    ensures { OnOk result (out.new.items ≡ out.old.items ++ statement_reads s.now) }
{
    match s {
        Statement::Null(_) | Statement::Finish(_) => Ok(()),
        Statement::Assign(_, target, source) | Statement::Later(_, _, target, source) => {
            push_assignment_reads(out, target, source)
        }
        Statement::Call(_, call) => push_call_reads(out, call),
        Statement::Block(all) => push_block_reads(out, all),
        Statement::Delay(_, _, body) | Statement::Event(_, _, body) | Statement::Forever(_, body) =>
            push_statement_reads(out, body),
        Statement::If(_, condition, then, other) => {
            push_reads(out, condition)?;
            push_statement_reads(out, then)?;
            push_statement_reads(out, other)
        }
        Statement::Case(_, _, selector, items) => {
            push_reads(out, selector)?;
            push_item_reads(out, items)
        }
        Statement::While(_, e, body) | Statement::Repeat(_, _, e, body) => {
            push_reads(out, e)?;
            push_statement_reads(out, body)
        }
    }
}

#[cycle(statement_reads)]
fn push_block_reads(out: &mut Vec<BitRange>, all: &[Statement]) -> Result<(), AllocError>
    ensures { OnOk result (out.new.items ≡ out.old.items ++ joined (map statement_reads all.now)) }
{
    for s in all {
        push_statement_reads(out, s)?;
    }
    Ok(())
}

#[cycle(statement_reads)]
fn push_item_reads(
    out: &mut Vec<BitRange>,
    items: &[(Vec<Typed>, Statement)],
) -> Result<(), AllocError>
    ensures { OnOk result (out.new.items ≡ out.old.items ++ joined (map (λ i. all_reads i.0.items ++ statement_reads i.1) items.now)) }
{
    for (labels, body) in items {
        push_all_reads(out, labels)?;
        push_statement_reads(out, body)?;
    }
    Ok(())
}

/// The ranges that a statement reads, those of its text: what `@*` before it waits for (IEEE 1364-2005, clause 9.7.5).
pub fn statement_reads(alloc: Global, s: &Statement) -> Result<Vec<BitRange>, AllocError>
    ensures { IfOk result (λ ranges. ranges.items ≡ statement_reads s.now) }
{
    let mut out = Vec::new(alloc);
    push_statement_reads(&mut out, s)?;
    Ok(out)
}

#[cycle(event_terms)]
fn push_terms(out: &mut Vec<EventTerm>, s: &Statement) -> Result<(), AllocError>
    ensures { OnOk result (out.new.items ≡ out.old.items ++ event_terms s.now) }
{
    match s {
        Statement::Null(_)
        | Statement::Assign(_, _, _)
        | Statement::Later(_, _, _, _)
        | Statement::Call(_, _)
        | Statement::Finish(_) => Ok(()),
        Statement::Block(all) => push_block_terms(out, all),
        Statement::Delay(_, _, body)
        | Statement::While(_, _, body)
        | Statement::Repeat(_, _, _, body)
        | Statement::Forever(_, body) => push_terms(out, body),
        Statement::Event(_, terms, body) => {
            out.extend_from_slice(terms)?;
            push_terms(out, body)
        }
        Statement::If(_, _, then, other) => {
            push_terms(out, then)?;
            push_terms(out, other)
        }
        Statement::Case(_, _, _, items) => push_item_terms(out, items),
    }
}

#[cycle(event_terms)]
fn push_block_terms(out: &mut Vec<EventTerm>, all: &[Statement]) -> Result<(), AllocError>
    ensures { OnOk result (out.new.items ≡ out.old.items ++ joined (map event_terms all.now)) }
{
    for s in all {
        push_terms(out, s)?;
    }
    Ok(())
}

#[cycle(event_terms)]
fn push_item_terms(
    out: &mut Vec<EventTerm>,
    items: &[(Vec<Typed>, Statement)],
) -> Result<(), AllocError>
    ensures { OnOk result (out.new.items ≡ out.old.items ++ joined (map (λ i. event_terms i.1) items.now)) }
{
    for (_, body) in items {
        push_terms(out, body)?;
    }
    Ok(())
}

/// The terms of all event controls of a statement (IEEE 1364-2005, clause 9.7.2).
pub fn event_terms(alloc: Global, s: &Statement) -> Result<Vec<EventTerm>, AllocError>
    ensures { IfOk result (λ terms. terms.items ≡ event_terms s.now) }
{
    let mut out = Vec::new(alloc);
    push_terms(&mut out, s)?;
    Ok(out)
}

/// Whether a statement has a timing control: a delay or an event control (IEEE 1364-2005, clause 9.7). The delay of a
/// nonblocking assignment is none.
#[cycle(has_control)]
pub fn has_control(s: &Statement) -> bool
    ensures { result ≡ has_control s.now }
{
    match s {
        Statement::Null(_)
        | Statement::Assign(_, _, _)
        | Statement::Later(_, _, _, _)
        | Statement::Call(_, _)
        | Statement::Finish(_) => false,
        Statement::Delay(_, _, _) | Statement::Event(_, _, _) => true,
        Statement::Block(all) => has_control_in_block(all),
        Statement::If(_, _, then, other) => has_control(then) || has_control(other),
        Statement::Case(_, _, _, items) => has_control_in_items(items),
        Statement::While(_, _, body)
        | Statement::Repeat(_, _, _, body)
        | Statement::Forever(_, body) => has_control(body),
    }
}

#[cycle(has_control)]
fn has_control_in_block(all: &[Statement]) -> bool
    ensures { result ≡ list_any has_control all.now }
{
    for s in all {
        if has_control(s) {
            return true;
        }
    }
    false
}

#[cycle(has_control)]
fn has_control_in_items(items: &[(Vec<Typed>, Statement)]) -> bool
    ensures { result ≡ list_any (λ i. has_control i.1) items.now }
{
    for (_, body) in items {
        if has_control(body) {
            return true;
        }
    }
    false
}
