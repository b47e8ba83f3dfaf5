//! Calls of system tasks that print (IEEE 1364-2005, clause 17.1).
ghost use Rattle.std.specs.Prelude.{◌≡◌, ◌<◌, ◌≤◌, ◌^◌, None, length, IfOk, MatchResult};
ghost use Rattle.std.specs.List.{list_any, AllZip};
ghost use Rattle.vs_scopes.specs.vs_widths.specs.Environment.{Environment};
ghost use Rattle.vs_scopes.specs.vs_strobe.specs.Pieces.{format_fault};
ghost use Rattle.vs_widths.specs.Names.{meaning_of};
ghost use Rattle.vs_scopes.specs.Printed.{Path, printed};
ghost use Rattle.vs_scopes.specs.scopes_passes.Answers.{Elaborates, Refuses};
ghost use Rattle.vs_elab_statements.specs.Surroundings.{Surroundings};
ghost use Rattle.vs_elab_statements.specs.Statements.{call_kind, print_fault, argument_fault, IsArgument, IsCall};
ghost use Rattle.vs_elab_statements.specs.passes.Bodies.{format_faults, call_fault, MakesCall};
ghost use Rattle.vs_elab_statements.specs.passes.Views.{IsView, IsPlaced};

use crate::operands::operand;
use crate::views::View;
use std::alloc::{AllocError, Global};
use vs_design::{Call, CallKind, FormatArg};
use vs_elab_signals::path;
use vs_scopes::vs_strobe::{Format, FormatFault};
use vs_scopes::{BodyFault, Reason, print_path};
use vs_syntax::{Argument, PrintArguments, PrintTask};
use vs_widths::Levels;

/// When the line of a call is made.
fn call_kind(task: PrintTask) -> CallKind
    ensures { result ≡ call_kind task }
{
    match task {
        PrintTask::Display => CallKind::Display,
        PrintTask::Strobe => CallKind::Strobe,
    }
}

/// An argument of a call.
fn argument(alloc: Global, names: &Levels, one: &Argument) -> Result<FormatArg, BodyFault>
    ensures { let env = meaning_of names.now in
        Elaborates (λ r. argument_fault r env one.now) (IsArgument env one.now) result }
{
    match one {
        Argument::Value(e) => {
            let (signed, value) = operand(alloc, names, e)?;
            Ok(FormatArg::Value(signed, value))
        }
        Argument::Time => Ok(FormatArg::Time),
    }
}

/// The arguments of a call, in the order of the text.
fn arguments(alloc: Global, names: &Levels, all: &[Argument]) -> Result<Vec<FormatArg>, BodyFault>
    ensures { let env = meaning_of names.now in
        Elaborates (λ r. list_any (argument_fault r env) all.now) (λ v. AllZip (IsArgument env) all.now v.items) result }
{
    let mut done = Vec::with_capacity(alloc, all.len())?;
    for one in all {
        let value = argument(alloc, names, one)?;
        done.push(value)?;
    }
    Ok(done)
}

/// Sees that a text fits its arguments, in the scope of a path, where a unit of time is so many ticks.
fn check_format(
    alloc: Global,
    text: &[u8],
    args: &[FormatArg],
    path: &[u8],
    ratio: u64,
) -> Result<(), BodyFault>
    requires some { 0 < ratio }
    requires most { ratio ≤ 10 ^ 17 }
    ensures { let found = format_fault text.now (length args.now) in
        MatchResult result (λ _. found ≡ None) (Refuses (format_faults found)) }
{
    match Format::read(alloc, text, args, path, ratio) {
        Ok(_) => Ok(()),
        Err(FormatFault::Memory) => Err(BodyFault::Memory),
        Err(FormatFault::Refused(reason)) => Err(BodyFault::Refused(Reason::Format(reason))),
    }
}

/// The path of the scope of a view, as it is printed.
fn view_path(alloc: Global, view: &View) -> Result<Vec<u8>, AllocError>
    requires { IsPlaced view.now.list.now view.now.place }
    ensures { (envs : Path → Surroundings) (p : Path) → IsView view.now envs p → IfOk result (λ v. v.items ≡ printed p) }
{
    let titles = path(alloc, view.list, view.place)?;
    print_path(alloc, &titles)
}

/// A call of these parts.
fn call_of(
    alloc: Global,
    view: &View,
    kind: CallKind,
    text: &[u8],
    all: &[Argument],
) -> Result<Call, BodyFault>
    requires { IsPlaced view.now.list.now view.now.place }
    ensures { (envs : Path → Surroundings) (p : Path) → IsView view.now envs p →
        Elaborates (call_fault (envs p).names text.now all.now) (MakesCall (envs p) p kind text.now all.now) result }
{
    let args = arguments(alloc, view.names, all)?;
    let path = view_path(alloc, view)?;
    check_format(alloc, text, &args, &path, view.ratio.ticks)?;
    let mut bytes = Vec::new(alloc);
    bytes.extend_from_slice(text)?;
    Ok(Call {
        kind,
        text: bytes,
        args,
        path,
        ratio: view.ratio.ticks,
    })
}

/// The call that a `$display` or a `$strobe` is in the scope of a view.
pub fn call(
    alloc: Global,
    view: &View,
    task: PrintTask,
    all: &PrintArguments,
) -> Result<Call, BodyFault>
    requires { IsPlaced view.now.list.now view.now.place }
    ensures { (envs : Path → Surroundings) (p : Path) → IsView view.now envs p →
        Elaborates (λ r. print_fault r (envs p).names all.now) (IsCall (envs p).names (envs p).ratio p task all.now) result }
{
    let kind = call_kind(task);
    match all {
        PrintArguments::Missing => call_of(alloc, view, kind, b"", &[]),
        PrintArguments::Empty => call_of(alloc, view, kind, b"", &[]),
        PrintArguments::Text(text, values) => call_of(alloc, view, kind, text, values),
    }
}
