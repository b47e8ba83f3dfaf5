//! The processes of a scope, as parts of a design.
ghost use Rattle.std.specs.Prelude.{◌≡◌, ◌∷◌, [], Some, length, IfErr};
ghost use Rattle.std.specs.List.{flat_map};
ghost use Rattle.vs_elab_hierarchy.specs.vs_scopes.specs.Pieces.{blocks_of};
ghost use Rattle.vs_elab_hierarchy.specs.vs_scopes.specs.Reads.{read_piece};
ghost use Rattle.vs_elab_statements.specs.vs_scopes.specs.Printed.{Path};
ghost use Rattle.vs_elab_statements.specs.vs_scopes.specs.Scopes.{Scope};
ghost use Rattle.vs_elab_statements.specs.vs_scopes.specs.scopes_passes.Answers.{Grows};
ghost use Rattle.vs_elab_statements.specs.vs_scopes.specs.scopes_passes.Parts.{read_port};
ghost use Rattle.vs_elab_statements.specs.Members.{Behavior, setting, behaviors_by_item, behaviors_in, port_setting};
ghost use Rattle.vs_elab_statements.specs.Processes.{kind_of};
ghost use Rattle.vs_elab_statements.specs.Surroundings.{Surroundings};
ghost use Rattle.vs_elab_statements.specs.passes.Bodies.{Embodies};
ghost use Rattle.vs_elab_statements.specs.passes.Faults.{IsBelow};
ghost use Rattle.vs_elab_statements.specs.passes.Views.{IsPlaced};
ghost use Rattle.vs_elab_statements.specs.Blocks.{HaveScopes};
ghost use Rattle.vs_elaborate.specs.passes.Filling.{IsFrame, Runs, RunsNot, HaveBlockScopes, process_blocks};

use crate::Contents;
use crate::frames::{Frame, process_fault};
use std::alloc::Global;
use vs_design::{Process, ProcessKind, Statement};
use vs_elab_hierarchy::vs_scopes::ScopePiece;
use vs_elab_statements::vs_scopes::{ElabFault, ModulePort, print_part};
use vs_elab_statements::{StatementFault, repeat_body, run_body, set_body};
use vs_syntax::{Declarator, Expr, Item};

/// Adds a process of a scope whose first one has this number in the design.
fn run(
    alloc: Global,
    frame: &Frame,
    first: usize,
    kind: ProcessKind,
    body: Result<Statement, StatementFault>,
    contents: &mut Contents,
) -> Result<(), ElabFault>
    requires placed { IsPlaced frame.now.view.list.now frame.now.view.place }
    requires below { IfErr body (IsBelow (length frame.now.view.list.now)) }
    ensures { (envs : Path → Surroundings) (s : Scope) (b : Behavior) → IsFrame frame.now envs s → kind ≡ kind_of b →
        Embodies frame.now.view.list.now envs s.path b body →
        Grows (Runs envs s first contents.old) (Runs envs s first contents.new) (RunsNot envs s) (b ∷ []) result }
{
    match body {
        Ok(body) => {
            let number = contents.processes.len().saturating_sub(first);
            let name = print_part(alloc, &frame.path, b'p', number)?;
            contents.processes.push(Process { name, kind, body })?;
            Ok(())
        }
        Err(fault) => Err(process_fault(alloc, frame, fault)),
    }
}

/// Adds the process of the declaration assignment of a variable of this name.
fn run_value(
    alloc: Global,
    frame: &Frame,
    first: usize,
    name: &[u8],
    value: &Expr,
    contents: &mut Contents,
) -> Result<(), ElabFault>
    requires { IsPlaced frame.now.view.list.now frame.now.view.place }
    ensures { (envs : Path → Surroundings) (s : Scope) → IsFrame frame.now envs s →
        Grows (Runs envs s first contents.old) (Runs envs s first contents.new) (RunsNot envs s) (setting name.now (Some value.now)) result }
{
    let body = set_body(alloc, &frame.view, name, value);
    run(alloc, frame, first, ProcessKind::Initial, body, contents)
}

/// Adds the process of the declaration assignment of a variable, where it has one.
fn run_setting(
    alloc: Global,
    frame: &Frame,
    first: usize,
    declarator: &Declarator,
    contents: &mut Contents,
) -> Result<(), ElabFault>
    requires { IsPlaced frame.now.view.list.now frame.now.view.place }
    ensures { (envs : Path → Surroundings) (s : Scope) → IsFrame frame.now envs s →
        Grows (Runs envs s first contents.old) (Runs envs s first contents.new) (RunsNot envs s)
        (setting declarator.now.name.items declarator.now.value) result }
{
    match &declarator.value {
        Some(value) => run_value(alloc, frame, first, &declarator.name, value, contents),
        None => Ok(()),
    }
}

/// Adds the processes of the declaration assignments of variables.
fn run_declared(
    alloc: Global,
    frame: &Frame,
    first: usize,
    declarators: &[Declarator],
    contents: &mut Contents,
) -> Result<(), ElabFault>
    requires { IsPlaced frame.now.view.list.now frame.now.view.place }
    ensures { (envs : Path → Surroundings) (s : Scope) → IsFrame frame.now envs s →
        Grows (Runs envs s first contents.old) (Runs envs s first contents.new) (RunsNot envs s)
        (flat_map (λ d. setting d.name.items d.value) declarators.now) result }
{
    for declarator in declarators {
        run_setting(alloc, frame, first, declarator, contents)?;
    }
    Ok(())
}

/// Adds the processes of an item.
fn run_item(
    alloc: Global,
    frame: &Frame,
    first: usize,
    item: &Item,
    contents: &mut Contents,
) -> Result<(), ElabFault>
    requires placed { IsPlaced frame.now.view.list.now frame.now.view.place }
    requires blocks { HaveScopes frame.now.view.list.now frame.now.view.place (blocks_of item.now) }
    ensures { (envs : Path → Surroundings) (s : Scope) → IsFrame frame.now envs s →
        Grows (Runs envs s first contents.old) (Runs envs s first contents.new) (RunsNot envs s) (behaviors_by_item item.now) result }
{
    match item {
        Item::Reg(_, list) => run_declared(alloc, frame, first, list, contents),
        Item::Integer(list) => run_declared(alloc, frame, first, list, contents),
        Item::Initial(s) => {
            let body = run_body(alloc, &frame.view, s);
            run(alloc, frame, first, ProcessKind::Initial, body, contents)
        }
        Item::Always(s) => {
            let body = repeat_body(alloc, &frame.view, s);
            run(alloc, frame, first, ProcessKind::Always, body, contents)
        }
        _ => Ok(()),
    }
}

/// Adds the processes of a piece.
fn run_piece(
    alloc: Global,
    frame: &Frame,
    first: usize,
    piece: &ScopePiece,
    contents: &mut Contents,
) -> Result<(), ElabFault>
    requires placed { IsPlaced frame.now.view.list.now frame.now.view.place }
    requires blocks { HaveScopes frame.now.view.list.now frame.now.view.place (process_blocks (read_piece piece.now)) }
    ensures { (envs : Path → Surroundings) (s : Scope) → IsFrame frame.now envs s →
        Grows (Runs envs s first contents.old) (Runs envs s first contents.new) (RunsNot envs s) (behaviors_in (read_piece piece.now)) result }
{
    match piece {
        ScopePiece::Plain(item) => run_item(alloc, frame, first, item, contents),
        _ => Ok(()),
    }
}

/// Adds the processes of pieces.
pub fn run_pieces(
    alloc: Global,
    frame: &Frame,
    first: usize,
    pieces: &[ScopePiece],
    contents: &mut Contents,
) -> Result<(), ElabFault>
    requires placed { IsPlaced frame.now.view.list.now frame.now.view.place }
    requires blocks { HaveBlockScopes frame.now.view.list.now frame.now.view.place pieces.now }
    ensures { (envs : Path → Surroundings) (s : Scope) → IsFrame frame.now envs s →
        Grows (Runs envs s first contents.old) (Runs envs s first contents.new) (RunsNot envs s)
        (flat_map (λ x. behaviors_in (read_piece x)) pieces.now) result }
{
    for piece in pieces {
        run_piece(alloc, frame, first, piece, contents)?;
    }
    Ok(())
}

/// Adds the process of the declaration assignment of a port, where it has one.
fn run_port(
    alloc: Global,
    frame: &Frame,
    first: usize,
    port: &ModulePort,
    contents: &mut Contents,
) -> Result<(), ElabFault>
    requires { IsPlaced frame.now.view.list.now frame.now.view.place }
    ensures { (envs : Path → Surroundings) (s : Scope) → IsFrame frame.now envs s →
        Grows (Runs envs s first contents.old) (Runs envs s first contents.new) (RunsNot envs s) (port_setting (read_port port.now)) result }
{
    match port.value {
        Some(value) => run_value(alloc, frame, first, port.name, value, contents),
        None => Ok(()),
    }
}

/// Adds the processes of the declaration assignments of ports (IEEE 1364-2005, clause 6.2.1).
pub fn run_ports(
    alloc: Global,
    frame: &Frame,
    first: usize,
    ports: &[ModulePort],
    contents: &mut Contents,
) -> Result<(), ElabFault>
    requires { IsPlaced frame.now.view.list.now frame.now.view.place }
    ensures { (envs : Path → Surroundings) (s : Scope) → IsFrame frame.now envs s →
        Grows (Runs envs s first contents.old) (Runs envs s first contents.new) (RunsNot envs s)
        (flat_map (λ x. port_setting (read_port x)) ports.now) result }
{
    for port in ports {
        run_port(alloc, frame, first, port, contents)?;
    }
    Ok(())
}
