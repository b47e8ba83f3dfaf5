//! The continuous assignments of the ports of a scope, as parts of a design.
ghost use Rattle.std.specs.Prelude.{◌≡◌, ◌∷◌, [], map, true, false};
ghost use Rattle.vs_elab_statements.specs.vs_widths.specs.Names.{meaning_of};
ghost use Rattle.vs_elab_statements.specs.vs_widths.specs.Lefts.{is_left};
ghost use Rattle.vs_elab_statements.specs.vs_scopes.specs.Printed.{Path};
ghost use Rattle.vs_elab_statements.specs.Surroundings.{Surroundings};
ghost use Rattle.vs_elab_statements.specs.vs_scopes.specs.Scopes.{Scope, is_wrong_end, has_wrong_end};
ghost use Rattle.vs_elab_statements.specs.vs_scopes.specs.scopes_passes.Answers.{Elaborates, Grows};
ghost use Rattle.vs_elab_statements.specs.vs_scopes.specs.scopes_passes.Parts.{read_port, read_ends};
ghost use Rattle.vs_elab_statements.specs.Members.{into, out_of, connected, port_drivers};
ghost use Rattle.vs_elaborate.specs.Drivers.{IsPortAssign, port_driver_fault};
ghost use Rattle.vs_elaborate.specs.passes.Filling.{IsFrame, IsLeftEnd, Connects, ConnectsNot};

use crate::frames::{Frame, outer_fault};
use std::alloc::Global;
use vs_design::{Assign, Target, Typed};
use vs_elab_statements::vs_scopes::{BodyFault, ElabFault, ModulePort, print_port_part};
use vs_elab_statements::vs_widths::{AssignmentKind, Levels, expr_target, name_target};
use vs_elab_statements::{name_source, source};
use vs_syntax::{Direction, Expr};

/// The kind of an assignment that drives a net.
const CONTINUOUS: AssignmentKind = AssignmentKind::Continuous;

/// The two sides of the assignment of an input: from an expression around the scope to the port (IEEE 1364-2005, clause 12.3.3).
fn into_port(
    alloc: Global,
    names: &Levels,
    outer: &Levels,
    port: &[u8],
    e: &Expr,
) -> Result<(Target, Typed), BodyFault>
    ensures { let own = meaning_of names.now in let around = meaning_of outer.now in
        Elaborates (λ r. port_driver_fault r own around (into port.now e.now))
        (λ p. IsPortAssign own around (into port.now e.now) p.0 p.1) result }
{
    let target = name_target(alloc, names, CONTINUOUS, port)?;
    let source = source(alloc, outer, target.width, e)?;
    Ok((target, source))
}

/// The two sides of the assignment of an output: from the port to the left side around the scope (IEEE 1364-2005, clause 12.3.3).
fn out_of_port(
    alloc: Global,
    names: &Levels,
    outer: &Levels,
    port: &[u8],
    e: &Expr,
) -> Result<(Target, Typed), BodyFault>
    requires { is_left e.now ≡ true }
    ensures { let own = meaning_of names.now in let around = meaning_of outer.now in
        Elaborates (λ r. port_driver_fault r own around (out_of port.now e.now))
        (λ p. IsPortAssign own around (out_of port.now e.now) p.0 p.1) result }
{
    let target = expr_target(alloc, outer, CONTINUOUS, e)?;
    let source = name_source(alloc, names, target.width, port)?;
    Ok((target, source))
}

/// The two sides of the assignment of a port.
fn port_sides(
    alloc: Global,
    names: &Levels,
    outer: &Levels,
    port: &ModulePort,
    e: &Expr,
) -> Result<(Target, Typed), BodyFault>
    requires { IsLeftEnd (read_port port.now) e.now }
    ensures { let own = meaning_of names.now in let around = meaning_of outer.now in
        let d = connected port.now.direction port.now.name.now e.now in
        Elaborates (λ r. port_driver_fault r own around d) (λ p. IsPortAssign own around d p.0 p.1) result }
{
    match port.direction {
        Direction::Input => into_port(alloc, names, outer, port.name, e),
        Direction::Output => out_of_port(alloc, names, outer, port.name, e),
    }
}

/// Adds the continuous assignment of a port.
fn drive_port(
    alloc: Global,
    frame: &Frame,
    outer: &Levels,
    port: &ModulePort,
    e: &Expr,
    assigns: &mut Vec<Assign>,
) -> Result<(), ElabFault>
    requires { IsLeftEnd (read_port port.now) e.now }
    ensures { (envs : Path → Surroundings) (s : Scope) → IsFrame frame.now envs s → meaning_of outer.now ≡ s.outer →
        Grows (Connects s assigns.old.items) (Connects s assigns.new.items) (ConnectsNot s)
        (connected port.now.direction port.now.name.now e.now ∷ []) result }
{
    match port_sides(alloc, frame.view.names, outer, port, e) {
        Ok((target, source)) => {
            let name = print_port_part(alloc, &frame.path, port.name)?;
            assigns.push(Assign {
                name,
                target,
                source,
            })?;
            Ok(())
        }
        Err(fault) => Err(outer_fault(alloc, frame, fault)),
    }
}

/// Adds the continuous assignments of the ports of a scope, in port order (IEEE 1364-2005, clause 12.3.10).
pub fn drive_ports(
    alloc: Global,
    frame: &Frame,
    outer: &Levels,
    ports: &[ModulePort],
    ends: &[Option<&Expr>],
    assigns: &mut Vec<Assign>,
) -> Result<(), ElabFault>
    requires { has_wrong_end (map read_port ports.now) (read_ends ends.now) ≡ false }
    ensures { (envs : Path → Surroundings) (s : Scope) → IsFrame frame.now envs s → meaning_of outer.now ≡ s.outer →
        Grows (Connects s assigns.old.items) (Connects s assigns.new.items) (ConnectsNot s)
        (port_drivers (map read_port ports.now) (read_ends ends.now)) result }
{
    let count = ports.len().min(ends.len());
    for place in 0..count {
        if let Some(e) = ends[place] {
            drive_port(alloc, frame, outer, &ports[place], e, assigns)?;
        }
    }
    Ok(())
}
