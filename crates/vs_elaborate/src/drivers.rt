//! The continuous assignments of the text of a scope, as parts of a design.
ghost use Rattle.std.specs.Prelude.{◌≡◌, ◌∷◌, [], map};
ghost use Rattle.std.specs.List.{flat_map};
ghost use Rattle.vs_elab_statements.specs.vs_widths.specs.declared.kinds.AssignmentKind.TheVariants.{Continuous};
ghost use Rattle.vs_elab_hierarchy.specs.vs_scopes.specs.Reads.{read_piece};
ghost use Rattle.vs_elab_statements.specs.vs_scopes.specs.Printed.{Path};
ghost use Rattle.vs_elab_statements.specs.Surroundings.{Surroundings};
ghost use Rattle.vs_elab_statements.specs.vs_scopes.specs.Scopes.{Scope, environment};
ghost use Rattle.vs_elab_statements.specs.vs_scopes.specs.scopes_passes.Answers.{Elaborates, Grows};
ghost use Rattle.vs_elab_statements.specs.Statements.{IsAssignment};
ghost use Rattle.vs_elab_statements.specs.Members.{Assignment, values_of, net_assignment, drivers_by_item, drivers_in};
ghost use Rattle.vs_elaborate.specs.passes.Filling.{IsFrame, text_faults, Drives, DrivesNot};

use crate::frames::{Frame, part_fault};
use std::alloc::Global;
use vs_design::{Assign, Target, Typed};
use vs_elab_hierarchy::vs_scopes::ScopePiece;
use vs_elab_statements::vs_scopes::{BodyFault, ElabFault, print_part};
use vs_elab_statements::vs_widths::AssignmentKind;
use vs_elab_statements::{assignment, declared_assignment};
use vs_syntax::{Declarator, Item, NetAssignment};

/// The kind of an assignment that drives a net.
const CONTINUOUS: AssignmentKind = AssignmentKind::Continuous;

/// Adds a continuous assignment with these sides to those of the text of a scope.
fn drive(
    alloc: Global,
    frame: &Frame,
    sides: Result<(Target, Typed), BodyFault>,
    assigns: &mut Vec<Assign>,
) -> Result<(), ElabFault>
    ensures { (envs : Path → Surroundings) (s : Scope) (a : Assignment) → IsFrame frame.now envs s →
        Elaborates (λ r. text_faults s r a)
        (λ p. IsAssignment Continuous (environment s) a.target a.value p.0 p.1) sides →
        Grows (Drives s assigns.old.items) (Drives s assigns.new.items) (DrivesNot s) (a ∷ []) result }
{
    match sides {
        Ok((target, source)) => {
            let number = assigns.len();
            let name = print_part(alloc, &frame.path, b'a', number)?;
            assigns.push(Assign {
                name,
                target,
                source,
            })?;
            Ok(())
        }
        Err(fault) => Err(part_fault(alloc, frame, fault)),
    }
}

/// Adds the declaration assignments of nets.
fn drive_declared(
    alloc: Global,
    frame: &Frame,
    declarators: &[Declarator],
    assigns: &mut Vec<Assign>,
) -> Result<(), ElabFault>
    ensures { (envs : Path → Surroundings) (s : Scope) → IsFrame frame.now envs s →
        Grows (Drives s assigns.old.items) (Drives s assigns.new.items) (DrivesNot s) (values_of declarators.now) result }
{
    for declarator in declarators {
        if let Some(value) = &declarator.value {
            let sides = declared_assignment(
                alloc,
                frame.view.names,
                CONTINUOUS,
                &declarator.name,
                value,
            );
            drive(alloc, frame, sides, assigns)?;
        }
    }
    Ok(())
}

/// Adds the assignments of an `assign`.
fn drive_assigned(
    alloc: Global,
    frame: &Frame,
    list: &[NetAssignment],
    assigns: &mut Vec<Assign>,
) -> Result<(), ElabFault>
    ensures { (envs : Path → Surroundings) (s : Scope) → IsFrame frame.now envs s →
        Grows (Drives s assigns.old.items) (Drives s assigns.new.items) (DrivesNot s) (map net_assignment list.now) result }
{
    for one in list {
        let sides = assignment(alloc, frame.view.names, CONTINUOUS, &one.target, &one.value);
        drive(alloc, frame, sides, assigns)?;
    }
    Ok(())
}

/// Adds the continuous assignments of an item.
fn drive_item(
    alloc: Global,
    frame: &Frame,
    item: &Item,
    assigns: &mut Vec<Assign>,
) -> Result<(), ElabFault>
    ensures { (envs : Path → Surroundings) (s : Scope) → IsFrame frame.now envs s →
        Grows (Drives s assigns.old.items) (Drives s assigns.new.items) (DrivesNot s) (drivers_by_item item.now) result }
{
    match item {
        Item::Wire(_, list) => drive_declared(alloc, frame, list, assigns),
        Item::Assign(list) => drive_assigned(alloc, frame, list, assigns),
        _ => Ok(()),
    }
}

/// Adds the continuous assignments of a piece.
fn drive_piece(
    alloc: Global,
    frame: &Frame,
    piece: &ScopePiece,
    assigns: &mut Vec<Assign>,
) -> Result<(), ElabFault>
    ensures { (envs : Path → Surroundings) (s : Scope) → IsFrame frame.now envs s →
        Grows (Drives s assigns.old.items) (Drives s assigns.new.items) (DrivesNot s) (drivers_in (read_piece piece.now)) result }
{
    match piece {
        ScopePiece::Plain(item) => drive_item(alloc, frame, item, assigns),
        _ => Ok(()),
    }
}

/// Adds the continuous assignments of pieces.
pub fn drive_pieces(
    alloc: Global,
    frame: &Frame,
    pieces: &[ScopePiece],
    assigns: &mut Vec<Assign>,
) -> Result<(), ElabFault>
    ensures { (envs : Path → Surroundings) (s : Scope) → IsFrame frame.now envs s →
        Grows (Drives s assigns.old.items) (Drives s assigns.new.items) (DrivesNot s)
        (flat_map (λ x. drivers_in (read_piece x)) pieces.now) result }
{
    for piece in pieces {
        drive_piece(alloc, frame, piece, assigns)?;
    }
    Ok(())
}
