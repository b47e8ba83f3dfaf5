//! Scopes while their members are added to a design, and the faults there.
ghost use Rattle.std.specs.Prelude.{◌≡◌, ◌-◌, length, take};
ghost use Rattle.vs_elab_statements.specs.vs_scopes.specs.Printed.{Path};
ghost use Rattle.vs_elab_statements.specs.Surroundings.{Surroundings};
ghost use Rattle.vs_elab_statements.specs.vs_scopes.specs.Scopes.{Scope};
ghost use Rattle.vs_elab_statements.specs.vs_scopes.specs.scopes_passes.Answers.{IsFaultAt, IsRefusal, IsReported};
ghost use Rattle.vs_elab_statements.specs.vs_scopes.specs.scopes_passes.Names.{read_path};
ghost use Rattle.vs_elab_statements.specs.Members.{Behavior};
ghost use Rattle.vs_elab_statements.specs.passes.Faults.{IsBelow};
ghost use Rattle.vs_elab_statements.specs.passes.Views.{IsPlaced};
ghost use Rattle.vs_elaborate.specs.passes.Filling.{IsFrame, IsFaultIn, RunFails};

use std::alloc::Global;
use vs_elab_statements::vs_elab_signals::{fault_at, path};
use vs_elab_statements::vs_scopes::{BodyFault, ElabFault, PathName, Reason};
use vs_elab_statements::{StatementFault, View};

/// A scope while its members are added to a design.
#[derive(Drop)]
pub struct Frame<'s, 'o> {
    /// The names from the top to the scope.
    pub path: Vec<PathName<'s>>,
    /// The scope, and what names are bound to there.
    pub view: View<'s, 'o>,
}

/// A fault of a part of a scope, at the scope.
pub fn part_fault(alloc: Global, frame: &Frame, fault: BodyFault) -> ElabFault
    ensures { IsRefusal (read_path frame.now.path.items) fault result }
{
    match fault {
        BodyFault::Memory => ElabFault::Memory,
        BodyFault::Refused(reason) => fault_at(alloc, &frame.path, reason),
    }
}

/// A fault of a connection of a scope, at the scope around it.
pub fn outer_fault(alloc: Global, frame: &Frame, fault: BodyFault) -> ElabFault
    ensures { IsRefusal (take (length frame.now.path.items - 1) (read_path frame.now.path.items)) fault result }
{
    match fault {
        BodyFault::Memory => ElabFault::Memory,
        BodyFault::Refused(reason) => {
            let outer = &frame.path[..frame.path.len().saturating_sub(1)];
            fault_at(alloc, outer, reason)
        }
    }
}

/// A fault at the scope of a place.
fn place_fault(alloc: Global, frame: &Frame, place: usize, reason: Reason) -> ElabFault
    requires { IsPlaced frame.now.view.list.now place }
    ensures { (envs : Path → Surroundings) → IsFaultIn envs frame.now.view.list.now place reason result }
{
    match path(alloc, frame.view.list, place) {
        Ok(titles) => fault_at(alloc, &titles, reason),
        Err(_) => ElabFault::Memory,
    }
}

/// A fault of a process of a scope, at the innermost scope where it stands.
pub fn process_fault(alloc: Global, frame: &Frame, fault: StatementFault) -> ElabFault
    requires placed { IsPlaced frame.now.view.list.now frame.now.view.place }
    requires below { IsBelow (length frame.now.view.list.now) fault }
    ensures { (envs : Path → Surroundings) (s : Scope) (b : Behavior) → IsFrame frame.now envs s
        → RunFails envs frame.now s b fault result }
{
    match fault {
        StatementFault::Memory => ElabFault::Memory,
        StatementFault::Overfull => fault_at(alloc, &frame.path, Reason::Limit),
        StatementFault::Refused(reason) => fault_at(alloc, &frame.path, reason),
        StatementFault::Inside(place, reason) => place_fault(alloc, frame, place, reason),
    }
}
