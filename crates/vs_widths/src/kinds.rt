//! What names with selects are wanted for.
ghost use Rattle.std.specs.Prelude.{◌≡◌};
ghost use Rattle.vs_widths.specs.Lefts.{takes};

use vs_design::SignalKind;

/// Whether a name with its selects is assigned by a statement, is a net that is driven, or is waited for (IEEE 1364-2005, clauses 6 and
/// 9.7.2).
#[derive(Clone, Copy, PartialEq, Eq)]
pub enum AssignmentKind {
    /// A statement, or the declaration assignment of a variable.
    Procedural,
    /// An assignment of `assign`, or the declaration assignment of a net.
    Continuous,
    /// No assignment: a term of an event control, which names any signal, by constant selects.
    Event,
}

/// Whether a signal of a kind may be wanted for this (IEEE 1364-2005, clauses 6.1, 9.2 and 9.7.2).
pub fn takes_kind(how: AssignmentKind, kind: SignalKind) -> bool
    ensures { result ≡ takes how kind }
{
    match (how, kind) {
        (AssignmentKind::Event, _) => true,
        (_, SignalKind::Wire) => how == AssignmentKind::Continuous,
        (_, SignalKind::Reg | SignalKind::Integer) => how == AssignmentKind::Procedural,
    }
}
