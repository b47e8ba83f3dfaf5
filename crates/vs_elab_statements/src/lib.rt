//! Statements and the two sides of assignments as parts of a design: operands, delays, terms of event controls, `case` items, calls of system tasks,
//! and the bodies of processes that they make (IEEE 1364-2005, clauses 6, 9 and 17).
#![tactic(auto)]

mod around;
mod assignments;
mod bodies;
mod calls;
mod cases;
mod events;
mod faults;
mod numbers;
mod operands;
mod simple;
mod statements;
mod views;

pub use around::{
    delay_around, event_around, for_around, forever_around, if_around, repeat_around, while_around,
};
pub use assignments::{assignment, declared_assignment, name_source, source};
pub use bodies::{repeat_body, run_body, set_body};
pub use calls::call;
pub use cases::{case_operand, label_values};
pub use events::event_terms;
pub use faults::{StatementFault, deeper};
pub use numbers::{PROCEDURAL, numbered, take_number};
pub use operands::{delay, due, operand};
pub use simple::{assign, finish, later, null, print};
pub use views::{Ratio, View};
pub use vs_elab_signals;
pub use vs_scopes;
pub use vs_widths;
