//! Sizes, signs and constants: what a name with selects names (IEEE 1364-2005, clause 5.2), how expressions of a source become those of a design
//! (clauses 5.4 and 5.5), and left sides targets (clauses 5.2.1 and 9.2).
#![tactic(auto)]

mod aiming;
mod bindings;
mod calls;
mod constants;
mod faults;
mod fitting;
mod fixing;
mod forms;
mod kinds;
mod lefts;
mod levels;
mod linking;
mod measuring;
mod names;
mod places;
mod selected;
mod shape;

pub use bindings::{Binding, Meaning};
pub use calls::{constant, constant_at, shape_of, shape_of_name, typed, typed_name};
pub use constants::{Const, count_of, known};
pub use faults::{WidthFault, WidthReason};
pub use fitting::fitted;
pub use fixing::{excerpt, fixed, operand, selection};
pub use forms::{Measured, Sizable};
pub use kinds::{AssignmentKind, takes_kind};
pub use lefts::{expr_target, is_left, name_target, target};
pub use levels::Levels;
pub use measuring::measured_selects;
pub use names::Names;
pub use places::{ChosenBits, Extent, bits_of_constant, named};
pub use selected::selected_target;
pub use shape::{BIT, Shape};
