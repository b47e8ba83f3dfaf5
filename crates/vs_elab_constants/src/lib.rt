//! The values of parameters, what names are bound to before they are known, and what generate constructs generate (IEEE 1364-2005, clauses 12.2,
//! 12.4 and 12.7).
#![tactic(auto)]

mod branches;
mod conditions;
mod counting;
mod early;
mod evaluating;
mod finding;
mod genvars;
mod loops;
mod numbering;
mod opening;
mod order;

pub use branches::chosen;
pub use conditions::holds;
pub use counting::turns_after;
pub use early::{SignalNames, early_names};
pub use evaluating::{ParameterValues, block_values, values};
pub use loops::turns;
pub use numbering::unnamed_name;
pub use opening::{Inner, Use, inners};
pub use vs_widths;
