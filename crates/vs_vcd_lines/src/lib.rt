//! The lines of value change dumps of the layout in `docs/vcd.md`, read one by one, and whether a text begins such a line (IEEE 1364-2005, clause
//! 18).
#![tactic(auto)]

mod beginnings_changes;
mod beginnings_codes;
mod beginnings_names;
mod beginnings_numbers;
mod beginnings_variables;
mod changes;
mod codes;
mod cuts;
mod declarations;
mod dump;
mod ends;
mod laws;
mod lines;
mod names;
mod numbers;
mod scopes;
mod texts;
mod ticks;
mod times;
mod values;
mod variables;
mod words;

pub use beginnings_changes::begins_change;
pub use beginnings_variables::begins_variable;
pub use changes::change_of;
pub use codes::number_of;
pub use cuts::cut;
pub use declarations::declaration_of;
pub use dump::{Declaration, ValueChange, Variable};
pub use ends::{after, is_same};
pub use laws::variable_lines_are_one;
pub use lines::{scope_of, span_of, time_of};
pub use names::{are_printable, is_body, is_first, is_further};
pub use numbers::signed_of;
pub use scopes::begins_scope;
pub use texts::begins;
pub use ticks::begins_span;
pub use times::reaches;
pub use values::{digit_of, value_of};
pub use variables::variable_of;
pub use vs_vcd_writing;
pub use words::{kind_of, size_of_word};
