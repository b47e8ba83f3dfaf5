//! That the traces of a disciplined design do not depend on the order in which its permitted steps are taken, nor what its processes print;
//! and that a design that keeps the rules of a certificate is disciplined.
#![tactic(auto)]

mod laws;
mod rule_laws;

pub use laws::{discipline_makes_displays_alike, discipline_makes_independent, lines_are_of_slots};
pub use rule_laws::{
    clocks_turn, rules_discipline, rules_make_displays_alike, rules_make_independent,
};
