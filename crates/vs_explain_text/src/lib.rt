//! What is said of a refusal of tokens or of the grammar.
#![tactic(auto)]

mod features;
mod grammar;
mod later;
mod left_out;
mod literals;
mod open;
mod possible;
mod refused;
mod strings;
mod tables;
mod tokens;

pub use grammar::explain_grammar;
pub use tokens::explain_tokens;
pub use vs_explain_outline;
pub use vs_parser;
