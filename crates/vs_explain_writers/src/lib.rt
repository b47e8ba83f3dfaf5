//! What is said of a signal that is written by too many processes, or in both ways, K2 and K3; and what is said of any rule: statements, terms and
//! signals with their places in the source, and when they run.
#![tactic(auto)]

mod claimed;
mod clocks;
mod connections;
mod residues;
mod sentences;
mod spots;
mod story;
mod times;
mod ways;
mod writers;
mod writes;

pub use claimed::{put_anew, put_subject};
pub use clocks::{
    ClockForm, form_of, has_clocks, longer_initial, turner_of, turning_in, turning_of,
    unlike_start, unsized_of,
};
pub use residues::{push_edge, put_residues, residues_of};
pub use sentences::{put_rule, sentence_of};
pub use spots::{
    Site, is_finish, mark_assign, mark_site, mark_term, point_at, put_path, put_short, put_signal,
    put_site, term_of, text_at, waiter_of,
};
pub use story::{Story, name_of, put_maybe, put_story};
pub use times::{common, edge_of, edge_times, free_before, in_order, push_times, put_times};
pub use vs_explain_facts;
pub use vs_explain_outline;
pub use ways::put_ways;
pub use writers::put_writers;
pub use writes::{Wanted, bit_given, is_turned, write_of};
