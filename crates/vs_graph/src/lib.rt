//! Walks in graphs, an order of things of which some need others, lists of residues and of numbers, and the first of some things that breaks a rule.
#![tactic(auto)]

mod families;
mod gathered;
mod local_walks;
mod numbers;
mod residues;
mod rows;
mod rules;
mod sorting;
mod walks;

pub use families::{Family, all_are, gather, has, is_apart};
pub use gathered::Gathered;
pub use local_walks::{clear_marks, is_marked, walk};
pub use numbers::Numbers;
pub use residues::{Residues, are_apart};
pub use rows::{Rows, index_of};
pub use rules::{Book, Rule, all_keep, first_broken, judge};
pub use sorting::sorted;
pub use walks::{Graph, mark, reach};
