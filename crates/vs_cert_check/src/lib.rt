//! The verdict on a certificate.
#![tactic(auto)]

mod judging;
mod laws;
mod listing;
mod sheet;
mod verdict;

pub use judging::{check, check_all, check_all_by, check_all_wide, check_by, check_wide};
pub use laws::least_is_verdict;
pub use verdict::{Broken, Verdict, VerdictReport};
pub use vs_rules_of_starts;
pub use vs_rules_of_starts::vs_rules;
