//! The rules on the roots of edge terms: K6, and K10 of signals.
#![tactic(auto)]

mod entries;
mod first;
mod laws;
mod roots;

pub use entries::Entries;
pub use first::{FirstWrites, keeps_first_root};
pub use laws::{first_by_places, roots_by_places};
pub use roots::keeps_root;
pub use vs_drivers;
