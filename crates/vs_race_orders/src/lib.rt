//! Orders of events under which a design's value change dump, or its lines of `$strobe`, aren't those of the first order: they are sought, and made
//! short (IEEE 1364-2005, clause 11.4.2).
#![tactic(auto)]

mod chooser;
mod comparing;
mod plan;
mod search;
mod shrinking;
mod span;
mod sums;
mod trial;
mod watch;

pub use plan::Planned;
pub use search::{Difference, Search, Sought, find};
pub use span::{Span, choices_of};
pub use watch::{Unwatched, Watch};
