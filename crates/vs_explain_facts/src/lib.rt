//! What the texts of a design's processes do, and when: what explanations of broken rules are made from.
#![tactic(auto)]

mod claims;
mod course;
mod ends;
mod facts;
mod flows;
mod lists;
mod parts;
mod points;
mod question;
mod texts;

pub use claims::{entry_of, kind_word, mode_word, process_of, root_of, start_word, times_named};
pub use course::Course;
pub use ends::delay_ends;
pub use facts::{Cone, Facts, Shown, driven_by, read_by};
pub use flows::{AS_CHECKED, Reading};
pub use parts::Part;
pub use points::{Moment, Point};
pub use question::Question;
pub use texts::{Term, TextFacts, TextKind};
pub use vs_certificate;
pub use vs_drivers::vs_maps::vs_graph::mark;
