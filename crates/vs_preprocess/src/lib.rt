//! The preprocessor: from files to the text that the lexer reads (IEEE 1364-2005, clause 19).
#![tactic(auto)]

mod conditionals;
mod directives;
mod disk;
mod frame;
mod library;
mod output;
mod paths;
mod places;
mod run;
mod text;

pub use disk::Disk;
pub use library::{Failure, Library, STANDARD_INPUT, Shelf, WithInput};
pub use places::{Line, Origin, Places};
pub use text::{At, Call, Preprocessed, Refusal, preprocess};
pub use vs_prep_macros::{Fault, Spot, WORK_LIMIT};
