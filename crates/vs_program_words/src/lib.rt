//! The words of the program's command line: the table of its options, what words ask for by it, and what a call leaves to its source: the top module,
//! and what a tick stands for.
#![tactic(auto)]

mod choices;
mod moments;
mod options;
mod reading;
mod target;
mod ticks;
mod tops;
mod words;

pub use choices::Choice;
pub use moments::GREATEST;
pub use target::{Target, TargetFault, target_of, top_of, with_target};
pub use ticks::{Tick, text_tick};
pub use tops::top_modules;
pub use vs_certificate;
pub use vs_widths;
pub use words::{
    Call, Hunt, Order, OutputText, Outputs, Request, Sources, Subcommand, WordsFault, read_words,
};
