//! The program: its words, its input and its output, and the statuses that it ends with.
#![tactic(auto)]

mod certifying;
mod choosing;
mod command;
mod counting;
mod cut;
mod doing;
mod files;
mod input;
mod racing;
mod stopping;
mod targets;
mod telling;
mod texts;
mod writing;

pub use command::{Writers, program, program_on};
pub use counting::Counting;
pub use doing::Done;
pub use telling::refuse_start;
pub use texts::{fault_text, words_status};
pub use vs_elaborate;
pub use vs_outputs;
pub use vs_parser;
pub use vs_preprocess;
pub use vs_program_words::{
    Call, Choice, Hunt, Order, OutputText, Outputs, Request, Sources, Subcommand, WordsFault,
    read_words,
};
pub use vs_run_steps::Dropped;
pub use vs_sign_off;
pub use vs_sign_off::vs_simulate::{Policy, SimFault, list_design, simulate};
