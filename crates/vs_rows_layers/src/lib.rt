//! Answers to the rows of the layers: the preprocessor, the parser, elaboration, and dumps that are read back. `vs_rows` has the rows and asks them.
#![tactic(auto)]

mod elaborate;
mod parser;
mod preprocess;
mod read_back;

pub use elaborate::Sources;
pub use parser::Texts;
pub use preprocess::Preprocesses;
pub use read_back::Again;
