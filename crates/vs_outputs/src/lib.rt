//! Where a call writes: files that are opened by their names, writers with a buffer; and what the program tells on standard error: refusals, their
//! places and what they mean, of which no text has a contract.
#![tactic(auto)]

mod buffered;
mod commands;
mod disk;
mod fault_line;
mod faults;
mod file;
mod file_places;
mod given;
mod headlines;
mod late;
mod preprocessed;
mod remedies;
mod sheet;

pub use buffered::{Buffered, ROOM};
pub use commands::push_sources;
pub use disk::DiskFile;
pub use faults::{
    explained, tell_broken, tell_certificate, tell_limit, tell_line, tell_long_certificate,
    tell_rejected, tell_source, tell_unproved,
};
pub use file::OutputFile;
pub use given::{Extent, Given};
pub use late::Late;
pub use preprocessed::tell_files;
pub use sheet::Sheet;
pub use vs_explain;
