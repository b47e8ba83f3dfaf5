//! The certificate of a design's independence of the simulator's choices, and its JSON form, versions 1, 2 and 3.
#![tactic(auto)]

mod entries;
mod fault;
mod form;
mod laws;
mod limits;
mod members;
mod processes;
mod reading;
mod whole;
mod writing;

pub use fault::CertFault;
pub use laws::value_has_one_certificate;
pub use members::{
    Certificate, ClaimedGrain, ClaimedKind, EdgeSignal, ProcessEntry, Rules, SignalEntry,
    SignalMode, Start, Version,
};
pub use reading::{from_json, from_json_by, from_json_wide};
pub use writing::{narrow_is_wide, to_json, written_reads_back};
