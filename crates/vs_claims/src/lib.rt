//! A design and its certificate by numbers, with the maps of the texts of its processes; the rule K1, on names; and the subjects of all rules in
//! their order.
#![tactic(auto)]

mod certificate_names;
mod facts;
mod index;
mod maps;
mod named;
mod names;
mod places;
mod rule;
mod subjects;
mod words;

pub use certificate_names::all_names;
pub use facts::Facts;
pub use index::Index;
pub use maps::{codes, tables, texts};
pub use rule::{keeps_assign_name, keeps_name, keeps_process_name, keeps_signal_name};
pub use subjects::{Subject, all_subjects, name_of};
pub use vs_certificate;
pub use vs_maps;
pub use vs_process;
