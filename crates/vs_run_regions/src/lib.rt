//! What waits in a slot and after it: inactive processes, nonblocking updates, activated, due or late, and the ends of delays; and the policies that
//! choose among the enabled events (IEEE 1364-2005, clauses 11.3 and 11.4). A list that only proofs read has all updates in the order of execution.
#![tactic(auto)]

mod agenda;
mod claims;
mod entries;
mod entry;
mod event;
mod ghost_list;
mod item;
mod late;
mod listing;
mod policy;
mod regions;
mod update;

pub use agenda::Agenda;
pub use event::Event;
pub use item::Due;
pub use late::{Held, LateUpdate};
pub use listing::SlotUpdates;
pub use policy::{Fifo, Lifo, Listed, Pick};
pub use regions::Regions;
pub use update::{Bits, Update};
pub use vs_process;
pub use vs_time_wheel;
