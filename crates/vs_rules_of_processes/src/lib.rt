//! The rules of certificates on one process: K7 on waits for edges, K8 on the residues at which delays end, K9 on what is read, K10 on the first
//! slot; and the signals that hang on variables which are written at residues.
#![tactic(auto)]

mod arrivals;
mod classes;
mod delays;
mod delays_laws;
mod edges;
mod first_slot;
mod forward;
mod hung;
mod laws;
mod lists;
mod readings;
mod residues;

pub use classes::WriteClasses;
pub use delays::keeps_delays;
pub use delays_laws::closed_are_kept;
pub use edges::keeps_edges;
pub use first_slot::FirstSlot;
pub use laws::{edges_are_by_places, readings_are_by_places};
pub use readings::keeps_readings;
pub use residues::keeps_residues;
pub use vs_drivers;
pub use vs_maps;
pub use vs_slots;
