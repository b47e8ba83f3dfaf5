//! The places of the text of a process on its map: what is written, read and shown at each, to which of them paths of the text lead; and which
//! points use a signal.
#![tactic(auto)]

mod along;
mod delays;
mod laws;
mod paths;
mod pauses;
mod ranges;
mod readings;
mod signals;
mod sites;
mod tables;
mod turns;
mod uses;
mod walks;

pub use along::Along;
pub use delays::controls;
pub use laws::{maps_are_exact, texts_are_exact};
pub use paths::tos_by_turn;
pub use pauses::{Pause, takes_no_time};
pub use ranges::{own_reads, statement_later, statement_now};
pub use readings::text_reads;
pub use signals::{has_signal, push_signals};
pub use sites::{
    OneOf, Site, SiteRule, Sites, Use, any_now, any_waits, any_write_of, is_now, is_write,
    is_write_of, places_written, writers,
};
pub use tables::Tables;
pub use turns::{surely_turns, turns_of};
pub use uses::Uses;
pub use vs_graph;
pub use vs_process;
pub use walks::{controls_before, delays_before, hot, late, marks_of, terms, walks_from};
