//! What a process still has to do, its steps, its flat code and its scripts (IEEE 1364-2005, clause 9); executions of a design: states, moves, and
//! what is permitted (clause 11); and threads: a process alone within one slot, which writes and reads no bits but those that its statements name.
#![tactic(auto)]

mod changes;
mod choice;
mod choices;
mod chosen;
mod chosen_place;
mod code;
mod combinational;
mod cursor;
mod draft;
mod gait;
mod halt;
mod laws;
mod moves;
mod process_laws;
mod reading_laws;
mod script;
mod spot;
mod spots;
mod statements;
mod stops;
mod switch;
mod writing_laws;

pub use changes::{Change, make};
pub use choice::{Case, Repeat, Turns};
pub use chosen_place::{ChosenPlace, Index};
pub use code::{Code, compile};
pub use combinational::is_combinational;
pub use cursor::Cursor;
pub use gait::Gait;
pub use halt::Halt;
pub use laws::{controls_are_apart, one_place, ways_are};
pub use moves::{Grain, Move};
pub use process_laws::{
    blocks_are_recognized, blocks_exclude, idle_assigns_have_values, inside_follows,
    inside_goes_on, moves_are_permitted, never_stuck, none_inside_first, stores_are_sized,
    times_rise,
};
pub use reading_laws::{processes_read_what_is_named, steps_read_what_is_named};
pub use script::{Action, Instruction, Script, case_of};
pub use spot::Spot;
pub use spots::{spot_of, spot_of_part, spot_of_write, spots_hold};
pub use statements::statement_writes;
pub use stops::{Stop, TextMap};
pub use switch::Switch;
pub use vs_eval;
pub use vs_strobe;
pub use writing_laws::{
    processes_write_what_is_named, steps_write_what_is_named, writes_have_parts,
};
