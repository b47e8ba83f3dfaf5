//! Event queues: bags of timed events, the oldest first at equal times.
//!
//! `EventQueue` is the law, which code above is proved against once. `ListQueue` is a plain list in the order
//! of scheduling. `Wheel` has one event in front and some more in a short list, and for the others 256 slots of linked nodes
//! for the times from now on and an ordered map for the later ones.
#![tactic(auto)]

mod blocks;
mod busy;
mod calendar;
mod calls;
mod law;
mod list;
mod nodes;
mod pool;
mod rotation;
mod timing;
mod upcoming;
mod wheel_queue;

pub use calls::{QueueAnswer, QueueCall, replay, same_answers};
pub use law::EventQueue;
pub use list::ListQueue;
pub use timing::{Full, Memory, Timed};
pub use wheel_queue::Wheel;
