//! Elaborated designs, their stores, and the traces of their executions.
//!
//! A design is what a source and a top module define (IEEE 1364-2005, clause 12): its signals, continuous assignments and
//! processes, each numbered in design order, with every size and sign of an expression already fixed (clause 5).
#![tactic(auto)]

mod design;
mod expression;
mod extent;
mod extents;
mod laws;
mod listeners;
mod planes;
mod range;
mod readers;
mod signal;
mod statement;
mod statement_uses;
mod store;
mod timescale;
mod uses;
mod write;

pub use design::{Assign, Design, Entry, Process, ProcessKind, ScopeKind};
pub use expression::{Axis, Count, Excerpt, Extension, Link, Operand, Selection, Slice, Typed};
pub use laws::names_hold;
pub use range::{BitRange, Bits};
pub use readers::Reader;
pub use signal::{Bounds, Signal, SignalKind};
pub use statement::{Aim, Call, CallKind, EventTerm, FormatArg, Statement, Target, Ticks};
pub use statement_uses::{event_terms, has_control, statement_reads};
pub use store::{Store, over};
pub use timescale::{DEFAULT_TIMESCALE, Magnitude, TimeSpan, TimeUnit, Timescale};
pub use uses::{bits_from, reads, writes};
pub use vs_logic4;
pub use write::{Part, Write};
