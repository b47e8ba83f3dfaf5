//! Runs and calls that no file of rows can ask: outcomes, several policies, other permitted orders, other queues, sinks, readers and writers that fail, large
//! sources, and words. All write to one type, since the kernel and the program are built anew for each.
#![tactic(auto)]

#[cfg(test)]
mod calling;
#[cfg(test)]
mod devices;
#[cfg(test)]
mod failures;
#[cfg(test)]
mod headers;
#[cfg(test)]
mod orders;
#[cfg(test)]
mod policies;
#[cfg(test)]
mod queues;
#[cfg(test)]
mod running;
#[cfg(test)]
mod runs;
#[cfg(test)]
mod short;
#[cfg(test)]
mod sinks;
#[cfg(test)]
mod words;

/// The tests alone do something.
fn main() {}
