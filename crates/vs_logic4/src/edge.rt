//! Edges of a digit (IEEE 1364-2005, clause 9.7.2).

/// Which change an event control waits for.
#[derive(Clone, Copy, PartialEq, Eq)]
pub enum Edge {
    /// A change of any bit.
    Any,
    /// `posedge`: from 0 to 1, from 0 to x or z, or from x or z to 1.
    Posedge,
    /// `negedge`: from 1 to 0, from 1 to x or z, or from x or z to 0.
    Negedge,
}
