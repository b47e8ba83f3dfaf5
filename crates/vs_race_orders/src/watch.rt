//! Who watches a search.

/// What is told of a search while it goes on.
pub trait Watch {
    /// So many orders have been tried, of at most so many.
    fn tried(&mut self, tries: u64, most: u64);

    /// No further order is tried.
    fn ended(&mut self);
}

/// Nobody watches.
#[derive(Clone, Copy)]
pub struct Unwatched;

impl Watch for Unwatched {
    fn tried(&mut self, _tries: u64, _most: u64) {}

    fn ended(&mut self) {}
}
