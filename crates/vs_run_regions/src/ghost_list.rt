//! A list that only proofs read. It takes no memory, and its methods do nothing at run time.
ghost use Rattle.std.specs.Prelude.{◌≡◌, List, []};
ghost use Rattle.std.specs.Borrow.{ftrue};

use std::marker::{Model, PhantomData};

/// A clause reads the list as `items`.
#[derive(Drop)]
pub(crate) struct GhostList<T> {
    of: PhantomData<T>,
    pub(crate) ghost items: { List T },
}

impl<T> Model for GhostList<T> {
    ghost also_owns = { λ _. ftrue };
}

impl<T> GhostList<T> {
    /// No element.
    #[inline(always)]
    pub(crate) fn new() -> GhostList<T>
        ensures { result.items ≡ [] }
    {
        GhostList { of: PhantomData }
    }

    /// The list that the caller's proof picks by this one and a value.
    #[inline(always)]
    pub(crate) fn next<B>(&self, _by: &B) -> GhostList<T>
        ghost list: { List T }
        ensures { result.items ≡ list }
    {
        GhostList { of: PhantomData }
    }

    /// The same by two values.
    #[inline(always)]
    pub(crate) fn pick<B, C>(&self, _by: &B, _at: &C) -> GhostList<T>
        ghost list: { List T }
        ensures { result.items ≡ list }
    {
        GhostList { of: PhantomData }
    }
}
