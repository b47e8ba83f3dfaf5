//! What has a name.
ghost use Rattle.std.specs.Prelude.{◌≡◌, ℕ, List, IfOk, map};
ghost use Rattle.vs_claims.specs.vs_rules.specs.Certificates.{name_from};

use crate::Index;
use std::alloc::{AllocError, Global};
use vs_certificate::{ProcessEntry, SignalEntry};
use vs_design::{Assign, Process, Signal};

/// What has a name.
pub(crate) trait Named: Drop {
    ghost name: { Self → List ℕ };

    /// The name.
    fn name(&self) -> &[u8]
        ensures { result.now ≡ name self.now };
}

impl Named for Signal {
    ghost name = { λ s. s.path.items };

    fn name(&self) -> &[u8] {
        &self.path
    }
}

impl Named for Process {
    ghost name = { λ p. p.name.items };

    fn name(&self) -> &[u8] {
        &self.name
    }
}

impl Named for Assign {
    ghost name = { λ a. a.name.items };

    fn name(&self) -> &[u8] {
        &self.name
    }
}

impl Named for String {
    ghost name = { name_from };

    fn name(&self) -> &[u8] {
        self.as_bytes()
    }
}

impl Named for SignalEntry {
    ghost name = { λ e. name_from e.name };

    fn name(&self) -> &[u8] {
        self.name.as_bytes()
    }
}

impl Named for ProcessEntry {
    ghost name = { λ e. name_from e.name };

    fn name(&self) -> &[u8] {
        self.name.as_bytes()
    }
}

/// The names of a list.
pub(crate) fn names_of<'a, T: Named>(
    alloc: Global,
    things: &'a [T],
) -> Result<Index<'a>, AllocError>
    ensures { IfOk result (λ names. names ≡ map T.name things.entry.now) }
{
    let mut names = Vec::new(alloc);
    for thing in things {
        names.push(thing.name())?;
    }
    Index::of(alloc, names)
}
