//! Nonblocking updates of later slots.
ghost use Rattle.std.specs.Prelude.{◌≡◌, false, IfOk};
ghost use Rattle.vs_process.specs.States as states;

use std::alloc::{AllocError, Global};
use std::marker::Model;
use vs_design::Write;

/// A nonblocking update that is due in a later slot (IEEE 1364-2005, clause 9.2.2).
#[derive(Drop)]
pub struct LateUpdate {
    by: usize,
    due: u64,
    what: Write,
}

impl Model for LateUpdate {
    ghost use Rattle.vs_process.specs.States as states;
    ghost use Rattle.std.specs.Prelude.{false};

    ghost Value = { states.Update };

    ghost view = { λ u. record { by = u.by; due = u.due; active = false; what = u.what } };
}

impl LateUpdate {
    /// An update that isn't activated yet.
    #[inline(always)]
    pub(crate) fn new(by: usize, due: u64, what: Write) -> Self
        ensures { result ≡ record { by = by; due = due; active = false; what = what } }
    {
        LateUpdate { by, due, what }
    }

    /// The time at which it is due, in ticks.
    #[inline(always)]
    pub(crate) fn due(&self) -> u64
        ensures { result ≡ self.now.due }
    {
        self.due
    }

    /// What it writes.
    #[inline(always)]
    pub(crate) fn into_what(self) -> Write
        ensures { result ≡ self.what }
    {
        let LateUpdate {
            by: _,
            due: _,
            what,
        } = self;
        what
    }
}

/// An update in a place of its own, so that the items of the event queue stay small.
#[derive(Drop)]
pub struct Held {
    update: Box<LateUpdate>,
}

impl Model for Held {
    ghost use Rattle.vs_process.specs.States as states;

    ghost Value = { states.Update };

    ghost view = { λ h. h.update.value };
}

impl Held {
    /// Puts an update in a place of its own.
    #[inline(always)]
    pub(crate) fn new(alloc: Global, update: LateUpdate) -> Result<Self, AllocError>
        ensures { IfOk result (λ held. held ≡ update) }
    {
        Ok(Held {
            update: Box::new(alloc, update)?,
        })
    }

    /// The update, whose place is given back.
    #[inline(always)]
    pub(crate) fn take(self) -> LateUpdate
        ensures { result ≡ self }
    {
        Box::into_inner(self.update)
    }
}
