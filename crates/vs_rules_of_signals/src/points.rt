//! Rules of the points of one process.
ghost use Rattle.std.specs.Prelude.{ℕ, ◌≡◌, ◌<◌, ◌↔◌, false, slice_index_or, IsTrue};
ghost use Rattle.vs_maps.specs.vs_rules.specs.Claims.{IsBlock};
ghost use Rattle.vs_claims.specs.vs_maps.specs.Reaches.{places, InSlot0};

use vs_claims::Facts;
use vs_claims::vs_maps::Tables;
use vs_maps::SiteRule;

/// A point is none of a process.
#[derive(Drop)]
pub(crate) struct NotOf {
    pub(crate) process: usize,
}

impl SiteRule for NotOf {
    ghost keeps = { λ f i p. i ≡ f.process → ⊥ };

    fn test(&self, process: usize, _place: usize) -> bool {
        process != self.process
    }
}

/// A point is none of a block.
#[derive(Drop)]
pub(crate) struct NotOfBlock<'a> {
    pub(crate) facts: &'a Facts<'a>,
}

impl<'a> SiteRule for NotOfBlock<'a> {
    ghost keeps = { λ f i p. IsBlock f.facts.now.design f.facts.now.claims i → ⊥ };

    fn test(&self, process: usize, _place: usize) -> bool {
        !self.facts.is_block(process)
    }
}

/// A point is none of the marked ones of a process.
#[derive(Drop)]
pub(crate) struct NotMarked<'a> {
    pub(crate) process: usize,
    pub(crate) marks: &'a [bool],
}

impl<'a> SiteRule for NotMarked<'a> {
    ghost keeps = { λ f i p. i ≡ f.process → IsTrue (slice_index_or f.marks.now p false) → ⊥ };

    fn test(&self, process: usize, place: usize) -> bool {
        if process != self.process {
            return true;
        }
        if place >= self.marks.len() {
            return true;
        }
        !self.marks[place]
    }
}

/// A point is none of a process to which a path without time leads from the start, by wide rules past a turn that is sure by it alone.
#[derive(Drop)]
pub(crate) struct NotInSlot0<'a> {
    pub(crate) process: usize,
    pub(crate) wide: bool,
    pub(crate) tables: &'a Tables<'a>,
}

impl<'a> SiteRule for NotInSlot0<'a> {
    ghost keeps = { λ f i p. i ≡ f.process → p < places f.tables.now → InSlot0 f.wide f.tables.now p → ⊥ };

    fn test(&self, process: usize, place: usize) -> bool {
        if process != self.process {
            return true;
        }
        if place >= self.tables.places() {
            return true;
        }
        !self.tables.is_slot0(self.wide, place)
    }
}
