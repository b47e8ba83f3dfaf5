//! The rule K2, on the writer and the second of a signal.
ghost use Rattle.std.specs.Prelude.{ℕ, ◌≡◌, ◌<◌, ◌↔◌, Some, length, IsTrue};
ghost use Rattle.vs_maps.specs.vs_rules.specs.Paths.{Writes};
ghost use Rattle.vs_maps.specs.vs_rules.specs.Rules.{K2};
ghost use Rattle.vs_rules_of_signals.specs.Writers.{texts_in, AreNamed, WriterWrites, SecondWrites, NoBlock, IsEarly, FirstAlone, FirstAloneLater};

use crate::points::{NotInSlot0, NotMarked, NotOf, NotOfBlock};
use vs_claims::Facts;
use vs_maps::{OneOf, Uses, any_write_of};

/// What a certificate claims of a design, and the uses of the design's signals.
#[derive(Clone, Copy)]
pub(crate) struct Claimed<'a> {
    pub(crate) facts: &'a Facts<'a>,
    pub(crate) uses: &'a Uses<'a>,
    pub(crate) ghost same: { uses.now ≡ texts_in facts.now },
}

impl<'a> Claimed<'a> {
    fn are_named(&self, v: usize) -> bool
        requires { v < length self.now.facts.now.design.signals }
        ensures { IsTrue result ↔ AreNamed self.now.facts.now.design self.now.facts.now.claims v }
    {
        self.facts.maps();
        let named = OneOf {
            one: self.facts.writer(v),
            other: self.facts.second(v),
        };
        self.uses.all_writes(v, &named)
    }

    // Whether a process that may be there writes a signal.
    fn has_writer(&self, v: usize, one: Option<usize>) -> bool
        requires { v < length self.now.facts.now.design.signals }
        ensures { IsTrue result ↔ ((i : ℕ) × (one ≡ Some i) × Writes self.now.facts.now.design i v) }
    {
        self.facts.maps();
        match one {
            None => false,
            Some(i) => any_write_of(self.facts.sites().of_signal(v), i),
        }
    }

    fn writer_writes(&self, v: usize) -> bool
        requires { v < length self.now.facts.now.design.signals }
        ensures { IsTrue result ↔ WriterWrites self.now.facts.now.design self.now.facts.now.claims v }
    {
        if !self.facts.names_writer(v) {
            return true;
        }
        self.has_writer(v, self.facts.writer(v))
    }

    fn second_writes(&self, v: usize) -> bool
        requires { v < length self.now.facts.now.design.signals }
        ensures { IsTrue result ↔ SecondWrites self.now.facts.now.design self.now.facts.now.claims v }
    {
        if !self.facts.names_second(v) {
            return true;
        }
        self.has_writer(v, self.facts.second(v))
    }

    fn no_block(&self, v: usize) -> bool
        requires { v < length self.now.facts.now.design.signals }
        ensures { IsTrue result ↔ NoBlock self.now.facts.now.design self.now.facts.now.claims v }
    {
        self.facts.maps();
        let Some(_) = self.facts.second(v) else {
            return true;
        };
        self.uses.all_writes(v, &NotOfBlock { facts: self.facts })
    }

    fn is_early(&self, v: usize) -> bool
        requires { v < length self.now.facts.now.design.signals }
        ensures { IsTrue result ↔ IsEarly self.now.facts.now.design self.now.facts.now.claims v }
    {
        self.facts.maps();
        let Some(process) = self.facts.second(v) else {
            return true;
        };
        let rule = NotMarked {
            process,
            marks: self.uses.late(process),
        };
        self.uses.all_writes(v, &rule)
    }

    fn first_alone(&self, v: usize) -> bool
        requires { v < length self.now.facts.now.design.signals }
        ensures { IsTrue result ↔ FirstAlone self.now.facts.now.design self.now.facts.now.claims v }
    {
        self.facts.maps();
        let Some(_) = self.facts.second(v) else {
            return true;
        };
        let Some(process) = self.facts.writer(v) else {
            return true;
        };
        let Some(tables) = self.facts.tables(process) else {
            return true;
        };
        let rule = NotInSlot0 {
            process,
            wide: self.facts.is_wide(),
            tables,
        };
        self.uses.all_now(v, &rule)
    }

    fn first_alone_later(&self, v: usize) -> bool
        requires { v < length self.now.facts.now.design.signals }
        ensures { IsTrue result ↔ FirstAloneLater self.now.facts.now.design self.now.facts.now.claims v }
    {
        self.facts.maps();
        let Some(second) = self.facts.second(v) else {
            return true;
        };
        let Some(process) = self.facts.writer(v) else {
            return true;
        };
        let Some(tables) = self.facts.tables(process) else {
            return true;
        };
        if self.uses.all_later(v, &NotOf { process: second }) {
            return true;
        }
        let rule = NotInSlot0 {
            process,
            wide: self.facts.is_wide(),
            tables,
        };
        self.uses.all_later(v, &rule)
    }
}

/// Whether a signal keeps the rule K2: its writer and its second are the processes that write it, and the second writes it at the start alone. It
/// takes as long as there are writes of the signal.
pub fn keeps_writers<'a>(facts: &'a Facts<'a>, v: usize) -> bool
    requires within { v < length facts.now.design.signals }
    ensures { IsTrue result ↔ K2 facts.entry.now.design facts.entry.now.claims v }
{
    let claimed = Claimed {
        facts,
        uses: facts.uses(),
    };
    if !claimed.are_named(v) {
        return false;
    }
    if !claimed.writer_writes(v) {
        return false;
    }
    if !claimed.second_writes(v) {
        return false;
    }
    if !claimed.no_block(v) {
        return false;
    }
    if !claimed.is_early(v) {
        return false;
    }
    if !claimed.first_alone(v) {
        return false;
    }
    claimed.first_alone_later(v)
}
