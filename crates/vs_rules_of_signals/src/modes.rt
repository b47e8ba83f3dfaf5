//! The rule K3, on how a signal is written.
ghost use Rattle.std.specs.Prelude.{ℕ, ◌≡◌, ◌<◌, ◌↔◌, Some, true, false, length, slice_get, IsTrue};
ghost use Rattle.vs_maps.specs.vs_rules.specs.Certificates.{mode_from};
ghost use Rattle.vs_maps.specs.vs_rules.specs.Claims.{IsBlock, IsSequential, IsWide};
ghost use Rattle.vs_design.specs.declared.design.Assign.{Assign};
ghost use Rattle.vs_design.specs.declared.statement.EventTerm.{EventTerm};
ghost use Rattle.vs_design.specs.Uses.{reads};
ghost use Rattle.vs_maps.specs.vs_rules.specs.Paths.{HasTerm, ListsSignal, Writes, reads_of};
ghost use Rattle.vs_maps.specs.vs_rules.specs.Rules.{HasWriter, IsAsModeSays, IsPrivate, K3, MayBlock, NeverLater, NeverNow};

use crate::points::NotOf;
use crate::writers::Claimed;
use vs_claims::Facts;
use vs_claims::vs_certificate::SignalMode;
use vs_drivers::is_net;
use vs_maps::{OneOf, any_waits};

// Whether a process is of kind delay, or mixed, or in versions 2 and 3 of kind edge.
fn may_block<'a>(facts: &'a Facts<'a>, i: usize) -> bool
    ensures { IsTrue result ↔ MayBlock facts.entry.now.design facts.entry.now.claims i }
{
    if facts.is_delay(i) {
        return true;
    }
    if facts.is_mixed(i) {
        return true;
    }
    let version = facts.version();
    if version != 2 && version != 3 {
        return false;
    }
    facts.is_edge(i)
}

impl<'a> Claimed<'a> {
    fn is_unwritten(&self, v: usize) -> bool
        requires { v < length self.now.facts.now.design.signals }
        ensures { IsTrue result ↔ ((i : ℕ) → Writes self.now.facts.now.design i v → ⊥) }
    {
        self.facts.maps();
        let none = OneOf {
            one: None,
            other: None,
        };
        self.uses.all_writes(v, &none)
    }

    fn is_combinational(&self, v: usize) -> bool
        ensures { IsTrue result ↔ HasWriter self.now.facts.now.design self.now.facts.now.claims v
            (IsBlock self.now.facts.now.design self.now.facts.now.claims) }
    {
        match self.facts.writer(v) {
            None => false,
            Some(i) => self.facts.is_block(i),
        }
    }

    fn is_nonblocking(&self, v: usize) -> bool
        requires { v < length self.now.facts.now.design.signals }
        ensures { IsTrue result ↔ HasWriter self.now.facts.now.design self.now.facts.now.claims v
            (λ i. IsSequential self.now.facts.now.design self.now.facts.now.claims i × NeverNow self.now.facts.now.design v i) }
    {
        self.facts.maps();
        let Some(process) = self.facts.writer(v) else {
            return false;
        };
        if !self.facts.is_sequential(process) {
            return false;
        }
        self.uses.all_now(v, &NotOf { process })
    }

    fn is_blocking(&self, v: usize) -> bool
        requires { v < length self.now.facts.now.design.signals }
        ensures { IsTrue result ↔ HasWriter self.now.facts.now.design self.now.facts.now.claims v
            (λ i. MayBlock self.now.facts.now.design self.now.facts.now.claims i × NeverLater self.now.facts.now.design v i) }
    {
        self.facts.maps();
        let Some(process) = self.facts.writer(v) else {
            return false;
        };
        if !may_block(self.facts, process) {
            return false;
        }
        self.uses.all_later(v, &NotOf { process })
    }

    // Whether no other process reads a signal.
    fn is_only_reader(&self, v: usize, i: usize) -> bool
        requires { v < length self.now.facts.now.design.signals }
        ensures { IsTrue result ↔ ((j : ℕ) →
            ListsSignal self.now.facts.now.design (reads_of self.now.facts.now.design j) v → j ≡ i) }
    {
        self.facts.maps();
        let this = OneOf {
            one: Some(i),
            other: None,
        };
        self.uses.all_reads(v, &this)
    }

    // Whether no continuous assignment does.
    fn no_assign_reads(&self, v: usize) -> bool
        ensures { IsTrue result ↔ ((j : ℕ) (a : Assign) → slice_get self.now.facts.now.design.assigns j ≡ Some a →
            ListsSignal self.now.facts.now.design (reads a.source) v → ⊥) }
    {
        self.facts.design().readers(v).is_empty()
    }

    // Whether no event term names it.
    fn no_term_names(&self, v: usize) -> bool
        requires { v < length self.now.facts.now.design.signals }
        ensures { IsTrue result ↔ ((j : ℕ) (t : EventTerm) → HasTerm self.now.facts.now.design j t → t.range.signal ≡ v → ⊥) }
    {
        self.facts.maps();
        !any_waits(self.facts.sites().of_signal(v))
    }

    fn is_private_of(&self, v: usize, i: usize) -> bool
        requires { v < length self.now.facts.now.design.signals }
        ensures { IsTrue result ↔ IsPrivate self.now.facts.now.design v i }
    {
        if !self.is_only_reader(v, i) {
            return false;
        }
        if !self.no_assign_reads(v) {
            return false;
        }
        self.no_term_names(v)
    }

    fn is_private(&self, v: usize) -> bool
        requires { v < length self.now.facts.now.design.signals }
        ensures { IsTrue result ↔ HasWriter self.now.facts.now.design self.now.facts.now.claims v
            (λ i. IsSequential self.now.facts.now.design self.now.facts.now.claims i × IsPrivate self.now.facts.now.design v i) }
    {
        self.facts.maps();
        let Some(process) = self.facts.writer(v) else {
            return false;
        };
        if !self.facts.is_sequential(process) {
            return false;
        }
        self.is_private_of(v, process)
    }

    // Whether it is of version 3, and the writer waits for edges or for times.
    fn is_both(&self, v: usize) -> bool
        ensures { IsTrue result ↔ (IsWide self.now.facts.now.claims
            × HasWriter self.now.facts.now.design self.now.facts.now.claims v (IsSequential self.now.facts.now.design self.now.facts.now.claims)) }
    {
        if !self.facts.is_wide() {
            return false;
        }
        let Some(process) = self.facts.writer(v) else {
            return false;
        };
        self.facts.is_sequential(process)
    }

    // Whether a signal is written as this mode says.
    fn is_as_mode_says(&self, v: usize, mode: SignalMode) -> bool
        requires { v < length self.now.facts.now.design.signals }
        ensures { IsTrue result ↔ IsAsModeSays self.now.facts.now.design self.now.facts.now.claims v (mode_from mode) }
    {
        match mode {
            SignalMode::Net => is_net(self.facts.design(), v),
            SignalMode::Unwritten => self.is_unwritten(v),
            SignalMode::Combinational => self.is_combinational(v),
            SignalMode::Nonblocking => self.is_nonblocking(v),
            SignalMode::Blocking => self.is_blocking(v),
            SignalMode::Private => self.is_private(v),
            SignalMode::Both => self.is_both(v),
        }
    }
}

/// Whether a signal keeps the rule K3: it is written as its mode says. It takes as long as there are writes and reads of the signal.
pub fn keeps_mode<'a>(facts: &'a Facts<'a>, v: usize) -> bool
    requires within { v < length facts.now.design.signals }
    ensures { IsTrue result ↔ K3 facts.entry.now.design facts.entry.now.claims v }
{
    let claimed = Claimed {
        facts,
        uses: facts.uses(),
    };
    match facts.mode(v) {
        None => true,
        Some(mode) => claimed.is_as_mode_says(v, mode),
    }
}
