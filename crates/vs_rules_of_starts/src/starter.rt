//! Blocks for which a variable that their control names is sure to change in the first slot.
ghost use Rattle.std.specs.Prelude.{ℕ, ◌≡◌, ◌↔◌, ◌⊎◌, Some, IfOk, OnOk, IsTrue, option_map};
ghost use Rattle.std.specs.List.{Contains};
ghost use Rattle.vs_design.specs.declared.range.BitRange as range;
ghost use Rattle.vs_rules.specs.Certificates.{mode_from};
ghost use Rattle.vs_rules.specs.Claims.{nonblocking, both};
ghost use Rattle.vs_rules.specs.Blocks.{MayStart as MayBegin, CopiesWhole, HasStarter};
ghost use Rattle.vs_rules_of_starts.specs.Started.{AreTerms, IsOf, IsStartedBy, MayStart};

use crate::started::starts_for;
use std::alloc::{AllocError, Global};
use vs_claims::Facts;
use vs_claims::vs_certificate::SignalMode;
use vs_design::{BitRange, EventTerm};
use vs_drivers::Copies;

// Whether it is the mode of a variable that is written by `<=` alone.
fn is_nonblocking(mode: Option<SignalMode>) -> bool
    ensures { IsTrue result ↔ (option_map mode_from mode ≡ Some nonblocking) }
{
    match mode {
        None => false,
        Some(m) => matches!(m, SignalMode::Nonblocking),
    }
}

// Whether it is the mode of a variable that is written by `<=`, be it by `=` too.
fn is_updated(mode: Option<SignalMode>) -> bool
    ensures { IsTrue result ↔ ((option_map mode_from mode ≡ Some nonblocking) ⊎ (option_map mode_from mode ≡ Some both)) }
{
    match mode {
        None => false,
        Some(m) => matches!(m, SignalMode::Nonblocking | SignalMode::Both),
    }
}

// Whether a process may start a block by a variable that it writes: of mode nonblocking, and it is of kind delay; or in version 3 of mode both
// too, and of kind edge or mixed too.
fn may_begin(facts: &Facts, g: usize, w: usize) -> bool
    ensures { IsTrue result ↔ MayBegin facts.now.design facts.now.claims g w }
{
    if is_nonblocking(facts.mode(g)) && facts.is_delay(w) {
        return true;
    }
    if !facts.is_wide() {
        return false;
    }
    if !is_updated(facts.mode(g)) {
        return false;
    }
    facts.is_sequential(w)
}

// The process that is claimed to write a variable, where it may start a block by it.
fn may_start(facts: &Facts, g: usize) -> Option<usize>
    ensures { (w : ℕ) → (MayStart facts.now.design facts.now.claims g w ↔ result ≡ Some w) }
{
    let Some(w) = facts.writer(g) else {
        return None;
    };
    if may_begin(facts, g, w) {
        Some(w)
    } else {
        None
    }
}

// Puts the range of a term, where its signal is a variable, or copies it.
fn push_named(
    alloc: Global,
    copies: &Copies,
    term: EventTerm,
    g: usize,
    named: &mut Vec<BitRange>,
) -> Result<(), AllocError>
    ensures { OnOk result ((r : range.BitRange) → (Contains named.new.items r ↔
        (Contains named.old.items r ⊎ ((term.range ≡ r) × CopiesWhole copies.now g r.signal)))) }
{
    let of = copies.copies_whole(alloc, g, term.range.signal)?;
    if of {
        named.push(term.range)?;
    }
    Ok(())
}

// The ranges of those terms whose signals are a variable, or copy it.
fn named_of(
    alloc: Global,
    copies: &Copies,
    terms: &[EventTerm],
    g: usize,
) -> Result<Vec<BitRange>, AllocError>
    ensures { IfOk result (λ named. (r : range.BitRange) → (Contains named.items r ↔ IsOf copies.now g terms.now r)) }
{
    let mut named = Vec::new(alloc);
    for term in terms {
        push_named(alloc, copies, *term, g, &mut named)?;
    }
    Ok(named)
}

// Whether a process is sure to change a variable for a block with these terms.
fn is_started(
    alloc: Global,
    facts: &Facts,
    copies: &Copies,
    terms: &[EventTerm],
    g: usize,
) -> Result<bool, AllocError>
    requires { copies.now ≡ facts.now.design }
    ensures { IfOk result (λ b. (i : ℕ) → AreTerms facts.now.design i terms.now →
        (IsTrue b ↔ IsStartedBy facts.now.design facts.now.claims i g)) }
{
    let Some(w) = may_start(facts, g) else {
        return Ok(false);
    };
    let named = named_of(alloc, copies, terms, g)?;
    if named.len() == 0 {
        return Ok(false);
    }
    starts_for(alloc, facts, w, &named, g)
}

/// Whether a block with these terms has a starter. It takes as long as there are signals, and for each variable by which a process may start
/// it, the text of that process.
pub(crate) fn has_starter(
    alloc: Global,
    facts: &Facts,
    copies: &Copies,
    terms: &[EventTerm],
) -> Result<bool, AllocError>
    requires { copies.now ≡ facts.now.design }
    ensures { IfOk result (λ b. (i : ℕ) → AreTerms facts.now.design i terms.now →
        (IsTrue b ↔ HasStarter facts.now.design facts.now.claims i)) }
{
    for g in 0..facts.design().signals().len() {
        let started = is_started(alloc, facts, copies, terms, g)?;
        if started {
            return Ok(true);
        }
    }
    Ok(false)
}
