//! The rule K6, on the signals of edge terms and the variables that they copy.
ghost use Rattle.std.specs.Prelude.{ℕ, ◌≡◌, ◌<◌, ◌↔◌, true, false, Some, length, slice_get, slice_index_or, IfOk, IsTrue};
ghost use Rattle.std.specs.List.{Contains};
ghost use Rattle.vs_rules.specs.Claims.{blocking, HasKind, HasMode, IsDelay, IsRootOf, IsWriter, is_wide};
ghost use Rattle.vs_rules.specs.Rules.{IsSoundRoot, K6};
ghost use Rattle.vs_rules.specs.Copies.{CopiesRoot};
ghost use Rattle.vs_drivers.specs.vs_maps.specs.Reaches.{places, IsPlace};
ghost use Rattle.vs_drivers.specs.vs_maps.specs.Walks.{InHot};
ghost use Rattle.vs_rules_of_signals.specs.Places.{WritesAt, NeverHotIn};
ghost use Rattle.vs_cert_roots.specs.Roots.{NeverHot, IsSoundlyWritten, IsRight, is_blocking_mode};

use crate::entries::Entries;
use std::alloc::{AllocError, Global};
use vs_design::{Design, SignalKind};
use vs_drivers::Copies;
use vs_drivers::vs_maps::{Tables, hot};
use vs_rules::vs_certificate::SignalMode;
use vs_rules_of_signals::Writes;
use vs_rules_of_signals::vs_claims::Facts;
use vs_rules_of_signals::vs_graph::{Rule, all_keep};

// The places of a text where it doesn't write a signal that is hot there.
#[derive(Drop)]
struct NotHot<'a> {
    tables: &'a Tables<'a>,
    marks: &'a [bool],
    signal: usize,
}

impl<'a> Rule for NotHot<'a> {
    ghost keeps = { λ f p. p < length f.marks.now → p < places f.tables.now → IsPlace f.tables.now p → WritesAt f.tables.now p f.signal →
        IsTrue (slice_index_or f.marks.now p false) → ⊥ };

    fn test(&self, _alloc: Global, i: usize) -> Result<bool, AllocError> {
        if i >= self.marks.len() {
            return Ok(true);
        }
        if i >= self.tables.places() {
            return Ok(true);
        }
        if !self.marks[i] {
            return Ok(true);
        }
        if !self.tables.is_point(i) {
            return Ok(true);
        }
        if self.tables.writes_now(i, self.signal) {
            return Ok(false);
        }
        Ok(!self.tables.writes_later(i, self.signal))
    }
}

// Whether a text writes a signal nowhere where it is hot, by wide rules past a turn that is sure by it alone. It takes as long as the text.
fn never_hot_in<'a>(
    alloc: Global,
    tables: &'a Tables<'a>,
    wide: bool,
    v: usize,
) -> Result<bool, AllocError>
    ensures { IfOk result (λ b. (IsTrue b ↔ NeverHotIn wide tables.entry.now v)) }
{
    tables.leads_in();
    let marks = hot(alloc, tables, wide, v)?;
    let rule = NotHot {
        tables,
        marks: &marks,
        signal: v,
    };
    let all = all_keep(alloc, &rule, tables.places())?;
    Ok(all)
}

// Whether a text, that of the writer of a signal, writes it nowhere where it is hot: the ranks of its places tell that, or else a walk does.
fn never_hot_by<'a>(
    alloc: Global,
    writes: &Writes<'a>,
    tables: &'a Tables<'a>,
    i: usize,
    v: usize,
) -> Result<bool, AllocError>
    requires text { slice_get writes.now.charts i ≡ Some tables.now }
    requires delay { IsDelay writes.now.design writes.now.claims i }
    requires writer { IsWriter writes.now.design writes.now.claims v i }
    ensures { IfOk result (λ b. (IsTrue b ↔ NeverHotIn (is_wide writes.entry.now.claims) tables.entry.now v)) }
{
    if writes.are_apart(tables, i, v) {
        return Ok(true);
    }
    never_hot_in(alloc, tables, writes.facts().is_wide(), v)
}

// Whether a process of kind delay, the writer of a signal, writes it nowhere where it is hot.
fn never_hot<'a>(
    alloc: Global,
    facts: &'a Facts<'a>,
    writes: &Writes<'a>,
    i: usize,
    v: usize,
) -> Result<bool, AllocError>
    requires writes { writes.now ≡ facts.now }
    requires delay { IsDelay facts.now.design facts.now.claims i }
    requires writer { IsWriter facts.now.design facts.now.claims v i }
    ensures { IfOk result (λ b. (IsTrue b ↔ NeverHot facts.entry.now.design (is_wide facts.entry.now.claims) i v)) }
{
    facts.maps();
    match facts.tables(i) {
        None => Ok(true),
        Some(tables) => never_hot_by(alloc, writes, tables, i, v),
    }
}

// Whether a signal has a writer of kind delay, which writes it nowhere where it is hot.
fn is_soundly_written<'a>(
    alloc: Global,
    facts: &'a Facts<'a>,
    writes: &Writes<'a>,
    root: usize,
) -> Result<bool, AllocError>
    requires { writes.now ≡ facts.now }
    ensures { IfOk result (λ b. (IsTrue b ↔ IsSoundlyWritten facts.entry.now.design facts.entry.now.claims root)) }
{
    let Some(i) = facts.writer(root) else {
        return Ok(false);
    };
    if facts.is_delay(i) {
        never_hot(alloc, facts, writes, i, root)
    } else {
        Ok(false)
    }
}

// Whether a signal is a variable.
fn is_variable(design: &Design, v: usize) -> bool
    ensures { IsTrue result ↔ HasKind true design.now v }
{
    match design.signals().get(v) {
        None => false,
        Some(signal) => match signal.kind {
            SignalKind::Wire => false,
            SignalKind::Reg | SignalKind::Integer => true,
        },
    }
}

fn is_blocking_mode(mode: Option<SignalMode>) -> bool
    ensures { result ≡ is_blocking_mode mode }
{
    match mode {
        Some(SignalMode::Blocking) => true,
        _ => false,
    }
}

// Whether the mode of a signal is blocking.
fn is_blocking(facts: &Facts, v: usize) -> bool
    ensures { IsTrue result ↔ HasMode facts.entry.now.design facts.entry.now.claims v blocking }
{
    is_blocking_mode(facts.mode(v))
}

// Whether a signal is a variable of mode blocking, with a writer of kind delay, and not hot where that writes it.
fn is_sound_root<'a>(
    alloc: Global,
    facts: &'a Facts<'a>,
    writes: &Writes<'a>,
    root: usize,
) -> Result<bool, AllocError>
    requires { writes.now ≡ facts.now }
    ensures { IfOk result (λ b. (IsTrue b ↔ IsSoundRoot facts.entry.now.design facts.entry.now.claims root)) }
{
    if !is_variable(facts.design(), root) {
        return Ok(false);
    }
    if !is_blocking(facts, root) {
        return Ok(false);
    }
    is_soundly_written(alloc, facts, writes, root)
}

// Whether a signal copies a root (in version 3 the root's inverse too), and the root is sound.
fn is_right<'a>(
    alloc: Global,
    facts: &'a Facts<'a>,
    writes: &Writes<'a>,
    copies: &Copies,
    root: usize,
    v: usize,
) -> Result<bool, AllocError>
    requires writes { writes.now ≡ facts.now }
    requires copies { copies.now ≡ facts.now.design }
    ensures { IfOk result (λ b. (IsTrue b ↔ IsRight facts.entry.now.design facts.entry.now.claims v root)) }
{
    if copies.copies_root(alloc, facts.is_wide(), root, v)? {
        is_sound_root(alloc, facts, writes, root)
    } else {
        Ok(false)
    }
}

// Whether this is so of each of some roots.
fn are_right<'a>(
    alloc: Global,
    facts: &'a Facts<'a>,
    writes: &Writes<'a>,
    copies: &Copies,
    roots: &[usize],
    v: usize,
) -> Result<bool, AllocError>
    requires writes { writes.now ≡ facts.now }
    requires copies { copies.now ≡ facts.now.design }
    ensures { IfOk result (λ b. (IsTrue b ↔ ((r : ℕ) → Contains roots.now r → IsRight facts.entry.now.design facts.entry.now.claims v r))) }
{
    for root in roots {
        if !is_right(alloc, facts, writes, copies, *root, v)? {
            return Ok(false);
        }
    }
    Ok(true)
}

/// Whether a signal keeps the rule K6: it has one entry where an edge term names it, else none; and it copies the root of its entry (in version 3 the
/// root's inverse too), a variable of mode blocking, with a writer of kind delay, and not hot where that writes it. It takes for the root as long as
/// there are signals, and as there are places at which the writer writes it; as the writer's text, where their ranks don't tell.
pub fn keeps_root<'a>(
    alloc: Global,
    entries: &Entries<'a>,
    copies: &Copies,
    v: usize,
) -> Result<bool, AllocError>
    requires { copies.now ≡ entries.now.design }
    ensures { IfOk result (λ b. (IsTrue b ↔ K6 entries.now.design entries.now.claims v)) }
{
    if !entries.has_right_entries(v) {
        return Ok(false);
    }
    let roots = entries.roots(alloc, v)?;
    are_right(alloc, entries.facts(), entries.writes(), copies, &roots, v)
}
