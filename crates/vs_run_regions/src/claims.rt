//! How often the activated updates of a slot name each signal: so most of them are known to share none with an older one, without a look at it.
ghost use Rattle.std.specs.Prelude.{◌≡◌, map, slice_get};
ghost use Rattle.vs_design.specs.Stores.{changed_at};
ghost use Rattle.vs_run_regions.specs.Claims.{are_once, claimed, is_once, with_all, with_left, with_write};
ghost use Rattle.vs_run_regions.specs.Updates.{left_of, what_of};

use crate::update::Update;
use std::alloc::AllocError;
use vs_design::Write;

/// How many parts of the activated updates name a signal.
#[derive(Clone, Copy)]
pub(crate) enum Claim {
    /// None.
    Nothing,
    /// At most one.
    Once,
    /// Any number.
    Often,
}

/// Makes room for the claims of so many signals.
pub(crate) fn make_room(claims: &mut Vec<Claim>, signals: usize) -> Result<(), AllocError> {
    for _ in claims.len()..signals {
        claims.push(Claim::Often)?;
    }
    Ok(())
}

/// A claim where one part more names its signal, or begun anew.
#[inline(always)]
fn claimed(claim: Claim, anew: bool) -> Claim
    ensures { result ≡ claimed anew claim }
{
    if anew {
        return Claim::Nothing;
    }
    match claim {
        Claim::Nothing => Claim::Once,
        Claim::Once => Claim::Often,
        Claim::Often => Claim::Often,
    }
}

/// One part more names a signal, or its claim is begun anew.
#[inline(always)]
fn claim_signal(claims: &mut Vec<Claim>, signal: usize, anew: bool)
    ensures { claims.new.items ≡ changed_at (claimed anew) signal claims.old.items }
{
    if signal < claims.len() {
        claims[signal] = claimed(claims[signal], anew);
    }
}

/// The same of the parts of a write.
fn claim_write(claims: &mut Vec<Claim>, write: &Write, anew: bool)
    ensures { claims.new.items ≡ with_write anew write.now claims.old.items }
{
    for part in write.parts() {
        claim_signal(claims, part.signal, anew);
    }
}

/// The same of what an update writes.
#[inline(always)]
fn claim_update(claims: &mut Vec<Claim>, writes: &[Write], update: Update, anew: bool)
    ensures { claims.new.items ≡ with_left anew (left_of writes.now update.entry) claims.old.items }
{
    match update {
        Update::Bits(bits) => claim_signal(claims, bits.spot.signal, anew),
        Update::Any(number) => {
            if let Some(write) = writes.get(number) {
                claim_write(claims, write, anew);
            }
        }
        Update::Gone => {}
    }
}

/// The same of what updates write.
pub(crate) fn claim_all(claims: &mut Vec<Claim>, writes: &[Write], updates: &[Update], anew: bool)
    ensures { claims.new.items ≡ with_all anew (map (left_of writes.now) updates.now) claims.old.items }
{
    for update in updates {
        claim_update(claims, writes, *update, anew);
    }
}

/// Whether at most one part names a signal, as its claim says.
#[inline(always)]
fn is_once(claims: &[Claim], signal: usize) -> bool
    ensures { result ≡ is_once (slice_get claims.now signal) }
{
    match claims.get(signal).copied() {
        Some(Claim::Nothing) | Some(Claim::Once) => true,
        Some(Claim::Often) | None => false,
    }
}

/// Whether at most one part names each signal of a write, as its claim says.
fn are_once(claims: &[Claim], write: &Write) -> bool
    ensures { result ≡ are_once claims.now write.now }
{
    for part in write.parts() {
        if !is_once(claims, part.signal) {
            return false;
        }
    }
    true
}

/// Whether at most one part names each signal that an update names, as its claim says.
pub(crate) fn is_alone(claims: &[Claim], writes: &[Write], update: Update) -> bool
    ensures { result ≡ are_once claims.now (what_of writes.now update.entry) }
{
    match update {
        Update::Bits(bits) => is_once(claims, bits.spot.signal),
        Update::Any(number) => match writes.get(number) {
            Some(write) => are_once(claims, write),
            None => true,
        },
        Update::Gone => true,
    }
}
