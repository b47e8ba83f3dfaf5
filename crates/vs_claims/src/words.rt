//! What the words of a certificate say.
ghost use Rattle.std.specs.Prelude.{◌≡◌, ◌↔◌, IsTrue, Some};
ghost use Rattle.vs_claims.specs.vs_rules.specs.Certificates.{displays_from, grain_from, kind_from};
ghost use Rattle.vs_claims.specs.vs_rules.specs.Claims.{edges};
ghost use Rattle.vs_claims.specs.Facts.{kind_seen};
ghost use Rattle.vs_claims.specs.facts_passes.Kept.{IsBlockKind, IsDelayKind, IsMixedKind, AreKindLists};

use vs_certificate::{ClaimedGrain, ClaimedKind, Version};
use vs_process::Grain;

/// Whether it is the kind of a combinational block.
pub(crate) fn is_block(kind: Option<&ClaimedKind>) -> bool
    ensures { IsTrue result ↔ IsBlockKind (kind_seen kind.entry) }
{
    match kind {
        None => false,
        Some(k) => matches!(k, ClaimedKind::Combinational(_)),
    }
}

/// Whether it is the kind of a process that waits for edges alone.
pub(crate) fn is_edge(kind: Option<&ClaimedKind>) -> bool
    ensures { IsTrue result ↔ (kind_seen kind.entry ≡ Some edges) }
{
    match kind {
        None => false,
        Some(k) => matches!(k, ClaimedKind::Edge),
    }
}

/// Whether it is the kind of a process that waits for times alone.
pub(crate) fn is_delay(kind: Option<&ClaimedKind>) -> bool
    ensures { IsTrue result ↔ IsDelayKind (kind_seen kind.entry) }
{
    match kind {
        None => false,
        Some(k) => matches!(k, ClaimedKind::Delay(_)),
    }
}

/// Whether it is the kind of a process that waits for times and for edges.
pub(crate) fn is_mixed(kind: Option<&ClaimedKind>) -> bool
    ensures { IsTrue result ↔ IsMixedKind (kind_seen kind.entry) }
{
    match kind {
        None => false,
        Some(k) => matches!(k, ClaimedKind::Mixed(_)),
    }
}

/// The lists of residues of a kind, where it is that of a process that waits for times.
pub(crate) fn lists_in<'a>(kind: Option<&'a ClaimedKind>) -> Option<&'a [Vec<u64>]>
    ensures { AreKindLists (kind_seen kind.entry) result }
{
    match kind {
        None => None,
        Some(k) => lists_of(k),
    }
}

// The same of a kind that is there.
fn lists_of<'a>(kind: &'a ClaimedKind) -> Option<&'a [Vec<u64>]>
    ensures { AreKindLists (Some (kind_from kind.entry.now)) result }
{
    match kind {
        ClaimedKind::Combinational(_) | ClaimedKind::Edge => None,
        ClaimedKind::Delay(lists) | ClaimedKind::Mixed(lists) => Some(lists),
    }
}

/// Whether arguments of `$display` count by this version.
pub(crate) fn displays(version: Version) -> bool
    ensures { result ≡ displays_from version }
{
    match version {
        Version::One => false,
        Version::Two { displays } | Version::Three { displays } => displays,
    }
}

/// A grain, as it is claimed.
pub(crate) fn grain(claimed: ClaimedGrain) -> Grain
    ensures { result ≡ grain_from claimed }
{
    match claimed {
        ClaimedGrain::Block => Grain::Block,
        ClaimedGrain::Statement => Grain::Statement,
    }
}
