//! What is claimed of a design without processes.
ghost use Rattle.std.specs.Prelude.{◌≡◌, [], map, IfOk, IsUtf8, string_bytes};
ghost use Rattle.vs_design.specs.Kinds.{is_variable};
ghost use Rattle.vs_propose.specs.Claimed.{HasTexts, name_at, mode_at, entry_of};
ghost use Rattle.vs_propose.specs.Settling.{CanSettle};
ghost use Rattle.vs_drivers.specs.vs_rules.specs.Certificates.{name_from, mode_from, signal_claim, claims_of};
ghost use Rattle.vs_drivers.specs.vs_rules.specs.Verdict.{IsAccepted};

use crate::order::assign_order;
use std::alloc::{AllocError, Global};
use vs_certificate::{Certificate, ClaimedGrain, SignalEntry, SignalMode, Version};
use vs_design::{Design, Signal, SignalKind};
use vs_drivers::vs_rules::tested_are_certificates;

/// A name as the text of a certificate: nothing, where its bytes are no text.
pub fn text_of(alloc: Global, name: &[u8]) -> Result<String, AllocError>
    ensures { IfOk result (λ t. (IsUtf8 name.now → string_bytes t ≡ name.now)) }
{
    match std::str::from_utf8(name) {
        Ok(text) => String::from_str(alloc, text),
        Err(_) => Ok(String::new(alloc)),
    }
}

// The name of a continuous assignment.
fn assign_name(alloc: Global, design: &Design, j: usize) -> Result<String, AllocError>
    ensures { IfOk result (λ t. (HasTexts design.now → name_from t ≡ name_at design.now j)) }
{
    match design.assigns().get(j) {
        None => Ok(String::new(alloc)),
        Some(assign) => text_of(alloc, &assign.name),
    }
}

// The names of some.
fn assign_names(alloc: Global, design: &Design, order: &[usize]) -> Result<Vec<String>, AllocError>
    ensures { IfOk result (λ names. (HasTexts design.now → map name_from names.items ≡ map (name_at design.now) order.now)) }
{
    let mut names = Vec::new(alloc);
    for j in order {
        let name = assign_name(alloc, design, *j)?;
        names.push(name)?;
    }
    Ok(names)
}

// How a signal of a kind is written that no process writes.
fn mode_of(kind: SignalKind) -> SignalMode
    ensures { mode_from result ≡ mode_at (is_variable kind) }
{
    match kind {
        SignalKind::Wire => SignalMode::Net,
        SignalKind::Reg | SignalKind::Integer => SignalMode::Unwritten,
    }
}

// The entry of a signal that no process writes.
fn signal_entry(alloc: Global, signal: &Signal) -> Result<SignalEntry, AllocError>
    ensures { IfOk result (λ e. (IsUtf8 signal.now.path.items → signal_claim e ≡ entry_of signal.now)) }
{
    let name = text_of(alloc, &signal.path)?;
    Ok(SignalEntry {
        mode: mode_of(signal.kind),
        name,
        second: String::new(alloc),
        writer: String::new(alloc),
    })
}

// The entries of the signals.
fn signal_entries(alloc: Global, design: &Design) -> Result<Vec<SignalEntry>, AllocError>
    ensures { IfOk result (λ entries. (HasTexts design.now → map signal_claim entries.items ≡ map entry_of design.now.signals)) }
{
    let signals = design.signals();
    let mut entries = Vec::new(alloc);
    for signal in signals {
        let entry = signal_entry(alloc, signal)?;
        entries.push(entry)?;
    }
    Ok(entries)
}

/// A certificate of a grain for a design without processes: it lists each signal as a net or as one that no process writes, and the continuous
/// assignments in an order in which each stands after those that write a bit which it reads. Where the names of the design and some order meet the
/// rules K1 and K4 under any certificate of which no test of C2 to C4 fails, the design keeps all rules under this one.
pub fn certificate_of_assigns(
    alloc: Global,
    design: &Design,
    grain: ClaimedGrain,
) -> Result<Certificate, AllocError>
    requires still { design.now.processes ≡ [] }
    ensures grain { IfOk result (λ c. c.grain ≡ grain) }
    ensures accepted { IfOk result (λ c. (CanSettle design.now → IsAccepted design.now (claims_of c))) }
{
    design.is_well_formed();
    tested_are_certificates();
    let order = assign_order(alloc, design)?;
    let names = assign_names(alloc, design, &order)?;
    let signals = signal_entries(alloc, design)?;
    Ok(Certificate {
        version: Version::One,
        grain,
        modulus: 1,
        edges: Vec::new(alloc),
        order: names,
        processes: Vec::new(alloc),
        signals,
    })
}
