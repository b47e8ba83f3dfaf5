//! The limits of a certificate.

ghost use Rattle.std.specs.Prelude.{◌≡◌, ◌↔◌, ℕ, IsTrue};
ghost use Rattle.vs_certificate.specs.JsonValue.{whole_value, residues_value, list_value, process_value, value_of};
ghost use Rattle.vs_certificate.specs.Limits.{is_within, are_residues, are_slots, are_processes, is_within_limits};
ghost use Rattle.vs_certificate.specs.Limits as Limits;
ghost use Rattle.vs_certificate.specs.Reading.{IsSound, IsSoundBy, IsSoundWide, other_by};
ghost use Rattle.vs_certificate.specs.Versions.{has_own_kinds, has_own_modes, has_own_words};

use crate::form::JsonForm;
use crate::members::{Certificate, ClaimedKind, ProcessEntry, Rules};

const MAX_ENTRIES: usize = 65_536;

const MAX_MODULUS: u64 = 1 << 32;

impl Certificate {
    /// Whether it is of version 1 or 2, the limits hold and each start, kind and mode is one of its version. Then no
    /// test of `from_json` fails of what is written of it, and a checker may be asked.
    pub fn is_sound(&self) -> bool
        ensures { IsTrue result ↔ IsSound (value_of self.now) }
    {
        self.version.is_narrow() && self.is_sound_wide()
    }

    /// Whether the limits hold and each start, kind and mode is one of its version, which may be 3. Then no test of
    /// `from_json_wide` fails of what is written of it.
    pub fn is_sound_wide(&self) -> bool
        ensures { IsTrue result ↔ IsSoundWide (value_of self.now) }
    {
        self.has_own_words() && self.is_within_limits()
    }

    /// Whether it is as sound as `from_json_by` asks by these rules.
    pub fn is_sound_by(&self, rules: Rules) -> bool
        ensures { IsTrue result ↔ IsSoundBy (other_by rules) (value_of self.now) }
    {
        match rules {
            Rules::Narrow => self.is_sound(),
            Rules::Wide => self.is_sound_wide(),
        }
    }

    /// Whether its version has all that is claimed of its processes and its signals.
    fn has_own_words(&self) -> bool
        ensures { result ≡ has_own_words self.now }
    {
        self.has_own_kinds() && self.has_own_modes()
    }

    /// Whether its version has all that is claimed of its processes.
    fn has_own_kinds(&self) -> bool
        ensures { result ≡ has_own_kinds self.now }
    {
        let version = self.version;
        self.processes
            .iter()
            .all(|process| version.has_kind(&process.kind))
    }

    /// Whether its version has the modes of its signals.
    fn has_own_modes(&self) -> bool
        ensures { result ≡ has_own_modes self.now }
    {
        let version = self.version;
        self.signals
            .iter()
            .all(|signal| version.has_mode(signal.mode))
    }

    /// Whether the limits hold, as they are tested of its JSON value.
    pub(crate) fn is_within_limits(&self) -> bool
        ensures { result ≡ is_within_limits (value_of self.now) }
    {
        is_modulus(self.modulus)
            && is_short(&self.edges)
            && is_short(&self.order)
            && are_processes_within(&self.processes, self.modulus, self.version.most_residues())
            && is_short(&self.signals)
    }
}

/// Whether a number may be a modulus.
fn is_modulus(modulus: u64) -> bool
    ensures { result ≡ Limits.is_modulus modulus }
{
    1 <= modulus && modulus <= MAX_MODULUS
}

/// Whether a list has at most as many entries as a certificate's lists may have.
fn is_short<T: JsonForm>(list: &[T]) -> bool
    ensures { result ≡ is_within 65536 (list_value T.json_value list.now) }
{
    list.len() <= MAX_ENTRIES
}

fn are_processes_within(processes: &[ProcessEntry], modulus: u64, most: usize) -> bool
    ensures { result ≡ are_processes most modulus (list_value process_value processes.now) }
{
    if processes.len() > MAX_ENTRIES {
        return false;
    }
    for process in processes {
        if let ClaimedKind::Delay(slots) | ClaimedKind::Mixed(slots) = &process.kind {
            if !are_slots_within(slots, modulus, most) {
                return false;
            }
        }
    }
    true
}

fn are_slots_within(slots: &[Vec<u64>], modulus: u64, most: usize) -> bool
    ensures { result ≡ are_slots most modulus (list_value residues_value slots.now) }
{
    if slots.len() > MAX_ENTRIES {
        return false;
    }
    for residues in slots {
        if !are_residues_within(residues, modulus, most) {
            return false;
        }
    }
    true
}

fn are_residues_within(residues: &[u64], modulus: u64, most: usize) -> bool
    ensures { result ≡ are_residues most modulus (list_value whole_value residues.now) }
{
    if residues.len() > most {
        return false;
    }
    let mut low = 0;
    for residue in residues {
        if *residue < low || modulus <= *residue {
            return false;
        }
        low = *residue + 1;
    }
    true
}
