//! Variables that their writers are sure to change in the first slot.
ghost use Rattle.std.specs.Prelude.{ℕ, ◌<◌, ◌↔◌, length, IfOk, IsTrue};
ghost use Rattle.vs_rules_of_starts.specs.Beginnings.{AreNamed};
ghost use Rattle.vs_rules_of_starts.specs.Started.{StartsFor};

use crate::begins::starts_surely;
use std::alloc::{AllocError, Global};
use vs_claims::Facts;
use vs_design::BitRange;

/// Whether in the first slot each write of a variable by a process is sure to change a bit that is named, and one is sure to be made. It takes as
/// long as the text of the process, and for each `<=` of the variable the bits of its word, times how many ranges are named.
pub(crate) fn starts_for(
    alloc: Global,
    facts: &Facts,
    w: usize,
    named: &[BitRange],
    g: usize,
) -> Result<bool, AllocError>
    requires { w < length facts.now.design.processes }
    ensures { IfOk result (λ b. (i : ℕ) → AreNamed facts.now.design i g named.now →
        (IsTrue b ↔ StartsFor facts.now.design i g w)) }
{
    facts.maps();
    match facts.tables(w) {
        None => Ok(false),
        Some(tables) => starts_surely(alloc, tables, facts.design(), named, g),
    }
}
