//! How often names stand among others.
ghost use Rattle.std.specs.Prelude.{◌≡◌, ℕ, List, IfOk};
ghost use Rattle.vs_widths.specs.Names.{meaning_of};
ghost use Rattle.vs_scopes.specs.scopes_passes.Answers.{borrowed};
ghost use Rattle.vs_elab_signals.specs.passes.Counting.{count_of, Counts, TakesOne};

use std::alloc::{AllocError, Global};
use vs_widths::Names;

/// How often a name was counted.
fn count<'s>(counts: &Names<'s, usize>, name: &[u8]) -> usize
    ensures { result ≡ count_of (meaning_of counts.now name.now) }
{
    match counts.find(name) {
        Some(count) => count,
        None => 0,
    }
}

/// How often each name stands among these.
pub fn counted<'s>(alloc: Global, names: &[&'s [u8]]) -> Result<Names<'s, usize>, AllocError>
    ensures { IfOk result (Counts (borrowed names.now)) }
{
    let mut counts = Names::new(alloc);
    for name in names {
        let before = count(&counts, name);
        counts.bind(*name, before + 1)?;
    }
    Ok(counts)
}

/// Takes a name away once, where it is there; whether it was.
pub fn take_one<'s>(name: &'s [u8], counts: &mut Names<'s, usize>) -> Result<bool, AllocError>
    ensures { (ns : List (List ℕ)) → Counts ns counts.old → IfOk result (TakesOne ns name.entry.now counts.new) }
{
    let before = count(counts, name);
    if before == 0 {
        return Ok(false);
    }
    counts.bind(name, before - 1)?;
    Ok(true)
}
