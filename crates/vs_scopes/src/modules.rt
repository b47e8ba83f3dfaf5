//! The names of the modules that an instance stands in (IEEE 1364-2005, clause 12.1.2).
ghost use Rattle.std.specs.Prelude.{◌≡◌, ◌∷◌, IfOk};
ghost use Rattle.vs_scopes.specs.scopes_passes.Answers.{borrowed};

use std::alloc::{AllocError, Global};

/// Names with one before them.
pub fn with_first<'s>(
    alloc: Global,
    first: &'s [u8],
    names: &[&'s [u8]],
) -> Result<Vec<&'s [u8]>, AllocError>
    ensures { IfOk result (λ v. borrowed v.items ≡ first.entry.now ∷ borrowed names.now) }
{
    let mut all = Vec::new(alloc);
    all.push(first)?;
    all.extend_from_slice(names)?;
    Ok(all)
}
