//! The names of unnamed generate blocks.
ghost use Rattle.std.specs.Prelude.{◌≡◌, ℕ, List, IfOk};
ghost use Rattle.std.specs.Option.{option_map};
ghost use Rattle.vs_scopes.specs.scopes_passes.Names.{read_part};
ghost use Rattle.vs_scopes.specs.Generate.{free_name, unnamed_name};
ghost use Rattle.vs_elab_constants.specs.generate_passes.Numbering.{AreNames, free_with};

use std::alloc::{AllocError, Global};
use vs_scopes::vs_widths::Binding;
use vs_scopes::{PartName, numbered_name};
use vs_widths::Names;

/// A name has at most so many bytes (profile).
const NAME_LIMIT: usize = 1024;

/// With how many zeros, fewer than this, such a name is the first that a scope doesn't have; none where one before it is too long.
fn free_zeros(
    alloc: Global,
    limit: u32,
    own: &Names<Binding>,
    number: usize,
) -> Result<Option<u32>, AllocError>
    ensures { IfOk result (λ o. (ns : List (List ℕ)) → AreNames ns own.now
        → free_with number o ≡ free_name limit ns 0 number) }
{
    for zeros in 0..limit {
        let name = numbered_name(alloc, zeros, number)?;
        if name.len() > NAME_LIMIT {
            return Ok(None);
        }
        if own.find(&name).is_none() {
            return Ok(Some(zeros));
        }
    }
    Ok(None)
}

/// The name of an unnamed block of the generate construct of this number, in a scope that declares these names in the text: the first with
/// so many zeros that is none of them, of at most 1,024 bytes (IEEE 1364-2005, clause 12.4.3; the bound: profile).
pub fn unnamed_name<'s>(
    alloc: Global,
    own: &Names<Binding>,
    number: usize,
) -> Result<Option<PartName<'s>>, AllocError>
    ensures { IfOk result (λ o. (ns : List (List ℕ)) → AreNames ns own.now
        → option_map read_part o ≡ unnamed_name ns number) }
{
    match free_zeros(alloc, 1024, own, number)? {
        Some(zeros) => Ok(Some(PartName::Unnamed { zeros, number })),
        None => Ok(None),
    }
}
