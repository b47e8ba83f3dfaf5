//! The lines of declarations.
ghost use Rattle.std.specs.Prelude.{◌≡◌, IfOk, MatchOption};
ghost use Rattle.vs_vcd_lines.specs.declared.dump.Declaration.{Declaration};
ghost use Rattle.vs_vcd_lines.specs.Lines.{declaration_line, IsDeclaration};

use crate::dump::Declaration;
use crate::ends::is_same;
use crate::lines::scope_of;
use crate::variables::variable_of;
use std::alloc::{AllocError, Global};

/// The declaration that a line is of, where the code of the next variable has this number.
pub fn declaration_of(
    alloc: Global,
    line: &[u8],
    number: usize,
) -> Result<Option<Declaration>, AllocError>
    ensures { IfOk result (λ found. MatchOption found ((d : Declaration) → IsDeclaration d → line.now ≡ declaration_line d number → ⊥)
        (λ d. IsDeclaration d × (line.now ≡ declaration_line d number))) }
{
    let closes = is_same(line, b"$upscope $end");
    if closes {
        return Ok(Some(Declaration::Upscope));
    }
    if let Some((kind, text)) = scope_of(line) {
        let name = Vec::from_slice(alloc, text)?;
        return Ok(Some(Declaration::Scope(kind, name)));
    }
    match variable_of(alloc, line, number)? {
        Some(variable) => Ok(Some(Declaration::Variable(variable))),
        None => Ok(None),
    }
}
