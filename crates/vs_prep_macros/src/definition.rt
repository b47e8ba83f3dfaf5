//! Definitions of macros (IEEE 1364-2005, clause 19.3.1).
ghost use Rattle.std.specs.Prelude.{◌≤◌, IfOk, length};
ghost use Rattle.vs_prep_macros.specs.Definitions.{ReadsMacro};

use crate::body::read_body;
use crate::directive::Directive;
use crate::fault::{Fault, Halt, Spot};
use crate::formals::{Formals, formals_of};
use crate::scan::wanted_name;
use std::alloc::Global;

/// A macro as it is defined.
#[derive(Drop)]
pub struct Definition {
    pub name: Vec<u8>,
    /// The formals, where a parenthesis follows the name directly.
    pub formals: Option<Formals>,
    /// The text, without comments and without white space at its ends.
    pub body: Vec<u8>,
    /// Where the `define` stands.
    pub spot: Spot,
}

/// Reads a definition behind its `define`, which stands at the spot, and answers what stands behind it.
pub fn read_definition(alloc: Global, bytes: &[u8], spot: Spot) -> Result<(Definition, &[u8]), Halt>
    ensures read { ReadsMacro bytes.now result }
    ensures no_longer { IfOk result (λ x. length x.1.now ≤ length bytes.now) }
{
    let (name, after) = wanted_name(bytes)?;
    if Directive::of(name).is_some() {
        return Err(Halt::Here(Fault::ReservedName));
    }
    let name = Vec::from_slice(alloc, name)?;
    let (formals, after) = formals_of(alloc, after)?;
    let (body, rest) = read_body(alloc, after)?;
    let definition = Definition {
        name,
        formals,
        body,
        spot,
    };
    Ok((definition, rest))
}
