//! The names of a scope and of those around it.
ghost use Rattle.std.specs.Prelude.{◌≡◌, ◌++◌, [], IfOk};
ghost use Rattle.vs_widths.specs.Names.{meaning_of, nested_names};

use crate::Binding;
use crate::names::Names;
use std::alloc::{AllocError, Global};
use std::marker::Model;

/// The names of a scope and those of the scopes around it, the innermost first: a name is looked up in its scope, and then outward
/// (IEEE 1364-2005, clause 12.7).
#[derive(Drop)]
pub struct Levels<'s, 'o> {
    own: &'o Names<'s, Binding>,
    outer: &'o [&'o Names<'s, Binding>],
}

impl<'s, 'o> Model for Levels<'s, 'o> {
    ghost use Rattle.std.specs.Prelude.{List, ℕ, ◌++◌};
    ghost use Rattle.vs_widths.specs.declared.bindings.Binding.{Binding};
    ghost use Rattle.vs_widths.specs.Names.{nested_names};

    ghost Value = { List (List ℕ × Binding) };

    ghost view = { λ l. l.own.now ++ nested_names l.outer.now };
}

impl<'s, 'o> Levels<'s, 'o> {
    /// A scope's own names, and those of the scopes around it, the innermost first.
    pub fn new(own: &'o Names<'s, Binding>, outer: &'o [&'o Names<'s, Binding>]) -> Self
        ensures { result ≡ own.now ++ nested_names outer.now }
    {
        Levels { own, outer }
    }

    /// The names of a scope alone.
    pub fn alone(own: &'o Names<'s, Binding>) -> Self
        ensures { result ≡ own.now }
    {
        Levels { own, outer: &[] }
    }

    /// What a name means in the innermost scope that has it.
    pub fn find(&self, name: &[u8]) -> Option<Binding>
        ensures { result ≡ meaning_of self.now name.now }
    {
        match self.own.find(name) {
            Some(binding) => Some(binding),
            None => found_in(self.outer, name),
        }
    }

    /// The names of each of the scopes, the innermost first: what stands around a scope inside.
    pub fn scopes(&self, alloc: Global) -> Result<Vec<&'o Names<'s, Binding>>, AllocError>
        ensures { IfOk result (λ scopes. nested_names scopes.items ≡ self.now) }
    {
        let mut scopes = Vec::new(alloc);
        scopes.push(self.own)?;
        scopes.extend_from_slice(self.outer)?;
        Ok(scopes)
    }
}

/// What a name means in the first of some scopes that has it.
fn found_in(scopes: &[&Names<Binding>], name: &[u8]) -> Option<Binding>
    ensures { result ≡ meaning_of (nested_names scopes.now) name.now }
{
    for names in scopes {
        if let Some(binding) = names.find(name) {
            return Some(binding);
        }
    }
    None
}
