//! Names and what they mean.
ghost use Rattle.std.specs.Prelude.{◌≡◌, ℕ, [], Some, None, IfOk, OnOk};
ghost use Rattle.vs_widths.specs.Names.{meaning_of, Binds, Declares};

use std::alloc::{AllocFailed, Global};
use std::collections::BTreeMap;
use std::marker::Model;

/// Names, each with its meaning. They are kept in order, so that no choice of names makes a look-up slow.
#[derive(Drop)]
pub struct Names<'s, V: Copy> {
    meanings: BTreeMap<&'s [u8], V>,
}

impl<'s, V: Copy> Model for Names<'s, V> {
    ghost use Rattle.std.specs.Prelude.{List, ℕ};
    ghost use Rattle.vs_widths.specs.Names.{by_bytes};

    ghost Value = { List (List ℕ × V) };

    ghost view = { λ n. by_bytes n.meanings.entries };
}

impl<'s, V: Copy> Names<'s, V> {
    /// No names.
    pub fn new(alloc: Global) -> Self
        ensures { result ≡ [] }
    {
        Names {
            meanings: BTreeMap::new(alloc),
        }
    }

    /// Declares a name, unless it is declared already.
    pub fn declare(
        &mut self,
        name: &'s [u8],
        meaning: V,
    ) -> Result<bool, AllocFailed<(&'s [u8], V)>>
        ensures { IfOk result (λ fresh. Declares fresh self.old self.new name.now meaning) }
    {
        if self.meanings.contains_key(name) {
            return Ok(false);
        }
        self.meanings.insert(name, meaning)?;
        Ok(true)
    }

    /// Gives a name this meaning, whether it had one or not.
    pub fn bind(&mut self, name: &'s [u8], meaning: V) -> Result<(), AllocFailed<(&'s [u8], V)>>
        ensures { OnOk result (Binds self.old self.new name.now meaning) }
    {
        self.meanings.insert(name, meaning)?;
        Ok(())
    }

    /// What a name means, where it is declared.
    pub fn find(&self, name: &[u8]) -> Option<V>
        ensures { result ≡ meaning_of self.now name.now }
    {
        match self.meanings.get(name) {
            Some(meaning) => Some(*meaning),
            None => None,
        }
    }
}
