//! The macros that are defined.

use crate::definition::Definition;
use std::alloc::{AllocError, Global};
use std::collections::BTreeMap;

/// The macros that are defined, and all definitions that have been read.
#[derive(Drop)]
pub struct Macros {
    alloc: Global,
    definitions: Vec<Definition>,
    // The macros by their names, each with the number of its definition.
    numbers: BTreeMap<Vec<u8>, usize>,
}

impl Macros {
    /// No macros.
    pub fn new(alloc: Global) -> Macros {
        Macros {
            alloc,
            definitions: Vec::new(alloc),
            numbers: BTreeMap::new(alloc),
        }
    }

    /// Defines a macro. One of the same name is forgotten.
    pub fn define(&mut self, definition: Definition) -> Result<(), AllocError> {
        let name = Vec::from_slice(self.alloc, &definition.name)?;
        let number = self.definitions.len();
        self.definitions.push(definition)?;
        self.numbers.insert(name, number)?;
        Ok(())
    }

    /// Forgets the macro of this name, if there is one.
    pub fn undefine(&mut self, name: &[u8]) {
        let _ = self.numbers.remove(name);
    }

    /// Whether a macro of this name is defined.
    pub fn has(&self, name: &[u8]) -> bool {
        self.numbers.contains_key(name)
    }

    /// The definition of the macro of this name, with its number.
    pub fn find(&self, name: &[u8]) -> Option<(usize, &Definition)> {
        let number = *self.numbers.get(name)?;
        Some((number, self.definition(number)?))
    }

    /// The definition of a number.
    pub fn definition(&self, number: usize) -> Option<&Definition> {
        self.definitions.get(number)
    }
}
