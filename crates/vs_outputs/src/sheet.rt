//! Files in memory.
ghost use Rattle.std.specs.Prelude.{◌≡◌, [], OnOk, Some, option_map};

use crate::file::OutputFile;
use std::alloc::{AllocError, Global};
use std::io;

/// A file in memory: its name, once it is open, and its bytes.
#[derive(Drop)]
pub struct Sheet {
    alloc: Global,
    /// The name that it was opened by.
    pub name: Option<Vec<u8>>,
    /// What it holds.
    pub bytes: Vec<u8>,
}

impl Sheet {
    /// A file that isn't open yet.
    pub fn new(alloc: Global) -> Self
        ensures { result.bytes.items ≡ [] }
    {
        Sheet {
            alloc,
            name: None,
            bytes: Vec::new(alloc),
        }
    }

    // Gives it a name.
    fn set_name(&mut self, path: &str) -> Result<(), AllocError>
        ensures bytes { self.new.bytes ≡ self.old.bytes }
        ensures name { OnOk result (option_map (λ n. n.items) self.new.name ≡ Some path.now) }
    {
        self.name = Some(Vec::from_slice(self.alloc, path.as_bytes())?);
        Ok(())
    }
}

impl OutputFile for Sheet {
    ghost bytes = { λ s. Some s.bytes.items };

    ghost name = { λ s. option_map (λ n. n.items) s.name };

    fn open(&mut self, path: &str) -> io::Result<()> {
        self.set_name(path)?;
        Ok(())
    }

    fn write(&mut self, piece: &[u8]) -> io::Result<usize> {
        self.bytes.extend_from_slice(piece)?;
        Ok(piece.len())
    }
}
