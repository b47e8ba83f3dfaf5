//! Files of the system.
ghost use Rattle.std.specs.Prelude.{None};

use crate::file::OutputFile;
use std::fs;
use std::io::{self, ErrorKind, Write};
use std::rt::Files;

/// A file of the system. What it holds isn't known.
#[derive(Drop)]
pub struct DiskFile<'r, R: Files> {
    runtime: &'r R,
    file: Option<R::File>,
}

impl<'r, R: Files> DiskFile<'r, R> {
    /// A file that isn't open yet.
    pub fn new(runtime: &'r R) -> Self {
        DiskFile {
            runtime,
            file: None,
        }
    }
}

impl<'r, R: Files> OutputFile for DiskFile<'r, R> {
    ghost bytes = { λ _. None };

    ghost name = { λ _. None };

    fn open(&mut self, path: &str) -> io::Result<()> {
        self.file = Some(fs::create(self.runtime, path)?);
        Ok(())
    }

    fn write(&mut self, piece: &[u8]) -> io::Result<usize> {
        match &mut self.file {
            Some(file) => file.write(piece),
            None => Err(io::Error::from(ErrorKind::BrokenPipe)),
        }
    }
}
