//! A file that is opened at its first byte.
ghost use Rattle.std.specs.Prelude.{◌≡◌, OnOk, false, true};
ghost use Rattle.std.specs.Io.{WritesAtMost};
ghost use Rattle.std.specs.Io.KnownBytes.{Keeps, WriteAppends};

use crate::file::OutputFile;
use std::io::{self, Write};

/// A writer to a file that is opened at the first write, though it be of no byte. Without one the file isn't there, or is the old one.
#[derive(Drop)]
pub struct Late<'n, F: OutputFile> {
    file: F,
    path: &'n str,
    is_open: bool,
}

impl<'n, F: OutputFile> Late<'n, F> {
    /// A writer to the file of a name, which isn't open yet.
    pub fn new(file: F, path: &'n str) -> Self
        ensures file { result.file ≡ file }
        ensures path { result.path ≡ path.entry }
        ensures closed { result.is_open ≡ false }
    {
        Late {
            file,
            path,
            is_open: false,
        }
    }

    /// The file.
    pub fn into_inner(self) -> F
        ensures { F.bytes result ≡ F.bytes self.entry.file }
    {
        let Late {
            file,
            path: _,
            is_open: _,
        } = self;
        file
    }

    // Opens the file, unless it is open.
    fn open(&mut self) -> io::Result<()>
        ensures bytes { Keeps (F.bytes self.old.file) (F.bytes self.new.file) }
        ensures open { OnOk result (self.new.is_open ≡ true) }
        ensures path { self.new.path ≡ self.old.path }
    {
        if !self.is_open {
            self.file.open(self.path)?;
            self.is_open = true;
        }
        Ok(())
    }

    // Opens the file and writes to it.
    fn write_open(&mut self, piece: &[u8]) -> io::Result<usize>
        ensures bound { WritesAtMost result piece.now }
        ensures bytes { WriteAppends (F.bytes self.old.file) (F.bytes self.new.file) result piece.now }
    {
        self.open()?;
        self.file.write(piece)
    }
}

impl<'n, F: OutputFile> Write for Late<'n, F> {
    ghost contents = { λ l. F.bytes l.file };

    fn write(&mut self, piece: &[u8]) -> io::Result<usize> {
        self.write_open(piece)
    }

    fn flush(&mut self) -> io::Result<()> {
        Ok(())
    }
}
