//! Files that a call writes.
ghost use Rattle.std.specs.Prelude.{◌≡◌, ℕ, List, OnOk, Option};
ghost use Rattle.std.specs.Io.{WritesAtMost};
ghost use Rattle.std.specs.Io.KnownBytes.{Keeps, WriteAppends};
ghost use Rattle.vs_outputs.specs.Files.{IsNamed};

use std::io;

/// A file that a call writes: it is opened by its name, once, and then takes bytes.
pub trait OutputFile {
    /// The bytes that it has taken, where they are known.
    ghost bytes: { Self → Option (List ℕ) };

    /// The name that it was opened by, where that is known.
    ghost name: { Self → Option (List ℕ) };

    /// Opens the file of a name: it is made, or emptied.
    fn open(&mut self, path: &str) -> io::Result<()>
        ensures bytes { Keeps (bytes self.old) (bytes self.new) }
        ensures name { OnOk result (IsNamed (name self.new) path.now) };

    /// Writes a piece, and answers how many bytes of its front were taken, as `std::io::Write` does.
    fn write(&mut self, piece: &[u8]) -> io::Result<usize>
        ensures bound { WritesAtMost result piece.now }
        ensures bytes { WriteAppends (bytes self.old) (bytes self.new) result piece.now }
        ensures name { name self.new ≡ name self.old };
}
