//! Sinks: what a text is written to.
ghost use Rattle.std.specs.Prelude.{◌≡◌, ℕ, List, None, Option, OnOk, OnErr, is_err, true};
ghost use Rattle.std.specs.Io.{WritesAtMost};
ghost use Rattle.std.specs.Io.KnownBytes.{Appends, WriteAppends};
ghost use Rattle.vs_vcd_writing.specs.Sinks.{one_more, is_failure, failed_after, AppendsPart};

use std::io;
use std::io::Write;

/// A sink did not take a piece whole.
#[derive(Clone, Copy, PartialEq, Eq, Debug)]
pub struct WriteFault;

/// What a text is written to. In contracts it stands for a list of bytes, where that is known, and it counts the writes that failed.
pub trait Sink {
    /// The bytes that it stands for, where they are known.
    ghost bytes: { Self → Option (List ℕ) };

    /// How many writes failed.
    ghost failed: { Self → ℕ };

    /// Writes a piece, and answers how many bytes of its front were taken, as `std::io::Write` does.
    fn write(&mut self, piece: &[u8]) -> io::Result<usize>
        ensures bound { WritesAtMost result piece.now }
        ensures bytes { WriteAppends (bytes self.old) (bytes self.new) result piece.now }
        ensures failures { failed self.new ≡ failed_after (is_failure result piece.now) (failed self.old) };

    /// How many writes failed, or took no byte of a piece that wasn't empty. It stays at `u64::MAX`.
    fn failures(&self) -> u64
        ensures { result ≡ failed self.now };

    /// Whether it is known to keep nothing: then it stands for no known bytes, and nothing need be written to it.
    fn keeps_nothing(&self) -> bool
        ensures { result ≡ true → bytes self.now ≡ None }
    {
        false
    }
}

/// A writer whose failed writes are counted. It stands for the bytes that the writer holds, where the writer tells them.
#[derive(Drop)]
pub struct Counted<W> {
    writer: W,
    failures: u64,
}

impl<W: Write> Counted<W> {
    /// A sink for a writer, with no failed write yet.
    pub fn new(writer: W) -> Self
        ensures bytes { ⟦<Counted<W> as Sink>⟧.bytes result ≡ W.contents writer }
        ensures failures { ⟦<Counted<W> as Sink>⟧.failed result ≡ 0 }
    {
        Counted {
            writer,
            failures: 0,
        }
    }

    /// The writer, which holds what was written.
    pub fn into_inner(self) -> W
        ensures { W.contents result ≡ ⟦<Counted<W> as Sink>⟧.bytes self }
    {
        let Counted {
            writer,
            failures: _,
        } = self;
        writer
    }
}

impl<W: Write> Sink for Counted<W> {
    ghost bytes = { λ c. W.contents c.writer };

    ghost failed = { λ c. c.failures };

    fn write(&mut self, piece: &[u8]) -> io::Result<usize> {
        let result = self.writer.write(piece);
        let failed = match &result {
            Ok(taken) => *taken == 0 && !piece.is_empty(),
            Err(_) => true,
        };
        if failed {
            self.failures = self.failures.saturating_add(1);
        }
        result
    }

    fn failures(&self) -> u64 {
        self.failures
    }
}

/// Writes all of these bytes, in as many pieces as the sink wants. The first write that fails ends it.
pub fn write_all<S: Sink>(sink: &mut S, bytes: &[u8]) -> Result<(), WriteFault>
    ensures ok { OnOk result (Appends (S.bytes sink.old) (S.bytes sink.new) bytes.now) }
    ensures err { OnErr result (AppendsPart (S.bytes sink.old) (S.bytes sink.new) bytes.now) }
    ensures failures { S.failed sink.new ≡ failed_after (is_err result) (S.failed sink.old) }
{
    let mut rest = bytes;
    while !rest.is_empty() {
        match sink.write(rest) {
            Ok(taken) if taken > 0 => rest = &rest[taken..],
            _ => return Err(WriteFault),
        }
    }
    Ok(())
}
