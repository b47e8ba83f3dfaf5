//! A writer with a buffer.
ghost use Rattle.std.specs.Prelude.{◌≡◌, ◌≤◌, ◌⊎◌, ℕ, List, [], length, drop, OnOk};
ghost use Rattle.std.specs.Io.{WritesAtMost};
ghost use Rattle.std.specs.Io.KnownBytes.{Keeps, WriteAppends, append_known};
ghost use Rattle.vs_outputs.specs.Buffers.{all_bytes, failures_of, writer_of};

use std::io::{self, ErrorKind, Write};
use vs_vcd_writing::Sink;

/// How many bytes are gathered at most.
pub const ROOM: usize = 8192;

/// A sink that gathers what it takes, so that its writer is given large pieces. Every error of a write is a failure, an interruption too, and so
/// is a write that takes no byte. The writer is never flushed.
///
/// In contracts it stands for what the writer holds, and then what is gathered.
#[derive(Drop)]
pub struct Buffered<W> {
    writer: W,
    /// What is gathered, and in front of it what the writer has taken of it where a write has failed.
    gathered: Vec<u8>,
    /// How many of these bytes the writer has taken.
    taken: usize,
    /// How many writes failed.
    failures: u64,
    /// Whether what is gathered is written at the end of each line.
    by_lines: bool,
    /// How many bytes stay gathered until the end.
    keeps: usize,
}

// Writes these bytes from one on, in as many pieces as the writer wants, until all are taken or a write fails: how many of them are taken then,
// and how the last write ended.
pub(crate) fn write_from<W: Write>(
    writer: &mut W,
    bytes: &[u8],
    from: usize,
) -> (usize, io::Result<()>)
    ensures bound { from ≤ length bytes.now → result.0 ≤ length bytes.now }
    ensures all { OnOk result.1 (length bytes.now ≤ result.0) }
    ensures bytes { Keeps (append_known (W.contents writer.old) (drop from bytes.now))
        (append_known (W.contents writer.new) (drop result.0 bytes.now)) }
{
    let mut written = from;
    while written < bytes.len() {
        let taken = match writer.write(&bytes[written..]) {
            Ok(taken) => taken,
            Err(error) => return (written, Err(error)),
        };
        if taken == 0 {
            return (written, Err(io::Error::from(ErrorKind::WriteZero)));
        }
        written += taken;
    }
    (written, Ok(()))
}

impl<W: Write> Buffered<W> {
    /// A sink for a writer, with an empty text as the room to gather in, and no failed write yet. It may write at the end of each line, and it
    /// may keep so many bytes until the end, so that a last line can be left out.
    pub fn new(writer: W, room: Vec<u8>, by_lines: bool, keeps: usize) -> Self
        requires { room.items ≡ [] }
        ensures bytes { all_bytes W.contents result ≡ W.contents writer }
        ensures writer { writer_of result ≡ writer }
    {
        Buffered {
            writer,
            gathered: room,
            taken: 0,
            failures: 0,
            by_lines,
            keeps,
        }
    }

    // Writes what is gathered. What a failed write leaves stays gathered.
    fn write_gathered(&mut self) -> io::Result<()>
        ensures bytes { Keeps (all_bytes W.contents self.old) (all_bytes W.contents self.new) }
        ensures all { OnOk result (self.new.gathered.items ≡ []) }
        ensures begun { OnOk result (self.new.taken ≡ 0) }
        ensures failures { failures_of self.new ≡ failures_of self.old }
    {
        let (written, result) = write_from(&mut self.writer, &self.gathered, self.taken);
        match result {
            Ok(()) => {
                self.taken = 0;
                self.gathered.clear();
                Ok(())
            }
            Err(error) => {
                self.taken = written;
                Err(error)
            }
        }
    }

    /// Writes what is gathered. What a failed write leaves stays gathered.
    pub fn write_out(&mut self) -> io::Result<()>
        ensures bytes { Keeps (all_bytes W.contents self.old) (all_bytes W.contents self.new) }
        ensures whole { OnOk result (Keeps (all_bytes W.contents self.new) (W.contents (writer_of self.new))) }
        ensures failures { failures_of self.new ≡ failures_of self.old }
    {
        self.write_gathered()
    }

    /// Writes no byte, which opens a file that isn't open yet.
    pub fn open(&mut self) -> io::Result<()>
        ensures bytes { Keeps (all_bytes W.contents self.old) (all_bytes W.contents self.new) }
        ensures failures { failures_of self.new ≡ failures_of self.old }
    {
        self.writer.write(&[])?;
        Ok(())
    }

    // So many bytes at the front of what is gathered were written.
    fn drop_front(&mut self, count: usize)
        requires { count ≤ length self.old.gathered.items }
        ensures gathered { self.new.gathered.items ≡ drop count self.old.gathered.items }
        ensures writer { self.new.writer ≡ self.old.writer }
        ensures begun { self.new.taken ≡ 0 }
        ensures failures { failures_of self.new ≡ failures_of self.old }
    {
        self.taken = 0;
        self.gathered.rotate_left(count);
        let left = self.gathered.len() - count;
        self.gathered.truncate(left);
    }

    // Writes so many bytes at the front of what is gathered.
    fn write_front(&mut self, count: usize) -> io::Result<()>
        requires begun { self.old.taken ≤ count }
        requires within { count ≤ length self.old.gathered.items }
        ensures bytes { Keeps (all_bytes W.contents self.old) (all_bytes W.contents self.new) }
        ensures begun { OnOk result (self.new.taken ≡ 0) }
        ensures failures { failures_of self.new ≡ failures_of self.old }
    {
        let (front, _) = self.gathered.split_at(count);
        let (written, result) = write_from(&mut self.writer, front, self.taken);
        match result {
            Ok(()) => {
                self.drop_front(count);
                Ok(())
            }
            Err(error) => {
                self.taken = written;
                Err(error)
            }
        }
    }

    // Writes what is gathered, but for the bytes that stay gathered until the end.
    fn write_most(&mut self) -> io::Result<()>
        ensures bytes { Keeps (all_bytes W.contents self.old) (all_bytes W.contents self.new) }
        ensures begun { OnOk result (self.new.taken ≡ 0) }
        ensures failures { failures_of self.new ≡ failures_of self.old }
    {
        let most = self.gathered.len().saturating_sub(self.keeps);
        if self.keeps == 0 || most < self.taken {
            return self.write_gathered();
        }
        self.write_front(most)
    }

    /// Leaves a last line out, if all of it is gathered still and is kept until the end.
    pub fn cut(&mut self, line: &[u8])
        ensures cut { (cut : List ℕ) × Keeps (all_bytes W.contents self.old) (append_known (all_bytes W.contents self.new) cut)
            × ((cut ≡ []) ⊎ (cut ≡ line.now)) }
        ensures failures { failures_of self.new ≡ failures_of self.old }
    {
        let left = self.gathered.len().saturating_sub(line.len());
        if self.keeps == 0 || left < self.taken {
            return;
        }
        let (_, last) = self.gathered.split_at(left);
        if last == line {
            self.gathered.truncate(left);
        }
    }

    // Writes what is gathered where so many bytes more have no room beside it, or a write has failed.
    fn make_room(&mut self, more: usize) -> io::Result<()>
        ensures bytes { Keeps (all_bytes W.contents self.old) (all_bytes W.contents self.new) }
        ensures begun { OnOk result (self.new.taken ≡ 0) }
        ensures failures { failures_of self.new ≡ failures_of self.old }
    {
        if self.taken > 0 || more > ROOM.saturating_sub(self.gathered.len()) {
            self.write_most()?;
        }
        Ok(())
    }

    // Gathers a piece, or writes a large one.
    fn take_piece(&mut self, piece: &[u8]) -> io::Result<usize>
        ensures bound { WritesAtMost result piece.now }
        ensures bytes { WriteAppends (all_bytes W.contents self.old) (all_bytes W.contents self.new) result piece.now }
        ensures failures { failures_of self.new ≡ failures_of self.old }
    {
        self.make_room(piece.len())?;
        if self.keeps == 0 && piece.len() >= ROOM && self.gathered.is_empty() {
            return self.writer.write(piece);
        }
        self.gathered.extend_from_slice(piece)?;
        Ok(piece.len())
    }

    // Writes what is gathered where this piece ends a line, and that is asked for. What a failed write leaves stays gathered, and is written with
    // what follows.
    fn end_line(&mut self, piece: &[u8])
        ensures bytes { Keeps (all_bytes W.contents self.old) (all_bytes W.contents self.new) }
        ensures failures { failures_of self.new ≡ failures_of self.old }
    {
        if self.by_lines && piece.last() == Some(&b'\n') {
            let _ = self.write_most();
        }
    }

    // Takes a piece, and writes it where it ends a line and that is asked for.
    fn take_whole(&mut self, piece: &[u8]) -> io::Result<usize>
        ensures bound { WritesAtMost result piece.now }
        ensures bytes { WriteAppends (all_bytes W.contents self.old) (all_bytes W.contents self.new) result piece.now }
        ensures failures { failures_of self.new ≡ failures_of self.old }
    {
        let result = self.take_piece(piece);
        self.end_line(piece);
        result
    }

    /// The writer. What is gathered is lost.
    pub fn into_inner(self) -> W
        ensures writer { result ≡ writer_of self }
        ensures lost { (lost : List ℕ) × Keeps (all_bytes W.contents self) (append_known (W.contents result) lost) }
    {
        let Buffered {
            writer,
            gathered: _,
            taken: _,
            failures: _,
            by_lines: _,
            keeps: _,
        } = self;
        writer
    }
}

impl<W: Write> Sink for Buffered<W> {
    ghost bytes = { all_bytes W.contents };

    ghost failed = { λ b. b.failures };

    fn write(&mut self, piece: &[u8]) -> io::Result<usize> {
        let result = self.take_whole(piece);
        let failed = match &result {
            Ok(taken) => *taken == 0 && !piece.is_empty(),
            Err(_) => true,
        };
        if failed {
            self.failures = self.failures.saturating_add(1);
        }
        result
    }

    fn failures(&self) -> u64 {
        self.failures
    }
}
