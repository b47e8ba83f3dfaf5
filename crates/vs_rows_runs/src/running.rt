//! Runs to sinks that hold what they took, texts in pieces, and designs made of sources.

use std::alloc::Global;
use std::io::{self, ErrorKind, Write};
use std::test::Fail;
use vs_design::Design;
use vs_kernel::vs_vcd_writing::Counted;
use vs_kernel::{Outcome, RunFault};
use vs_lexer::lex;
use vs_program::vs_elaborate::elaborate;
use vs_program::vs_parser::parse;
use vs_program::{Policy, SimFault, simulate};

/// A writer that takes so many bytes, and behind these fails, or takes none.
#[derive(Drop)]
pub struct LimitedWriter {
    pub taken: Vec<u8>,
    left: usize,
    fails: bool,
}

impl LimitedWriter {
    /// A writer with room for `left` bytes.
    pub fn new(alloc: Global, left: usize, fails: bool) -> Self {
        LimitedWriter {
            taken: Vec::new(alloc),
            left,
            fails,
        }
    }

    /// A sink with room for all that is written to it.
    pub fn for_all(alloc: Global) -> Counted<LimitedWriter> {
        Counted::new(LimitedWriter::new(alloc, usize::MAX, true))
    }
}

impl Write for LimitedWriter {
    fn write(&mut self, buf: &[u8]) -> io::Result<usize> {
        let n = buf.len().min(self.left);
        if n == 0 && self.fails && !buf.is_empty() {
            return Err(io::Error::from(ErrorKind::BrokenPipe));
        }
        self.left -= n;
        self.taken.extend_from_slice(&buf[..n])?;
        Ok(n)
    }

    fn flush(&mut self) -> io::Result<()> {
        Ok(())
    }
}

/// What a run answers and writes.
#[derive(Drop)]
pub struct RunAnswer {
    /// The outcome, or `None` where a sink failed.
    pub outcome: Option<Outcome>,
    pub dump: Vec<u8>,
    pub lines: Vec<u8>,
}

/// A run of a source with the top `t` to a moment, whose lines go to this writer.
pub fn run(
    alloc: Global,
    source: &str,
    policy: &Policy,
    limits: (u32, u32),
    lines: LimitedWriter,
) -> Result<RunAnswer, Fail> {
    let (until, steps) = limits;
    let mut dump = LimitedWriter::for_all(alloc);
    let mut lines = Counted::new(lines);
    let answered = simulate(
        alloc,
        source.as_bytes(),
        b"t",
        u64::from(until),
        u64::from(steps),
        policy,
        &mut dump,
        &mut lines,
    );
    let outcome = match answered {
        Err(SimFault::Run(RunFault::Write)) => None,
        other => Some(other.ok().ok_or("the source is refused")?),
    };
    Ok(RunAnswer {
        outcome,
        dump: dump.into_inner().taken,
        lines: lines.into_inner().taken,
    })
}

/// The same of a run whose sinks take all.
pub fn run_whole(
    alloc: Global,
    source: &str,
    policy: &Policy,
    limits: (u32, u32),
) -> Result<RunAnswer, Fail> {
    run(
        alloc,
        source,
        policy,
        limits,
        LimitedWriter::new(alloc, usize::MAX, true),
    )
}

/// Whether a text is these pieces, one behind the other.
pub fn is_text(text: &[u8], pieces: &[&str]) -> bool {
    let mut rest = text;
    for piece in pieces {
        match rest.strip_prefix(piece.as_bytes()) {
            Some(behind) => rest = behind,
            None => return false,
        }
    }
    rest.is_empty()
}

/// The design of a source with the top `t`.
pub fn design_of(alloc: Global, source: &str) -> Result<Design, Fail> {
    let tokens = lex(alloc, source.as_bytes()).ok().ok_or("lex")?;
    let tree = parse(alloc, &tokens).ok().ok_or("parse")?;
    let design = elaborate(alloc, &tree, b"t").ok().ok_or("elaborate")?;
    Ok(design)
}
