//! A sink that compares what it takes with a text.
ghost use Rattle.std.specs.Prelude.{◌≤◌, None, length};

use std::io;
use vs_vcd_writing::Sink;

/// How many bytes two texts begin alike.
fn common(one: &[u8], other: &[u8]) -> usize
    ensures { result ≤ length one.now }
{
    let most = one.len().min(other.len());
    for place in 0..most {
        if one[place] != other[place] {
            return place;
        }
    }
    most
}

/// A sink that takes every byte and keeps none, but sees whether they are those of a text.
#[derive(Drop)]
pub(crate) struct Comparing<'t> {
    /// What is left of the text.
    rest: &'t [u8],
    /// Whether the text is whole: then nothing comes behind it.
    whole: bool,
    /// Whether another byte came.
    differs: bool,
}

impl<'t> Comparing<'t> {
    /// A sink that compares with a text from its beginning.
    pub(crate) fn new(text: &'t [u8], whole: bool) -> Self {
        Comparing {
            rest: text,
            whole,
            differs: false,
        }
    }

    /// Whether a byte came that the text hasn't there.
    pub(crate) fn differs(&self) -> bool {
        self.differs
    }

    /// How many bytes of the text are left, from the first one that differs on.
    pub(crate) fn left(&self) -> usize {
        self.rest.len()
    }

    /// Nothing more comes: a whole text of which something is left differs.
    pub(crate) fn end(&mut self) {
        if self.whole && !self.rest.is_empty() {
            self.differs = true;
        }
    }

    // Compares a piece with what is left.
    fn compare(&mut self, piece: &[u8]) {
        let same = common(self.rest, piece);
        let (_, rest) = self.rest.split_at(same);
        self.rest = rest;
        self.differs = same < piece.len() && (self.whole || !rest.is_empty());
    }
}

impl<'t> Sink for Comparing<'t> {
    ghost bytes = { λ _. None };

    ghost failed = { λ _. 0 };

    fn write(&mut self, piece: &[u8]) -> io::Result<usize> {
        if !self.differs {
            self.compare(piece);
        }
        Ok(piece.len())
    }

    fn failures(&self) -> u64 {
        0
    }
}
