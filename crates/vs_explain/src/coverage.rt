//! Whether a block writes each bit of an output on each path, and where it doesn't.

use vs_design::{Aim, Signal, Statement, Target};
use vs_explain_facts::Point;

/// Why an output isn't written whole.
#[derive(Clone, Copy, PartialEq, Eq)]
pub(crate) enum Gap {
    /// One side of an `if` writes more than the other.
    Branch,
    /// A `case` without a `default` may be passed by.
    NoDefault,
    /// An item of a `case` writes less than another one.
    Item,
    /// It is read before the whole of it is written.
    ReadBefore,
    /// It is written in a loop, which may have no turn.
    Loop,
    /// Only some bits are written, or at an index that isn't constant.
    Bits,
}

/// A gap, and the number of the statement at which it is.
#[derive(Clone, Copy)]
pub(crate) struct GapAt {
    pub(crate) gap: Gap,
    pub(crate) number: usize,
}

/// A walk along a text, for one output.
#[derive(Drop)]
struct Walk<'p, 'd> {
    points: &'p [Point<'d>],
    signal: usize,
    /// All its bits.
    whole: u64,
    /// The first branch that leaves bits out.
    branch: Option<GapAt>,
    /// The first read before the whole is written.
    read: Option<GapAt>,
    /// The first loop that writes bits.
    turns: Option<GapAt>,
}

/// What the items of a `case` write.
#[derive(Clone, Copy)]
struct Sides {
    /// The bits that each of them writes.
    each: u64,
    /// The bits that some of them write.
    some: u64,
    has_default: bool,
}

impl Sides {
    /// No items yet, behind what is written before.
    fn of(bits: u64) -> Sides {
        Sides {
            each: u64::MAX,
            some: bits,
            has_default: false,
        }
    }

    /// Adds an item.
    fn add(&mut self, covered: u64, is_default: bool) {
        self.each &= covered;
        self.some |= covered;
        self.has_default = self.has_default || is_default;
    }
}

/// The bits from a place on, of the lowest 64.
fn bits_from(low: i64, width: u32) -> u64 {
    let mut bits = 0u64;
    let mut one = 1u64;
    let end = low.saturating_add(i64::from(width));
    for place in 0..64i64 {
        if low <= place && place < end {
            bits |= one;
        }
        one <<= 1;
    }
    bits
}

/// The bits of a signal that are written at constant indices.
fn bits_written(target: &Target, signal: usize) -> u64 {
    let mut bits = 0u64;
    for aim in &target.parts {
        if let Aim::Fixed(slice) = aim {
            if slice.signal == signal {
                bits |= bits_from(i64::from(slice.low), slice.width);
            }
        }
    }
    bits
}

impl<'p, 'd> Walk<'p, 'd> {
    /// Notes a read of the output, where not the whole of it is written before.
    fn note_read(&mut self, number: usize, bits: u64) {
        let reads = match self.points.get(number) {
            Some(point) => point.reads_signal(self.signal),
            None => false,
        };
        if reads && bits != self.whole && self.read.is_none() {
            self.read = Some(GapAt {
                gap: Gap::ReadBefore,
                number,
            });
        }
    }

    /// Notes a branch that leaves bits out.
    fn note_branch(&mut self, gap: Gap, number: usize) {
        if self.branch.is_none() {
            self.branch = Some(GapAt { gap, number });
        }
    }

    /// The bits that are written behind the items of a `case`.
    fn join(&mut self, sides: Sides, number: usize, bits: u64) -> u64 {
        if !sides.has_default {
            if sides.some != bits {
                self.note_branch(Gap::NoDefault, number);
            }
            return bits;
        }
        if sides.each != sides.some {
            self.note_branch(Gap::Item, number);
        }
        sides.each
    }

    /// Notes a loop that writes bits.
    fn note_turns(&mut self, number: usize) {
        if self.turns.is_none() {
            self.turns = Some(GapAt {
                gap: Gap::Loop,
                number,
            });
        }
    }
}

/// The bits that are written behind a statement, on each path, of those before it.
#[cycle(covers)]
fn cover(walk: &mut Walk, statement: &Statement, bits: u64) -> u64 {
    match statement {
        Statement::Block(all) => cover_block(walk, all, bits),
        Statement::Assign(number, target, _) => {
            walk.note_read(*number as usize, bits);
            bits | bits_written(target, walk.signal)
        }
        Statement::Forever(_, body) | Statement::Delay(_, _, body) | Statement::Event(_, _, body) =>
            cover(walk, body, bits),
        Statement::While(number, _, body) | Statement::Repeat(number, _, _, body) => {
            walk.note_read(*number as usize, bits);
            if cover(walk, body, bits) != bits {
                walk.note_turns(*number as usize);
            }
            bits
        }
        Statement::If(number, _, then, other) => {
            walk.note_read(*number as usize, bits);
            let one = cover(walk, then, bits);
            let two = cover(walk, other, bits);
            if one != two {
                walk.note_branch(Gap::Branch, *number as usize);
            }
            one & two
        }
        Statement::Case(number, _, _, items) => {
            walk.note_read(*number as usize, bits);
            let mut sides = Sides::of(bits);
            for (labels, body) in items {
                let covered = cover(walk, body, bits);
                sides.add(covered, labels.is_empty());
            }
            walk.join(sides, *number as usize, bits)
        }
        _ => bits,
    }
}

#[cycle(covers)]
fn cover_block(walk: &mut Walk, all: &[Statement], bits: u64) -> u64 {
    let mut covered = bits;
    for statement in all {
        covered = cover(walk, statement, covered);
    }
    covered
}

/// The first statement that writes a signal.
fn first_write(points: &[Point], signal: usize) -> usize {
    for (number, point) in points.iter().enumerate() {
        if point.writes_signal(signal) {
            return number;
        }
    }
    0
}

/// The gap of an output of a block: where it isn't written whole on each path, or is read before.
pub(crate) fn gap_of(
    points: &[Point],
    body: &Statement,
    number: usize,
    signal: &Signal,
) -> Option<GapAt> {
    let mut walk = Walk {
        points,
        signal: number,
        whole: bits_from(0, signal.width),
        branch: None,
        read: None,
        turns: None,
    };
    let covered = cover(&mut walk, body, 0);
    if covered == walk.whole && signal.words.is_none() {
        return walk.read;
    }
    let bits = GapAt {
        gap: Gap::Bits,
        number: first_write(points, number),
    };
    Some(walk.branch.or(walk.read).or(walk.turns).unwrap_or(bits))
}
