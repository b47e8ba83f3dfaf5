//! Marks: which blocks of signals may have changed.
ghost use Rattle.std.specs.Prelude.{◌≡◌, ℕ, ◌<◌, ◌≤◌, ◌*◌, ◌^◌, length, slice_index};
ghost use Rattle.vs_vcd_writing.specs.Marks.{IsBlock, IsNextMark};

/// How many signals are in a block. The bit `b % 64` of the word `b / 64` of the marks is that of the block `b`, and the
/// block of a signal is its number in the design divided by this.
pub const BLOCK: usize = 8;

/// The numbers of the signals of a block: from one on, below another.
#[derive(Clone, Copy)]
pub(crate) struct BlockRange {
    pub from: usize,
    pub to: usize,
}

/// The signals of a block, of so many in all; none where the block is past the last of them.
pub(crate) fn block_range(block: usize, count: usize) -> Option<BlockRange>
    ensures { IsBlock block count result }
{
    if block > count / BLOCK {
        return None;
    }
    let from = BLOCK * block;
    let to = if count - from < BLOCK {
        count
    } else {
        from + BLOCK
    };
    Some(BlockRange { from, to })
}

/// The first marked block from this one on.
pub(crate) fn next_mark(marks: &[u64], from: usize) -> Option<usize>
    requires { length marks.now ≤ 2 ^ 57 }
    ensures { IsNextMark marks.now from result }
{
    let word = from / 64;
    if word >= marks.len() {
        return None;
    }
    let rest = marks[word] >> (from % 64);
    if rest == 0 {
        return first_mark(marks, word + 1);
    }
    Some(from + rest.trailing_zeros() as usize)
}

/// A word from this one on, behind words without a mark. It looks at four words at once.
fn skip_unmarked(marks: &[u64], from: usize) -> usize
    requires few { length marks.now ≤ 2 ^ 57 }
    requires within { from ≤ length marks.now }
    ensures order { from ≤ result }
    ensures most { result ≤ length marks.now }
    ensures unmarked { (w : ℕ) → from ≤ w → w < result → slice_index marks.now w ≡ 0 }
{
    let mut word = from;
    while word + 4 <= marks.len() {
        let bits = marks[word] | marks[word + 1] | marks[word + 2] | marks[word + 3];
        if bits != 0 {
            return word;
        }
        word += 4;
    }
    word
}

/// The first marked block from this word on.
fn first_mark(marks: &[u64], from: usize) -> Option<usize>
    requires few { length marks.now ≤ 2 ^ 57 }
    requires within { from ≤ length marks.now }
    ensures { IsNextMark marks.now (64 * from) result }
{
    for word in skip_unmarked(marks, from)..marks.len() {
        if marks[word] != 0 {
            return Some(64 * word + marks[word].trailing_zeros() as usize);
        }
    }
    None
}
