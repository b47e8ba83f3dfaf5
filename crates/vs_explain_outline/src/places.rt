//! Lines and columns.

/// A place of a source as a reader counts it.
#[derive(Clone, Copy)]
pub struct Spot {
    /// Its line, from 1 on.
    pub line: usize,
    /// Its column in bytes, from 1 on; a tab is one.
    pub column: usize,
    /// The byte at which its line begins.
    pub start: usize,
    /// The byte at which its line ends, its line feed not among it.
    pub end: usize,
}

/// The spot of a byte of a source; past the last byte that of its end.
pub fn spot_of(source: &[u8], place: usize) -> Spot {
    let mut line = 1usize;
    let mut start = 0usize;
    let mut end = source.len();
    for (index, byte) in source.iter().enumerate() {
        if *byte == b'\n' {
            if index >= place {
                end = index;
                break;
            }
            line = line.saturating_add(1);
            start = index.saturating_add(1);
        }
    }
    let column = place
        .min(source.len())
        .saturating_sub(start)
        .saturating_add(1);
    Spot {
        line,
        column,
        start,
        end,
    }
}
