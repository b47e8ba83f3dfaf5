//! What is told of a refusal beside its place and its meaning.

/// What is told of a refusal beside its place and its meaning.
#[derive(Clone, Copy)]
pub(crate) struct FaultLine<'t> {
    /// What is told without files, after `vsim: `: `P2 at 18: fork`.
    pub(crate) line: &'t [u8],
    /// Its number: `P2`; of what has no byte of the source the line.
    pub(crate) number: &'t [u8],
    /// What stands behind its place in the line: `: fork`.
    pub(crate) behind: &'t [u8],
}

/// The bytes behind the digits with which bytes begin.
fn after_digits(bytes: &[u8]) -> &[u8] {
    for (index, byte) in bytes.iter().enumerate() {
        if !byte.is_ascii_digit() {
            return bytes.get(index..).unwrap_or(&[]);
        }
    }
    &[]
}

impl<'t> FaultLine<'t> {
    /// Of a refusal with a byte of the source: `P2 at 18: fork`.
    pub(crate) fn of_place(line: &'t [u8]) -> FaultLine<'t> {
        for (index, byte) in line.iter().enumerate() {
            if *byte == b' ' {
                let rest = line.get(index..).unwrap_or(&[]);
                let place = rest.strip_prefix(b" at ").unwrap_or(&[]);
                return FaultLine {
                    line,
                    number: line.get(..index).unwrap_or(&[]),
                    behind: after_digits(place),
                };
            }
        }
        FaultLine::of_line(line)
    }

    /// Of a refusal without one: `E8 X2 at t.u`.
    pub(crate) fn of_line(line: &'t [u8]) -> FaultLine<'t> {
        FaultLine {
            line,
            number: line,
            behind: &[],
        }
    }
}
