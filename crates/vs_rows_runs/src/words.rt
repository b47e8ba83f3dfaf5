//! Calls whose words are wrong or can't be read, a name that isn't fit for a terminal, and help.

use crate::calling::run;
use std::io::{self, ErrorKind};
use std::test::Fail;
use vs_program::refuse_start;

const MISUSED: &[&str] = &[
    "vsim run --top t --until 10 --policy last",
    "vsim run --top t",
    "vsim run --top t --until 4611686018427387904",
    "vsim run --top t --top t --until 1",
    "vsim run --top t --until 1 --out dump",
    "vsim run --top t --until 1 --cert --policy lifo",
    "vsim run --top t --until 1 --cert --policy list:0=1",
    "vsim run --top t --until 1 --policy list:0..0",
    "vsim run --top t --until 1 --policy list:",
    "vsim run --top t --until 1ns",
    "vsim run --top t --until 1 --vcd d.vcd --out vcd",
    "vsim race --top t --until 1 --vcd-pair a.vcd",
    "vsim run --top t --until 1 --cert --cert",
    "vsim check",
    "vsim check --top t --until 1",
    "vsim certify --top t --grain process",
    "vsim certify --top t --cert",
    "vsim certify --top t --rules broad",
    "vsim check --top t --rules wide --rules wide",
    "vsim elab --top t --rules wide",
    "vsim race --top t",
    "vsim race --top t --until 1 --tries many",
];

#[test]
fn command_lines(rt: HostRuntime) -> Result<(), Fail> {
    for words in MISUSED {
        let answer = run(rt.alloc(), words, b"")?;
        assert_eq!(rt; answer.status, 64, "{words}");
        assert_eq!(rt; answer.out.len(), 0, "{words}");
        assert_ne!(rt; answer.err.len(), 0, "{words}");
    }
    Ok(())
}

const SHOWN: &[&str] = &[
    "vsim --help",
    "vsim help check",
    "vsim run --help",
    "vsim check -h",
    "vsim certify --help",
    "vsim race --help",
    "vsim elab --help",
    "vsim --version",
    "vsim -V",
];

#[test]
fn help_and_the_version(rt: HostRuntime) -> Result<(), Fail> {
    for words in SHOWN {
        let shown = run(rt.alloc(), words, b"")?;
        assert_eq!(rt; shown.status, 0, "{words}");
        assert_eq!(rt; shown.err.len(), 0, "{words}");
        assert_ne!(rt; shown.out.len(), 0, "{words}");
    }
    Ok(())
}

/// Why the words of a call can't be read, the status, and what is told.
static UNREADABLE: [(ErrorKind, u8, &str); 3] = [
    (ErrorKind::OutOfMemory, 3, "vsim: memory\n"),
    (
        ErrorKind::InvalidData,
        64,
        "vsim: a word is no text in UTF-8\n",
    ),
    (ErrorKind::BrokenPipe, 3, "vsim: read\n"),
];

#[test]
fn words_that_cannot_be_read(rt: HostRuntime) -> Result<(), Fail> {
    for (kind, wanted, text) in UNREADABLE {
        let mut err = Vec::new(rt.alloc());
        let status = refuse_start(&io::Error::from(kind), &mut err);
        assert_eq!(rt; status, wanted, "{text}");
        assert!(rt; err.as_slice() == text.as_bytes(), "{text}");
    }
    Ok(())
}

#[test]
fn control_bytes_of_a_name_are_spelled(rt: HostRuntime) -> Result<(), Fail> {
    let answer = run(
        rt.alloc(),
        "vsim run --top a\u{1b}b --until 1",
        b"module t; endmodule",
    )?;
    assert_eq!(rt; answer.status, 1);
    assert!(rt; answer.err.as_slice() == b"vsim: E1 at \\a\\x1bb \n".as_slice());
    Ok(())
}
