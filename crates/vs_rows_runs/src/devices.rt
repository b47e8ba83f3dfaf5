//! Readers and writers that fail, and an input that is longer than a source may be.

use crate::calling::{Input, call};
use crate::short::Short;
use std::alloc::{AllocError, Global};
use std::process::Abort;
use std::test::Fail;

/// The dump of `reg a` that is 0 at 0 and 1 from 5, to 10.
const ONE: &str =
    "$timescale 1 ns $end\n$scope module t $end\n$var reg 1 ! a $end\n$upscope $end\n$enddefinitions $end\n#0\n$dumpvars\n0!\n$end\n#5\n1!\n#10\n";

const WORDS: &str = "vsim run --top t --until 10 --out vcd";

const SOURCE: &str = "module t; reg a; initial begin a = 0; #5 a = 1; end endmodule";

/// A certificate of that source, and the source.
const CERTIFIED: &str =
    r#"{"edges":[],"grain":"block","modulus":1,"order":[],"processes":[{"kind":"delay","name":"t#p0","slots":[[0]],"start":"none"}],"signals":[{"mode":"blocking","name":"t.a","second":"","writer":"t#p0"}],"version":1}
module t; reg a; initial begin a = 0; #5 a = 1; end endmodule"#;

// The reader gives this input and fails, or ends: what the program answers, and that the input was read to its end.
fn is_read(
    rt: &impl Abort,
    alloc: Global,
    source: &[u8],
    fails: bool,
    status: u8,
    told: &str,
) -> Result<(), AllocError> {
    let mut input = Input::new(source);
    input.fails = fails;
    let mut out = Short::new(alloc, usize::MAX, fails);
    let (answered, err) = call(alloc, WORDS, &mut input, &mut out)?;
    assert_eq!(rt; err.as_slice(), told.as_bytes());
    assert_eq!(rt; answered, status);
    assert_eq!(rt; out.taken.len(), 0);
    assert_eq!(rt; input.given, source.len());
    Ok(())
}

/// So many spaces.
fn spaces(alloc: Global, count: usize) -> Result<Vec<u8>, AllocError> {
    let mut text = Vec::new(alloc);
    for _ in 0..count {
        text.push(b' ')?;
    }
    Ok(text)
}

// A reader that fails at once, behind a source, and behind more than a source may have; and an input of 5,000,000 bytes, of which all are read.
#[test]
fn readers(rt: HostRuntime) -> Result<(), Fail> {
    let spaces = spaces(rt.alloc(), 5000000)?;
    for source in [b"".as_slice(), SOURCE.as_bytes(), spaces.as_slice()] {
        is_read(&rt, rt.alloc(), source, true, 3, "vsim: read\n")?;
    }
    is_read(&rt, rt.alloc(), &spaces, false, 1, "vsim: L6 at 4194304\n")?;
    Ok(())
}

// A piece that begins in the first 4 MiB of a longer source and ends behind them is no fault, also where it ends behind what is kept of the source.
#[test]
fn pieces_past_the_limit(rt: HostRuntime) -> Result<(), Fail> {
    for (count, piece) in [
        (4194300, b"/* x */".as_slice()),
        (4194303, b"(* a *)".as_slice()),
        (4194302, b"\"abcdefgh\"".as_slice()),
        (4194303, b"4'b1".as_slice()),
    ] {
        let mut source = spaces(rt.alloc(), count)?;
        source.extend_from_slice(piece)?;
        is_read(&rt, rt.alloc(), &source, false, 1, "vsim: L6 at 4194304\n")?;
    }
    let mut source = Vec::from_slice(rt.alloc(), b"/*")?;
    source.extend_from_slice(&spaces(rt.alloc(), 8388700)?)?;
    source.extend_from_slice(b"*/")?;
    is_read(&rt, rt.alloc(), &source, false, 1, "vsim: L6 at 4194304\n")?;
    Ok(())
}

// A writer that takes so many bytes of what a call writes holds these, and the status tells whether they are all.
fn is_cut(
    rt: &impl Abort,
    alloc: Global,
    call_of: &CallRow,
    left: usize,
    fails: bool,
) -> Result<(), AllocError> {
    let CallRow {
        words,
        source,
        text,
    } = *call_of;
    let mut out = Short::new(alloc, left, fails);
    let mut input = Input::new(source.as_bytes());
    let (status, err) = call(alloc, words, &mut input, &mut out)?;
    let (wanted, told) = if left < text.len() {
        (3, "vsim: write\n")
    } else {
        (0, "")
    };
    assert_eq!(rt; err.as_slice(), told.as_bytes(), "{left} bytes");
    assert_eq!(rt; status, wanted, "{left} bytes");
    assert_eq!(rt; out.taken.len(), left);
    assert!(rt; text.as_bytes().starts_with(&out.taken), "{left} bytes");
    Ok(())
}

/// A call, its source, and the text that it writes.
struct CallRow {
    words: &'static str,
    source: &'static str,
    text: &'static str,
}

/// A run whose dump is asked for, one whose lines are, a listing, a certificate, a verdict, and a certified run.
static CALLS: [CallRow; 6] = [
    CallRow {
        words: WORDS,
        source: SOURCE,
        text: ONE,
    },
    CallRow {
        words: "vsim run --top t --until 10",
        source: "module t; reg a = 0; initial $strobe(\"p %b\", a); initial $strobe(\"q %0d\", a); endmodule",
        text: "p 0\nq 0\n",
    },
    CallRow {
        words: "vsim elab --top t",
        source: SOURCE,
        text: "t.a reg 1 unsigned 1\nt#p0 initial\n",
    },
    CallRow {
        words: "vsim certify --top t",
        source: "module t; endmodule",
        text: r#"{"edges":[],"grain":"block","modulus":1,"order":[],"processes":[],"signals":[],"version":1}
"#,
    },
    CallRow {
        words: "vsim check --top t",
        source: CERTIFIED,
        text: "yes\n",
    },
    CallRow {
        words: "vsim run --top t --until 10 --out vcd --cert",
        source: CERTIFIED,
        text: ONE,
    },
];

#[test]
fn writers(rt: HostRuntime) -> Result<(), Fail> {
    for call in &CALLS {
        for left in 0..call.text.len() + 1 {
            is_cut(&rt, rt.alloc(), call, left, false)?;
            is_cut(&rt, rt.alloc(), call, left, true)?;
        }
    }
    Ok(())
}

// What a call answers whose writer takes all, but perhaps for an interruption of its first write: this status and this text, and it isn't flushed.
fn is_answered(
    rt: &impl Abort,
    alloc: Global,
    call_of: &CallRow,
    interrupted: bool,
) -> Result<(), AllocError> {
    let mut out = Short::new(alloc, usize::MAX, true);
    out.interrupted = interrupted;
    let mut input = Input::new(call_of.source.as_bytes());
    let (status, err) = call(alloc, call_of.words, &mut input, &mut out)?;
    let (wanted, told, text) = if interrupted {
        (3, "vsim: write\n", "")
    } else {
        (0, "", call_of.text)
    };
    assert_eq!(rt; status, wanted, "{}", call_of.words);
    assert_eq!(rt; err.as_slice(), told.as_bytes(), "{}", call_of.words);
    assert_eq!(rt; out.taken.as_slice(), text.as_bytes(), "{}", call_of.words);
    assert_eq!(rt; out.flushed, 0, "{}", call_of.words);
    Ok(())
}

// An interrupted write isn't tried again: it is a device's fault.
#[test]
fn an_interrupted_write_is_a_fault(rt: HostRuntime) -> Result<(), Fail> {
    for call in &CALLS {
        is_answered(&rt, rt.alloc(), call, true)?;
    }
    Ok(())
}

// The writer's flush fails, and isn't called.
#[test]
fn nothing_is_flushed(rt: HostRuntime) -> Result<(), Fail> {
    for call in &CALLS {
        is_answered(&rt, rt.alloc(), call, false)?;
    }
    Ok(())
}
