//! Sinks of lines that fail.

use crate::running::{LimitedWriter, RunAnswer, run};
use std::alloc::Global;
use std::process::Abort;
use std::test::Fail;
use vs_kernel::Outcome;
use vs_program::Policy;

// A run to 10 whose sink of lines takes so many bytes.
fn cut_run(alloc: Global, source: &str, left: usize, fails: bool) -> Result<RunAnswer, Fail> {
    run(
        alloc,
        source,
        &Policy::Fifo,
        (10, 100),
        LimitedWriter::new(alloc, left, fails),
    )
}

/// The dump of `reg a` that is 0 from the start on, behind its first slot.
const FIRST: &[u8] =
    b"$timescale 1 ns $end\n$scope module t $end\n$var reg 1 ! a $end\n$upscope $end\n$enddefinitions $end\n#0\n$dumpvars\n0!\n$end\n";

/// The same, to 10.
const DUMP: &[u8] =
    b"$timescale 1 ns $end\n$scope module t $end\n$var reg 1 ! a $end\n$upscope $end\n$enddefinitions $end\n#0\n$dumpvars\n0!\n$end\n#10\n";

// The slot at 5, in which the sink fails, isn't in the dump.
#[test]
fn a_display_fails(rt: HostRuntime) -> Result<(), Fail> {
    let source = "module t; reg a = 0; initial #5 $display; endmodule";
    for fails in [false, true] {
        let answer = cut_run(rt.alloc(), source, 0, fails)?;
        assert_eq!(rt; answer.outcome, None);
        assert_eq!(rt; answer.lines.len(), 0);
        assert_eq!(rt; answer.dump.as_slice(), FIRST);
    }
    Ok(())
}

/// What the calls of `STROBES` print.
const LINES: &[u8] = b"p 0\nq 0\n";

const STROBES: &str =
    "module t; reg a = 0; initial $strobe(\"p %b\", a); initial $strobe(\"q %0d\", a); endmodule";

// Each sink holds a beginning of its text.
fn is_cut(rt: &impl Abort, alloc: Global, bytes: usize, fails: bool) -> Result<(), Fail> {
    let answer = cut_run(alloc, STROBES, bytes, fails)?;
    let wanted = if bytes < LINES.len() {
        None
    } else {
        Some(Outcome::Quiet)
    };
    assert_eq!(rt; answer.outcome, wanted, "{bytes} bytes");
    assert_eq!(rt; answer.lines.len(), bytes);
    assert!(rt; LINES.starts_with(&answer.lines), "{bytes} bytes");
    assert!(rt; DUMP.starts_with(&answer.dump), "{bytes} bytes");
    Ok(())
}

#[test]
fn strobes_fail(rt: HostRuntime) -> Result<(), Fail> {
    for bytes in 0..9 {
        for fails in [false, true] {
            is_cut(&rt, rt.alloc(), bytes, fails)?;
        }
    }
    Ok(())
}
