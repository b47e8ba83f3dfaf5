//! A kernel whose sink fails, or that has run.

use crate::running::{LimitedWriter, design_of};
use std::alloc::Global;
use std::process::Abort;
use std::test::Fail;
use vs_design::Design;
use vs_kernel::vs_vcd_writing::Counted;
use vs_kernel::{Fifo, Kernel, Outcome, RunFault};
use vs_run_regions::Due;
use vs_run_regions::vs_time_wheel::Wheel;

// The dump of `reg a` that is 0 at 0 and 1 from 5, to 10: 128 bytes.
const DUMP: &[u8] =
    b"$timescale 1 ns $end\n$scope module t $end\n$var reg 1 ! a $end\n$upscope $end\n$enddefinitions $end\n#0\n$dumpvars\n0!\n$end\n#5\n1!\n#10\n";

// A run whose sink fails, or takes no byte any more, has failed for good, and the sink holds what it took; a run with an outcome is done.
fn is_failed(
    rt: &impl Abort,
    alloc: Global,
    design: &Design,
    left: usize,
    fails: bool,
) -> Result<(), Fail> {
    let queue = Wheel::<Due>::new(alloc).ok().ok_or("memory")?;
    let mut kernel = Kernel::new(alloc, design, queue, Fifo)?;
    let mut dump = Counted::new(LimitedWriter::new(alloc, left, fails));
    let mut lines = LimitedWriter::for_all(alloc);
    let first = kernel.run(10, 100, &mut dump, &mut lines);
    let second = kernel.run(10, 100, &mut dump, &mut lines);
    let wanted = if left < DUMP.len() {
        (Err(RunFault::Write), Err(RunFault::Failed))
    } else {
        (Ok(Outcome::Quiet), Err(RunFault::Done))
    };
    assert_eq!(rt; (first, second), wanted, "{left} bytes");
    assert_eq!(rt; Some(dump.into_inner().taken.as_slice()), DUMP.get(..left));
    Ok(())
}

#[test]
fn failures(rt: HostRuntime) -> Result<(), Fail> {
    let source = "module t; reg a; initial begin a = 0; #5 a = 1; end endmodule";
    let design = design_of(rt.alloc(), source)?;
    for left in 0..129 {
        is_failed(&rt, rt.alloc(), &design, left, true)?;
        is_failed(&rt, rt.alloc(), &design, left, false)?;
    }
    Ok(())
}

// The lines have 8 bytes, and the dump 118 when they are written. A run whose sink of lines fails has failed for good, and writes nothing more; that sink
// holds a beginning of the lines.
fn has_cut_lines(rt: &impl Abort, alloc: Global, design: &Design, left: usize) -> Result<(), Fail> {
    let queue = Wheel::<Due>::new(alloc).ok().ok_or("memory")?;
    let mut kernel = Kernel::new(alloc, design, queue, Fifo)?;
    let mut dump = LimitedWriter::for_all(alloc);
    let mut lines = Counted::new(LimitedWriter::new(alloc, left, true));
    let first = kernel.run(10, 100, &mut dump, &mut lines);
    let second = kernel.run(10, 100, &mut dump, &mut lines);
    let wanted = (Err(RunFault::Write), Err(RunFault::Failed));
    assert_eq!(rt; (first, second), wanted, "{left} bytes");
    let text: &[u8] = b"p 0\nq 0\n";
    assert_eq!(rt; Some(lines.into_inner().taken.as_slice()), text.get(..left));
    assert_eq!(rt; dump.into_inner().taken.len(), 118);
    Ok(())
}

#[test]
fn lines_fail(rt: HostRuntime) -> Result<(), Fail> {
    let source =
        "module t; reg a = 0; initial $strobe(\"p %b\", a); initial $strobe(\"q %0d\", a); endmodule";
    let design = design_of(rt.alloc(), source)?;
    for left in 0..8 {
        has_cut_lines(&rt, rt.alloc(), &design, left)?;
    }
    Ok(())
}
