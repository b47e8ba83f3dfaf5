//! Event queues: a run over the wheel and one over the plain list give the same outcome, and write the same dump and the same lines.
ghost use Rattle.std.specs.Prelude.{◌≡◌, []};

use crate::running::{LimitedWriter, RunAnswer, design_of};
use std::alloc::Global;
use std::process::Abort;
use std::test::Fail;
use vs_design::Design;
use vs_kernel::{Fifo, Kernel, Lifo, Outcome, Pick};
use vs_run_regions::Due;
use vs_run_regions::vs_time_wheel::{EventQueue, ListQueue, Wheel};

/// A source, how its run to 3000 ends, what ends the dump, and the lines under `fifo` and under `lifo`.
struct Delayed {
    source: &'static str,
    outcome: Outcome,
    end: &'static str,
    fifo: &'static str,
    lifo: &'static str,
}

const DELAYED: &[Delayed] = &[
    // Three delays end at 300: they were met at 0, at 100 and at 299, and the processes enter the list in that order.
    Delayed {
        source: "module t; initial begin #299 ; #1 $display(\"c\"); end initial begin #100 ; #200 $display(\"b\"); end initial #300 $display(\"a\"); endmodule",
        outcome: Outcome::Quiet,
        end: "#3000\n",
        fifo: "a\nb\nc\n",
        lifo: "c\nb\na\n",
    },
    // Delays on both sides of a turn of the wheel, each met again when it ends.
    Delayed {
        source: "module t; reg a = 0, b = 0, c = 0; always #3 a = ~a; always #255 b = ~b; always #256 c = ~c; initial #3000 $display(\"e\"); endmodule",
        outcome: Outcome::Reached,
        end: "\n#3000\n0!\n",
        fifo: "e\n",
        lifo: "e\n",
    },
    // A delayed update is due between the ends of two delays. Under `lifo` the third process waits before the first one writes.
    Delayed {
        source: "module t; reg [7:0] n; initial n = 0; always #256 n <= #1 n + 1; always @(n) $strobe(\"%h\", n); initial #1000 $finish; endmodule",
        outcome: Outcome::Finished(1000),
        end: "\n#1000\n",
        fifo: "01\n02\n03\n",
        lifo: "00\n01\n02\n03\n",
    },
    // Updates that were made in three slots are due at once, when a delay ends too: they follow the process, in the order of their execution.
    Delayed {
        source: "module t; reg [7:0] n; initial begin n <= #300 1; #100 n <= #200 2; #100 n <= #100 3; #100 $display(\"%h\", n); #1 $display(\"%h\", n); end endmodule",
        outcome: Outcome::Quiet,
        end: "\n#3000\n",
        fifo: "xx\n03\n",
        lifo: "xx\n03\n",
    },
];

// A run to 3000 over a queue.
fn run_over<Q: EventQueue<Due> + Drop, P: Pick + Drop>(
    alloc: Global,
    design: &Design,
    queue: Q,
    policy: P,
) -> Result<RunAnswer, Fail>
    requires empty { Q.bag queue ≡ [] }
    requires at_zero { Q.clock queue ≡ 0 }
{
    let mut kernel = Kernel::new(alloc, design, queue, policy)?;
    let mut dump = LimitedWriter::for_all(alloc);
    let mut lines = LimitedWriter::for_all(alloc);
    let outcome = kernel
        .run(3000, 100_000, &mut dump, &mut lines)
        .ok()
        .ok_or("run")?;
    Ok(RunAnswer {
        outcome: Some(outcome),
        dump: dump.into_inner().taken,
        lines: lines.into_inner().taken,
    })
}

// Runs a design over either queue, and ends the test if the answers differ, or aren't those of the row.
fn compare<P: Pick + Copy + Drop>(
    rt: &impl Abort,
    alloc: Global,
    row: &Delayed,
    policy: P,
    lines: &str,
) -> Result<(), Fail> {
    let source = row.source;
    let design = design_of(alloc, source)?;
    let wheel = Wheel::<Due>::new(alloc).ok().ok_or("memory")?;
    let list = ListQueue::<Due>::new(alloc);
    let fast = run_over(alloc, &design, wheel, policy)?;
    let plain = run_over(alloc, &design, list, policy)?;
    assert_eq!(rt; fast.outcome, Some(row.outcome), "{source}");
    assert_eq!(rt; plain.outcome, Some(row.outcome), "{source}");
    assert_eq!(rt; fast.lines.as_slice(), lines.as_bytes(), "{source}");
    assert_eq!(rt; plain.lines.as_slice(), lines.as_bytes(), "{source}");
    assert!(rt; fast.dump.ends_with(row.end.as_bytes()), "{source}");
    assert_eq!(rt; plain.dump.as_slice(), fast.dump.as_slice(), "{source}");
    Ok(())
}

#[test]
fn queues(rt: HostRuntime) -> Result<(), Fail> {
    for row in DELAYED {
        compare(&rt, rt.alloc(), row, Fifo, row.fifo)?;
        compare(&rt, rt.alloc(), row, Lifo, row.lifo)?;
    }
    Ok(())
}
