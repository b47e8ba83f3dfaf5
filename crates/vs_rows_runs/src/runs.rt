//! Runs of `simulate`: what it answers, and what it writes to both sinks.

use crate::running::run_whole;
use std::alloc::Global;
use std::process::Abort;
use std::test::Fail;
use vs_kernel::Outcome;
use vs_program::Policy;

/// The line before the body of a dump.
const DECLARED: &[u8] = b"$enddefinitions $end\n";

/// A run of the module `t`, and what it answers and writes.
pub struct Run {
    policy: Policy<'static>,
    /// The moment, in ticks.
    until: u32,
    steps: u32,
    source: &'static str,
    outcome: Outcome,
    /// The dump behind what it declares.
    body: &'static str,
    lines: &'static str,
}

/// Runs of a source with `$finish`.
const FINISHES: &[Run] = &[
    // The process that calls `$finish` goes on, and the run ends with the slot.
    Run {
        policy: Policy::Fifo,
        until: 10,
        steps: 1000,
        source: "module t; reg a; initial begin a = 0; #3 $finish; a = 1; end endmodule",
        outcome: Outcome::Finished(3),
        body: "#0\n$dumpvars\n0!\n$end\n#3\n1!\n",
        lines: "",
    },
    // So do inactive processes and updates of that slot, and no others.
    Run {
        policy: Policy::Fifo,
        until: 10,
        steps: 1000,
        source: "module t; reg a; initial begin a <= 1; $finish; end endmodule",
        outcome: Outcome::Finished(0),
        body: "#0\n$dumpvars\n1!\n$end\n",
        lines: "",
    },
    Run {
        policy: Policy::Fifo,
        until: 10,
        steps: 1000,
        source: "module t; reg a; initial begin $finish; #0 a = 1; end endmodule",
        outcome: Outcome::Finished(0),
        body: "#0\n$dumpvars\n1!\n$end\n",
        lines: "",
    },
    Run {
        policy: Policy::Fifo,
        until: 10,
        steps: 1000,
        source: "module t; reg a; initial begin a <= #3 1; #2 $finish; #0 ; #1 a = 0; end endmodule",
        outcome: Outcome::Finished(2),
        body: "#0\n$dumpvars\nx!\n$end\n#2\n",
        lines: "",
    },
    // A `$finish` behind the moment, and one at it.
    Run {
        policy: Policy::Fifo,
        until: 10,
        steps: 1000,
        source: "module t; reg a; initial #20 $finish; endmodule",
        outcome: Outcome::Reached,
        body: "#0\n$dumpvars\nx!\n$end\n#10\n",
        lines: "",
    },
    Run {
        policy: Policy::Fifo,
        until: 20,
        steps: 1000,
        source: "module t; reg a; initial #20 $finish; endmodule",
        outcome: Outcome::Finished(20),
        body: "#0\n$dumpvars\nx!\n$end\n#20\n",
        lines: "",
    },
];

/// Updates that are due later.
const UPDATES: &[Run] = &[
    // An update that is due later: the moment before it, behind it, and at it.
    Run {
        policy: Policy::Fifo,
        until: 5,
        steps: 1000,
        source: "module t; reg q; initial q <= #7 1; endmodule",
        outcome: Outcome::Reached,
        body: "#0\n$dumpvars\nx!\n$end\n#5\n",
        lines: "",
    },
    Run {
        policy: Policy::Fifo,
        until: 10,
        steps: 1000,
        source: "module t; reg q; initial q <= #7 1; endmodule",
        outcome: Outcome::Quiet,
        body: "#0\n$dumpvars\nx!\n$end\n#7\n1!\n#10\n",
        lines: "",
    },
    Run {
        policy: Policy::Fifo,
        until: 256,
        steps: 1000,
        source: "module t; reg q; initial q <= #256 1; endmodule",
        outcome: Outcome::Quiet,
        body: "#0\n$dumpvars\nx!\n$end\n#256\n1!\n",
        lines: "",
    },
    Run {
        policy: Policy::Fifo,
        until: 255,
        steps: 1000,
        source: "module t; reg q; initial q <= #256 1; endmodule",
        outcome: Outcome::Reached,
        body: "#0\n$dumpvars\nx!\n$end\n#255\n",
        lines: "",
    },
    // Updates of one signal at one time are made in the order in which they were executed, whenever that was.
    Run {
        policy: Policy::Fifo,
        until: 9,
        steps: 1000,
        source: "module t; reg q; initial begin q <= #3 0; #1 q <= #2 1; end endmodule",
        outcome: Outcome::Quiet,
        body: "#0\n$dumpvars\nx!\n$end\n#3\n1!\n#9\n",
        lines: "",
    },
    Run {
        policy: Policy::Lifo,
        until: 9,
        steps: 1000,
        source: "module t; reg q; initial begin q <= #3 0; #1 q <= #2 1; end endmodule",
        outcome: Outcome::Quiet,
        body: "#0\n$dumpvars\nx!\n$end\n#3\n1!\n#9\n",
        lines: "",
    },
    Run {
        policy: Policy::Fifo,
        until: 9,
        steps: 1000,
        source: "module t; reg q; initial begin q <= #3 1; q <= #2 0; end endmodule",
        outcome: Outcome::Quiet,
        body: "#0\n$dumpvars\nx!\n$end\n#2\n0!\n#3\n1!\n#9\n",
        lines: "",
    },
    // Value and target are those at the execution, and `#0` is no delay.
    Run {
        policy: Policy::Fifo,
        until: 9,
        steps: 1000,
        source: "module t; reg [3:0] q; reg [1:0] i; reg v; initial begin q = 0; i = 2; v = 1; q[i] <= #3 v; i = 0; v = 0; end endmodule",
        outcome: Outcome::Quiet,
        body: "#0\n$dumpvars\nb0 !\nb0 \"\n0#\n$end\n#3\nb100 !\n#9\n",
        lines: "",
    },
    Run {
        policy: Policy::Fifo,
        until: 9,
        steps: 1000,
        source: "module t; reg q; initial begin q = 0; q <= #0 1; $display(\"%b\", q); #0 $display(\"%b\", q); end endmodule",
        outcome: Outcome::Quiet,
        body: "#0\n$dumpvars\n1!\n$end\n#9\n",
        lines: "0\n0\n",
    },
    // A delay is a constant expression, in units.
    Run {
        policy: Policy::Fifo,
        until: 90,
        steps: 1000,
        source: "`timescale 10ns/1ns\nmodule t; parameter D = 2; reg q; initial begin q <= #D 0; q <= #(2 * D) 1; end endmodule",
        outcome: Outcome::Quiet,
        body: "#0\n$dumpvars\nx!\n$end\n#20\n0!\n#40\n1!\n#90\n",
        lines: "",
    },
];

/// Several enabled events.
const CHOICES: &[Run] = &[
    // Two processes are due at one time; the one that went to sleep first enters the list first, whichever wheel's turn it was.
    Run {
        policy: Policy::Fifo,
        until: 300,
        steps: 1000,
        source: "module t; reg a; initial #300 a = 0; initial #100 begin #200 a = 1; end endmodule",
        outcome: Outcome::Quiet,
        body: "#0\n$dumpvars\nx!\n$end\n#300\n1!\n",
        lines: "",
    },
    Run {
        policy: Policy::Lifo,
        until: 300,
        steps: 1000,
        source: "module t; reg a; initial #300 a = 0; initial #100 begin #200 a = 1; end endmodule",
        outcome: Outcome::Quiet,
        body: "#0\n$dumpvars\nx!\n$end\n#300\n0!\n",
        lines: "",
    },
    // Choices among the processes of a slot.
    Run {
        policy: Policy::Listed(&[0, 1]),
        until: 0,
        steps: 1000,
        source: "module t; reg a = 0; initial $strobe(\"p %b\", a); initial $strobe(\"q %0d\", a); endmodule",
        outcome: Outcome::Quiet,
        body: "#0\n$dumpvars\n0!\n$end\n",
        lines: "q 0\np 0\n",
    },
    Run {
        policy: Policy::Listed(&[3]),
        until: 0,
        steps: 1000,
        source: "module t; reg a = 0; initial $strobe(\"p %b\", a); initial $strobe(\"q %0d\", a); endmodule",
        outcome: Outcome::Quiet,
        body: "#0\n$dumpvars\n0!\n$end\n",
        lines: "p 0\nq 0\n",
    },
    // The first update names the whole of `a`, though it writes no bit: the second one waits for it. So the eighth choice is one of two.
    Run {
        policy: Policy::Listed(&[0, 0, 0, 0, 0, 0, 0, 2]),
        until: 0,
        steps: 1000,
        source: "module t; reg [1:0] a; reg b; initial begin a[5] <= 1; a <= 1; b <= 1; end always @(a) $display(\"a\"); always @(b) $display(\"b\"); endmodule",
        outcome: Outcome::Quiet,
        body: "#0\n$dumpvars\nb1 !\n1\"\n$end\n",
        lines: "a\nb\n",
    },
    // Two registers that exchange their values at each edge of a clock that never stops.
    Run {
        policy: Policy::Fifo,
        until: 20,
        steps: 1000,
        source: "module t; reg clk = 0; reg a = 0, b = 1; always #5 clk = ~clk; always @(posedge clk) a <= b; always @(posedge clk) b <= a; endmodule",
        outcome: Outcome::Reached,
        body: "#0\n$dumpvars\n0!\n0\"\n1#\n$end\n#5\n1!\n1\"\n0#\n#10\n0!\n#15\n1!\n0\"\n1#\n#20\n0!\n",
        lines: "",
    },
    // A nonblocking assignment with a delay is no timing control: behind the fifth choice the block runs to its control, and `a = 0` waits. The fourth choice
    // is one of one.
    Run {
        policy: Policy::Listed(&[0, 0, 0, 0, 1, 0]),
        until: 5,
        steps: 1000,
        source: "module t; reg a, y; always @* begin y <= #1 a; $display(\"%b\", a); end initial begin #1 a = 1; a = 0; end endmodule",
        outcome: Outcome::Quiet,
        body: "#0\n$dumpvars\nx!\nx\"\n$end\n#1\n0!\n#2\n0\"\n#5\n",
        lines: "1\n0\n",
    },
];

/// Runs that are cut off by the step limit, or nearly.
const LIMITS: &[Run] = &[
    // A loop of assignments that never settles.
    Run {
        policy: Policy::Fifo,
        until: 5,
        steps: 500,
        source: "module t; reg e; wire a; assign a = e ? ~a : 0; initial begin e = 0; #1 e = 1; end endmodule",
        outcome: Outcome::StepLimit(1),
        body: "#0\n$dumpvars\n0!\n0\"\n$end\n",
        lines: "",
    },
    // A process that never waits, under each policy.
    Run {
        policy: Policy::Fifo,
        until: 10,
        steps: 1000,
        source: "module t; reg a; always a = ~a; endmodule",
        outcome: Outcome::StepLimit(0),
        body: "",
        lines: "",
    },
    Run {
        policy: Policy::Lifo,
        until: 10,
        steps: 1000,
        source: "module t; reg a; always a = ~a; endmodule",
        outcome: Outcome::StepLimit(0),
        body: "",
        lines: "",
    },
    Run {
        policy: Policy::Listed(&[1, 2, 3, 4, 5]),
        until: 10,
        steps: 1000,
        source: "module t; reg a; always a = ~a; endmodule",
        outcome: Outcome::StepLimit(0),
        body: "",
        lines: "",
    },
    // No step at all.
    Run {
        policy: Policy::Fifo,
        until: 10,
        steps: 0,
        source: "module t; reg a = 1; initial $display(\"a\"); endmodule",
        outcome: Outcome::StepLimit(0),
        body: "",
        lines: "",
    },
    // A call is one step, and so is `$finish`; the slot's end is the last one. At the step limit the lines are those that the steps made.
    Run {
        policy: Policy::Fifo,
        until: 10,
        steps: 4,
        source: "module t; initial begin $display(\"a\"); $strobe(\"b\"); $finish; end endmodule",
        outcome: Outcome::Finished(0),
        body: "#0\n$dumpvars\n$end\n",
        lines: "a\nb\n",
    },
    Run {
        policy: Policy::Fifo,
        until: 10,
        steps: 3,
        source: "module t; initial begin $display(\"a\"); $strobe(\"b\"); $finish; end endmodule",
        outcome: Outcome::StepLimit(0),
        body: "",
        lines: "a\n",
    },
    Run {
        policy: Policy::Fifo,
        until: 10,
        steps: 50,
        source: "module t; initial begin $display(\"a\"); $strobe(\"b\"); $dumpvars; #1 $display(\"c\"); $strobe(\"d\"); forever ; end endmodule",
        outcome: Outcome::StepLimit(1),
        body: "#0\n$dumpvars\n$end\n",
        lines: "a\nb\nc\n",
    },
];

// Ends the test if a run answers or writes something else.
fn compare(rt: &impl Abort, alloc: Global, run: &Run) -> Result<(), Fail> {
    let Run {
        source,
        body,
        lines,
        ..
    } = run;
    let answer = run_whole(alloc, source, &run.policy, (run.until, run.steps))?;
    assert_eq!(rt; answer.outcome, Some(run.outcome), "{source}");
    assert!(rt; answer.lines.as_slice() == lines.as_bytes(), "{source}");
    let declared = answer.dump.strip_suffix(body.as_bytes());
    let declared = declared.ok_or("another dump")?;
    assert!(rt; declared.ends_with(DECLARED), "{source}");
    Ok(())
}

// Compares each run of a table.
fn compare_all(rt: &impl Abort, alloc: Global, runs: &[Run]) -> Result<(), Fail> {
    for run in runs {
        compare(rt, alloc, run)?;
    }
    Ok(())
}

#[test]
fn runs(rt: HostRuntime) -> Result<(), Fail> {
    compare_all(&rt, rt.alloc(), FINISHES)?;
    compare_all(&rt, rt.alloc(), UPDATES)?;
    compare_all(&rt, rt.alloc(), CHOICES)?;
    compare_all(&rt, rt.alloc(), LIMITS)
}
