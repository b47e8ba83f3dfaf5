//! Several events that are enabled at once: other permitted orders, which the policy `Listed` chooses. Every run is an execution that is permitted, whatever
//! the policy.

use crate::headers::{EIGHT, ONE_VARIABLE, SIX, VARIABLES};
use crate::running::{is_text, run_whole};
use std::test::Fail;
use vs_kernel::Outcome;
use vs_program::Policy;

/// A source, the choices of the policy, and the dump.
struct OrderRow {
    choices: &'static [usize],
    until: u32,
    source: &'static str,
    /// Pieces that follow one another.
    out: &'static [&'static str],
}

const ORDERS: &[OrderRow] = &[
    // At 3 the second process goes first, so the first one reads what it wrote.
    OrderRow {
        choices: &[0, 0, 0, 1, 0],
        until: 3,
        source: "module t; reg a; reg b; initial begin a = 0; #3 b = a; end initial #3 a = 1; endmodule",
        out: &[VARIABLES, "#0\n$dumpvars\n0!\nx\"\n$end\n#3\n1!\n1\"\n"],
    },
    // At 0 the second process goes to sleep first, so it wakes first.
    OrderRow {
        choices: &[1],
        until: 3,
        source: "module t; reg a; reg b; initial begin a = 0; #3 b = a; end initial #3 a = 1; endmodule",
        out: &[VARIABLES, "#0\n$dumpvars\n0!\nx\"\n$end\n#3\n1!\n1\"\n"],
    },
    // The second process is inactive first, so it is active first.
    OrderRow {
        choices: &[1],
        until: 0,
        source: "module t; reg a, b; initial begin a = 0; #0 b = a; end initial #0 a = 1; endmodule",
        out: &[VARIABLES, "#0\n$dumpvars\n1!\n1\"\n$end\n"],
    },
    // The second process makes the older update.
    OrderRow {
        choices: &[1],
        until: 0,
        source: "module t; reg a; initial a <= 0; initial a <= 1; endmodule",
        out: &[ONE_VARIABLE, "#0\n$dumpvars\n0!\n$end\n"],
    },
    // The newer update of `a` isn't offered beside the older one, so the second choice is that of `b`; those of `a` keep their order.
    OrderRow {
        choices: &[0, 0, 0, 1],
        until: 0,
        source: "module t; reg a, b; initial begin a <= 0; a <= 1; b <= 1; end endmodule",
        out: &[VARIABLES, "#0\n$dumpvars\n1!\n1\"\n$end\n"],
    },
    // The change of `a` lists the assigns of `x` and `z`, and then that of `b` lists the one of `y`; the last process, which waits at the front, reads
    // behind the first update, that of `x`.
    OrderRow {
        choices: &[0, 0, 0, 0, 0, 1, 1, 1, 1, 0, 0, 0],
        until: 0,
        source: "module t; reg a, b, c, d, e; wire x, y, z; assign x = b ^ a; assign y = b; assign z = ~a; initial a = 1; initial b = 0; initial begin c = x; d = y; e = z; end endmodule",
        out: &[
            EIGHT,
            "#0\n$dumpvars\n1!\n0\"\n1#\nx$\nx%\n1&\n0'\n0(\n$end\n",
        ],
    },
    // The same, and it reads behind the second update, that of `z`.
    OrderRow {
        choices: &[0, 0, 0, 0, 0, 1, 1, 1, 1, 1, 0, 0, 0],
        until: 0,
        source: "module t; reg a, b, c, d, e; wire x, y, z; assign x = b ^ a; assign y = b; assign z = ~a; initial a = 1; initial b = 0; initial begin c = x; d = y; e = z; end endmodule",
        out: &[
            EIGHT,
            "#0\n$dumpvars\n1!\n0\"\n1#\nx$\n0%\n1&\n0'\n0(\n$end\n",
        ],
    },
    // The second value of `x` waits at the place of the first, before the value of `y`.
    OrderRow {
        choices: &[0, 0, 0, 2, 0, 3, 0, 3, 1, 0, 0],
        until: 0,
        source: "module t; reg a, b, c, d; wire x, y; assign x = a; assign y = b; initial begin a = 1; b = 1; a = 0; end initial begin c = x; d = y; end endmodule",
        out: &[SIX, "#0\n$dumpvars\n0!\n1\"\n0#\nx$\n0%\n1&\n$end\n"],
    },
    // At 1 one edge wakes both processes: the second one goes first, so both variables are then 0.
    OrderRow {
        choices: &[0, 0, 0, 0, 0, 0, 0, 0, 1, 0],
        until: 1,
        source: "module t; reg c, a, b; initial begin a = 0; b = 1; #1 c = 1; end always @(posedge c) a = b; always @(posedge c) b = a; endmodule",
        out: &[
            "$timescale 1 ns $end\n$scope module t $end\n$var reg 1 ! c $end\n$var reg 1 \" a $end\n$var reg 1 # b $end\n$upscope $end\n$enddefinitions $end\n",
            "#0\n$dumpvars\nx!\n0\"\n1#\n$end\n#1\n1!\n0#\n",
        ],
    },
    // The block that `a = 1` wakes goes first, and runs to its control before `a = 0`.
    OrderRow {
        choices: &[0, 0, 0, 0, 1, 0, 0],
        until: 1,
        source: "module t; reg a, t, y; always @* begin t = a; y = t ^ a; end initial begin #1 a = 1; a = 0; end endmodule",
        out: &[
            "$timescale 1 ns $end\n$scope module t $end\n$var reg 1 ! a $end\n$var reg 1 \" t $end\n$var reg 1 # y $end\n$upscope $end\n$enddefinitions $end\n",
            "#0\n$dumpvars\nx!\nx\"\nx#\n$end\n#1\n0!\n0\"\n0#\n",
        ],
    },
];

#[test]
fn orders(rt: HostRuntime) -> Result<(), Fail> {
    for order in ORDERS {
        let OrderRow {
            choices,
            until,
            source,
            out,
        } = *order;
        let policy = Policy::Listed(choices);
        let answer = run_whole(rt.alloc(), source, &policy, (until, 100))?;
        assert_eq!(rt;
            answer.outcome,
            Some(Outcome::Quiet),
            "{choices:?}: {source}"
        );
        assert!(rt; is_text(&answer.dump, out), "{choices:?}: {source}");
    }
    Ok(())
}
