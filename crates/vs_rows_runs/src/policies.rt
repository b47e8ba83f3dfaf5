//! Rows of the policy `Listed`, which makes the choices that it is given.

use crate::headers::VARIABLES;
use crate::running::{is_text, run_whole};
use std::test::Fail;
use vs_program::Policy;

/// A source, the choices that are made, and the body of the dump.
struct ListedRow {
    choices: &'static [usize],
    source: &'static str,
    body: &'static str,
}

const LISTED: &[ListedRow] = &[
    // No choice is left: the first item.
    ListedRow {
        choices: &[],
        source: "module t; reg a, b; initial a = 1; initial b = a; endmodule",
        body: "#0\n$dumpvars\n1!\n1\"\n$end\n",
    },
    ListedRow {
        choices: &[1],
        source: "module t; reg a, b; initial a = 1; initial b = a; endmodule",
        body: "#0\n$dumpvars\n1!\nx\"\n$end\n",
    },
    // A number counts modulo how many items there are.
    ListedRow {
        choices: &[5],
        source: "module t; reg a, b; initial a = 1; initial b = a; endmodule",
        body: "#0\n$dumpvars\n1!\nx\"\n$end\n",
    },
    ListedRow {
        choices: &[4],
        source: "module t; reg a, b; initial a = 1; initial b = a; endmodule",
        body: "#0\n$dumpvars\n1!\n1\"\n$end\n",
    },
];

#[test]
fn listed_items(rt: HostRuntime) -> Result<(), Fail> {
    for row in LISTED {
        let policy = Policy::Listed(row.choices);
        let answer = run_whole(rt.alloc(), row.source, &policy, (0, 1000))?;
        assert!(rt;
            is_text(&answer.dump, &[VARIABLES, row.body]),
            "{:?}",
            row.choices
        );
    }
    Ok(())
}
