//! Words of SystemVerilog, IEEE 1800, that are no words of Verilog.

use crate::tables::said_in;

/// What is said of a name that is a word of SystemVerilog, after that it is one; nothing of any other name.
pub(crate) fn said_of_later(word: &[u8]) -> &'static str {
    let said = said_of_type(word);
    if !said.is_empty() {
        return said;
    }
    let said = said_of_process(word);
    if !said.is_empty() {
        return said;
    }
    said_of_item(word)
}

static TYPES: [(&str, &str); 15] = [
    (
        "logic var",
        "write `reg` for what a process assigns to, and `wire` for what an `assign` or an output drives.",
    ),
    ("bit", "write `reg`, whose first value is x in place of 0."),
    ("byte", "write `reg signed [7:0]`."),
    ("shortint", "write `reg signed [15:0]`."),
    ("int", "write `integer`."),
    ("longint", "write `reg signed [63:0]`."),
    (
        "shortreal",
        "real numbers aren't read. Use an `integer` of the smallest unit.",
    ),
    (
        "string",
        "a string is read as the first argument of `$display` and `$strobe` alone.",
    ),
    (
        "void",
        "functions aren't read. Write the statements where they are called.",
    ),
    (
        "typedef",
        "declare each signal with its own range, as `reg [1:0] state;`.",
    ),
    (
        "enum",
        "number the values by `localparam`, as `localparam IDLE = 0, RUN = 1;`.",
    ),
    (
        "struct union packed",
        "declare a signal for each member, or take parts of one `reg`.",
    ),
    ("const", "write `localparam`."),
    (
        "static",
        "leave it out: each variable of this subset is static.",
    ),
    (
        "chandle ref type",
        "this subset of Verilog has nothing like it.",
    ),
];

/// The same of types.
fn said_of_type(word: &[u8]) -> &'static str {
    said_in(&TYPES, word)
}

static PROCESSS: [(&str, &str); 13] = [
    ("always_ff", "write `always`."),
    ("always_comb always_latch", "write `always @*`."),
    ("final", "print the last lines before the `$finish`."),
    ("unique unique0 priority", "leave it out."),
    ("do", "write the statement once before a `while`."),
    (
        "break continue return",
        "use a condition of the loop, or an `if`.",
    ),
    ("foreach", "write a `for`."),
    ("inside", "compare by `==` and `||`."),
    ("iff", "test the condition after the `@`, by an `if`."),
    (
        "assert assume cover expect restrict",
        "write `if (!c) $display(\"..\");` in a process.",
    ),
    (
        "property sequence endproperty endsequence",
        "write a process that tests the signals at each edge of the clock.",
    ),
    (
        "join_any join_none wait_order",
        "write an `initial` or an `always` for each of the statements.",
    ),
    ("new this super null", "classes aren't read."),
];

/// The same of what stands in processes.
fn said_of_process(word: &[u8]) -> &'static str {
    said_in(&PROCESSS, word)
}

static ITEMS: [(&str, &str); 10] = [
    (
        "interface endinterface modport clocking endclocking",
        "give the module a port for each signal.",
    ),
    (
        "package endpackage import export",
        "write the constants as `localparam` in each module that uses them.",
    ),
    (
        "class endclass extends virtual extern pure local protected rand randc constraint implements",
        "classes aren't read. Write modules and processes.",
    ),
    ("program endprogram", "write `module` and `endmodule`."),
    (
        "covergroup endgroup coverpoint cross bins",
        "count in an `integer` what is to be covered.",
    ),
    (
        "timeunit timeprecision",
        "write `` `timescale 1ns/1ps`` before the modules.",
    ),
    ("bind", "make the instance in the module itself."),
    ("alias", "join the nets by `assign`."),
    ("let", "write the expression where it is used."),
    (
        "checker endchecker nettype interconnect global",
        "this subset of Verilog has nothing like it.",
    ),
];

/// The same of what stands among the items of a module, or outside of modules.
fn said_of_item(word: &[u8]) -> &'static str {
    said_in(&ITEMS, word)
}
