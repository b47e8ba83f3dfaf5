//! Families of designs.

use vs_row_files::Text;

/// Puts words with a number between them.
fn put_with(before: &str, number: u64, after: &str, text: &mut Text) {
    text.put(before.as_bytes());
    text.put_shown(number);
    text.put(after.as_bytes());
}

/// Puts a chain of n registers on a clock that turns over every h ticks.
fn put_registers(n: u64, h: u64, text: &mut Text) {
    put_with(
        "module t; reg clk = 0; always #",
        h,
        " clk = ~clk; reg d = 0; ",
        text,
    );
    put_with("initial #", h.saturating_mul(2), " d = 1; ", text);
    for i in 1..=n {
        put_with("reg q", i, "; ", text);
        put_with("always @(posedge clk) q", i, " <= ", text);
        if i == 1 {
            text.put(b"d; ");
        } else {
            put_with("q", i.saturating_sub(1), "; ", text);
        }
    }
    text.put(b"endmodule");
}

/// Puts a chain of n combinational blocks, the last one first.
fn put_blocks(n: u64, text: &mut Text) {
    text.put(b"module t; reg y0; ");
    for turn in 0..n {
        let i = n - turn;
        put_with("reg y", i, "; ", text);
        put_with("always @* y", i, " = ~y", text);
        text.put_shown(i.saturating_sub(1));
        text.put(b"; ");
    }
    text.put(b"initial y0 <= 1; endmodule");
}

/// Puts an adder of n bits, whose first carry is driven last.
fn put_adder(n: u64, text: &mut Text) {
    put_with(
        "module t; reg [",
        n.saturating_sub(1),
        ":0] a, b; reg ci; ",
        text,
    );
    put_with("wire [", n, ":0] c; ", text);
    put_with("wire [", n.saturating_sub(1), ":0] s; genvar i; ", text);
    put_with(
        "generate for (i = 0; i < ",
        n,
        "; i = i + 1) begin : g ",
        text,
    );
    text.put(b"assign s[i] = a[i] ^ b[i] ^ c[i]; ");
    text.put(b"assign c[i+1] = a[i] & b[i] | c[i] & (a[i] ^ b[i]); end endgenerate ");
    text.put(b"assign c[0] = ci; initial begin a <= 1; b <= 1; ci <= 1; end endmodule");
}

/// Puts the design of a family, of a size, on a clock that turns over every h ticks, where it has one.
pub(crate) fn put_design(family: &str, n: u64, h: u64, text: &mut Text) {
    match family {
        "registers" => put_registers(n, h, text),
        "blocks" => put_blocks(n, text),
        _ => put_adder(n, text),
    }
}
