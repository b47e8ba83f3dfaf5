//! Rows of expressions and assignments: the digits of their values, and what directives show of them, which were worked out by another simulator, or by
//! hand from the standard.

use crate::program::signals::SIGNALS;
use vs_program::program;
use vs_row_files::Text;

/// Puts a module with items and a net of an expression, which is in braces and so has its own size (IEEE 1364-2005, clause 5.4.1): it prints
/// the expression's digits, and then those of the net.
fn put_items<'t>(items: &'t str, before: &'t str, expression: &'t str, source: &mut Text) {
    source.put_all(&[
        "module t;",
        items,
        before,
        "\nwire [63:0] r = {",
        expression,
        "};\ninitial #1 begin $display(\"%b\", {",
        expression,
        "}); $display(\"%b\", r); end endmodule\n",
    ]);
}

/// Puts the same of an assignment in place of the net, behind statements.
fn put_statements<'t>(before: &'t str, expression: &'t str, source: &mut Text) {
    source.put_all(&[
        "module t;",
        SIGNALS,
        "reg [63:0] r;\ninitial #0 begin ",
        before,
        " r = {",
        expression,
        "}; $display(\"%b\", {",
        expression,
        "}); $display(\"%b\", r); end endmodule\n",
    ]);
}

/// Puts a module that prints what directives show, each of the same expression.
fn put_line(directives: &str, expression: &str, source: &mut Text) {
    source.put_all(&["module t;\ninitial $display(\"", directives, "\""]);
    for byte in directives.bytes() {
        if byte == b'%' {
            source.put_all(&[", ", expression]);
        }
    }
    source.put(b");\nendmodule\n");
}

/// Whether 64 digits are some digits behind zeros.
fn is_extended(all: &[u8], digits: &[u8]) -> bool {
    match all.strip_suffix(digits) {
        Some(zeros) => all.len() == 64 && zeros.iter().all(|digit| *digit == b'0'),
        None => false,
    }
}

/// One line that is printed; of two the digits of the first, where the second has them behind zeros; else both lines.
fn line_of(printed: &[u8]) -> &[u8] {
    let Some(end) = printed.iter().position(|byte| *byte == b'\n') else {
        return printed;
    };
    let (first, second) = (&printed[..end], &printed[end + 1..]);
    if second.is_empty() {
        return first;
    }
    match second.strip_suffix(b"\n") {
        Some(all) if is_extended(all, first) => first,
        _ => printed,
    }
}

/// Puts what a source prints, or the text of its refusal.
fn print(source: &[u8], text: &mut Text) {
    let alloc = text.alloc();
    let words = ["vsim", "run", "--top", "t", "--until", "1"];
    let mut out = Vec::new(alloc);
    let mut err = Vec::new(alloc);
    let (status, _) = program(alloc, &words, source, &mut out, &mut err);
    text.put(line_of(if status == 0 { &out } else { &err }));
}

/// Puts the answer of a row of expressions, assignments or directives.
pub fn answer(words: &str, question: &str, text: &mut Text) {
    let (before, expression) = question.rsplit_once(" => ").unwrap_or(("", question));
    let mut source = Text::new(text.alloc());
    match (words, words.strip_prefix("shown by ")) {
        ("expression", _) => put_items("\n", before, expression, &mut source),
        ("items", _) => put_items(SIGNALS, before, expression, &mut source),
        (_, Some(directives)) => put_line(directives, expression, &mut source),
        _ => put_statements(before, expression, &mut source),
    }
    match source.whole() {
        Ok(bytes) => print(bytes, text),
        Err(_) => text.leave_out(),
    }
    text.put(b"\n");
}
