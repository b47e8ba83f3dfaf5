//! The feature of Verilog or SystemVerilog that begins where the grammar refuses a token.

use crate::later::said_of_later;
use crate::refused::Refused;
use crate::strings::put_string;
use std::alloc::{AllocError, Global};
use vs_explain_outline::Page;
use vs_syntax::vs_lexer::{Kind, Mark, Word};

/// A feature that isn't read.
#[derive(Clone, Copy)]
struct Feature<'s> {
    /// What is named first, where something is.
    name: &'s [u8],
    /// Whether that is SystemVerilog.
    is_later: bool,
    /// What is said of it, and what to write in its place.
    said: &'static str,
}

/// A feature that has a name in the source.
fn named<'s>(name: &'s [u8], said: &'static str) -> Option<Feature<'s>> {
    Some(Feature {
        name,
        is_later: false,
        said,
    })
}

/// A feature of SystemVerilog.
fn later<'s>(name: &'s [u8], said: &'static str) -> Option<Feature<'s>> {
    Some(Feature {
        name,
        is_later: true,
        said,
    })
}

/// A feature that has no name.
fn unnamed<'s>(said: &'static str) -> Option<Feature<'s>> {
    named(&[], said)
}

/// Puts the feature that isn't read where a token is refused. Whether there is one.
pub(crate) fn put_feature(page: &mut Page, refused: &Refused) -> Result<bool, AllocError> {
    if put_string(page, refused) {
        return Ok(true);
    }
    let Some(feature) = feature_at(page.alloc(), refused)? else {
        return Ok(false);
    };
    if !feature.name.is_empty() {
        page.put_name(feature.name);
    }
    if feature.is_later {
        page.put(" is SystemVerilog: ");
    }
    page.put(feature.said);
    page.put("\n");
    Ok(true)
}

/// The feature that begins at a refused token, or to which it belongs.
fn feature_at<'s>(
    alloc: Global,
    refused: &Refused<'_, 's>,
) -> Result<Option<Feature<'s>>, AllocError> {
    let word = later_word(refused);
    if word.is_some() {
        return Ok(word);
    }
    let joined = joined_marks(refused);
    if joined.is_some() {
        return Ok(joined);
    }
    let wrong = bad_digit(refused);
    if wrong.is_some() {
        return Ok(wrong);
    }
    match refused.kind(refused.at) {
        Some(Kind::Mark(mark)) => at_mark(alloc, refused, mark),
        Some(Kind::Word(word)) => at_word(alloc, refused, word),
        Some(Kind::System) => at_system(alloc, refused),
        Some(Kind::Directive(_)) => Ok(unnamed(
            "Directives stand between modules alone: move it before the `module`.",
        )),
        _ => Ok(at_operand(refused)),
    }
}

/// The word of SystemVerilog at the beginning of the item, before the refused token, or at it.
fn later_word<'s>(refused: &Refused<'_, 's>) -> Option<Feature<'s>> {
    for index in [refused.first, refused.before(1), refused.at].iter() {
        if refused.is_name(*index) && !refused.is_declared(*index) {
            let name = refused.bytes(*index);
            let said = said_of_later(name);
            if !said.is_empty() {
                return later(name, said);
            }
        }
    }
    None
}

/// Whether an operator and a `=` after it are an assignment of SystemVerilog.
fn is_operator(mark: Mark) -> bool {
    matches!(
        mark,
        Mark::Plus
            | Mark::Minus
            | Mark::Star
            | Mark::Slash
            | Mark::Percent
            | Mark::And
            | Mark::Or
            | Mark::Xor
            | Mark::ShiftLeft
            | Mark::ShiftRight
            | Mark::ArithmeticShiftLeft
            | Mark::ArithmeticShiftRight
    )
}

/// An operator of SystemVerilog that is two marks of Verilog: at a token, and the next one.
fn joined_at<'s>(refused: &Refused<'_, 's>, index: usize) -> Option<Feature<'s>> {
    if !refused.touches(index) {
        return None;
    }
    let Some(Kind::Mark(mark)) = refused.kind(index) else {
        return None;
    };
    let Some(Kind::Mark(next)) = refused.kind(index.saturating_add(1)) else {
        return None;
    };
    let said = match (mark, next) {
        (Mark::Plus, Mark::Plus) => "write `i = i + 1`.",
        (Mark::Minus, Mark::Minus) => "write `i = i - 1`.",
        (mark, Mark::Assign) if is_operator(mark) =>
            "write the variable on both sides, as `a = a + 1`.",
        (Mark::Colon, Mark::Colon) =>
            "packages and classes aren't read. Write the constant as a `localparam` of the module.",
        (Mark::Equal, Mark::Question) | (Mark::NotEqual, Mark::Question) =>
            "compare the bits that count, or write a `casez`.",
        (Mark::Dot, Mark::Star) => "connect each port by its name, as `.clk(clk)`.",
        _ => return None,
    };
    later(refused.span(index, index.saturating_add(1)), said)
}

/// An operator of SystemVerilog whose second mark, or a token around it, is refused.
fn joined_marks<'s>(refused: &Refused<'_, 's>) -> Option<Feature<'s>> {
    let here = joined_at(refused, refused.at);
    if here.is_some() {
        return here;
    }
    let before = joined_at(refused, refused.before(1));
    if before.is_some() {
        return before;
    }
    joined_at(refused, refused.before(2))
}

/// A digit or a letter directly after a number.
fn bad_digit<'s>(refused: &Refused<'_, 's>) -> Option<Feature<'s>> {
    let before = refused.before(1);
    let is_number = matches!(refused.kind(before), Some(Kind::Number(_)));
    let is_digit = matches!(
        refused.kind(refused.at),
        Some(Kind::Number(_)) | Some(Kind::Name)
    );
    if is_number && is_digit && refused.touches(before) {
        return named(
            refused.bytes(refused.at),
            " is no digit of the base of the number before it.",
        );
    }
    None
}

/// The feature that begins with a mark.
fn at_mark<'s>(
    alloc: Global,
    refused: &Refused<'_, 's>,
    mark: Mark,
) -> Result<Option<Feature<'s>>, AllocError> {
    match mark {
        Mark::Dot => Ok(at_dot(refused)),
        Mark::Open => at_parenthesis(alloc, refused),
        Mark::OpenBracket => Ok(at_bracket(refused)),
        Mark::CloseBracket => Ok(at_one_bound(refused)),
        Mark::Assign | Mark::LessEqual => at_assignment(alloc, refused),
        Mark::Hash => at_delay(alloc, refused),
        Mark::At => at_event(alloc, refused),
        Mark::Colon => Ok(at_colon(refused)),
        Mark::Semicolon => at_semicolon(alloc, refused),
        Mark::Comma | Mark::Close => at_end_of_part(alloc, refused),
        Mark::OpenBrace if refused.at == 0 => Ok(unnamed(
            "The source begins with a certificate: give `vsim run` the option `--cert`, or leave the certificate out.",
        )),
        _ => Ok(None),
    }
}

/// A hierarchical name, or the port of a header with another name than its signal.
fn at_dot<'s>(refused: &Refused<'_, 's>) -> Option<Feature<'s>> {
    let before = refused.before(1);
    if refused.system_task().starts_with(b"$dump") {
        return unnamed(
            "Hierarchical names aren't read. Leave it out: `$dumpvars` does nothing, and `--out vcd` dumps each signal that is no array.",
        );
    }
    if refused.touches(before) && refused.is_name(before) {
        return named(
            refused.span(before, refused.at.saturating_add(1)),
            " is a hierarchical name, or a member of a `struct`, and these aren't read: bring the signal out by a port.",
        );
    }
    if refused.touches(before) && refused.is_mark(before, Mark::CloseBracket) {
        return unnamed(
            "This is a hierarchical name, or a member of a `struct`, and these aren't read: bring the signal out by a port.",
        );
    }
    if refused.in_header() && refused.is_name(refused.at.saturating_add(1)) {
        return unnamed("A port has the name of its signal here: name it alone, as `module m(a);`.");
    }
    None
}

/// A call, an instance without a name, or a strength.
fn at_parenthesis<'s>(
    alloc: Global,
    refused: &Refused<'_, 's>,
) -> Result<Option<Feature<'s>>, AllocError> {
    let before = refused.before(1);
    if refused.is_word(before, Word::Wire) || refused.is_word(before, Word::Assign) {
        return Ok(unnamed("Strengths aren't read: leave them out."));
    }
    if !refused.is_name(before) || refused.in_header() {
        return Ok(None);
    }
    let name = refused.bytes(before);
    if refused.is_item(alloc, before)? {
        return Ok(named(
            name,
            " is the name of a module here, and the instance has none: write `m u1(..);`.",
        ));
    }
    if refused.is_statement(alloc, before)? {
        return Ok(named(
            name,
            " is called as a task, and tasks aren't read: write its statements where they are called.",
        ));
    }
    if refused.may_replace(alloc, refused.at, b"?")? {
        return Ok(named(
            name,
            " is called as a function, and functions aren't read: write its expression where it is called, or make a module of it.",
        ));
    }
    Ok(None)
}

/// Whether a word begins a declaration of what has a range.
fn has_range(word: Word) -> bool {
    matches!(
        word,
        Word::Wire
            | Word::Reg
            | Word::Integer
            | Word::Input
            | Word::Output
            | Word::Parameter
            | Word::Localparam
    )
}

/// A second bracket of a declaration, after the one that is closed before it.
fn at_second_bracket<'s>(refused: &Refused<'_, 's>, word: Word) -> Option<Feature<'s>> {
    let opening = refused.opening();
    let is_array = opening > 0 && refused.is_name(opening.saturating_sub(1));
    if !is_array {
        return unnamed(
            "A second range before the name is SystemVerilog: write one range, as `[31:0]`, and choose a part by `a[8 * i +: 8]`.",
        );
    }
    if word == Word::Reg || word == Word::Integer {
        return unnamed(
            "An array has one dimension: make one of all words, as `reg [7:0] m [0:15];`, and choose a word by `m[4 * i + j]`.",
        );
    }
    None
}

/// A bracket after a name that is declared.
fn at_first_bracket<'s>(refused: &Refused<'_, 's>, word: Word) -> Option<Feature<'s>> {
    if refused.in_header() {
        return unnamed(
            "A port is no array: make a port of each word, or one of all bits, and choose a part by `a[8 * i +: 8]`.",
        );
    }
    if word == Word::Parameter || word == Word::Localparam {
        return unnamed(
            "A parameter is no array: join its values to one of up to 64 bits, and choose a part by `P[8 * i +: 8]`.",
        );
    }
    unnamed(
        "Arrays of nets aren't read: declare one net of all bits and choose a part by `w[8 * i +: 8]`, or an array of `reg` that a process writes.",
    )
}

/// An array of what is no array here.
fn at_bracket<'s>(refused: &Refused<'_, 's>) -> Option<Feature<'s>> {
    let before = refused.before(1);
    let declared = refused.declares();
    if let Some(word) = declared {
        if has_range(word) && refused.is_mark(before, Mark::CloseBracket) {
            return at_second_bracket(refused, word);
        }
        if has_range(word) && refused.is_name(before) {
            return at_first_bracket(refused, word);
        }
        return None;
    }
    if !refused.is_name(before) || !refused.is_name(refused.first) {
        return None;
    }
    if before == refused.first {
        return own_type(refused);
    }
    unnamed(
        "Arrays of instances aren't read: write a generate loop, as `for (i = 0; i < 8; i = i + 1) begin : g m u(..); end`.",
    )
}

/// A range of one number.
fn at_one_bound<'s>(refused: &Refused<'_, 's>) -> Option<Feature<'s>> {
    match refused.declares() {
        Some(word) if has_range(word) && refused.is_mark(refused.before(2), Mark::OpenBracket) => {
            unnamed("A range has two bounds, as `[0:255]`.")
        }
        _ => None,
    }
}

/// A value of what has none here, or an assignment outside of a process.
fn at_assignment<'s>(
    alloc: Global,
    refused: &Refused<'_, 's>,
) -> Result<Option<Feature<'s>>, AllocError> {
    let before = refused.before(1);
    if refused.in_header() {
        return Ok(unnamed(
            "A port with a value is a variable: write `output reg`, or drive the net by an `assign` in the module.",
        ));
    }
    match refused.declares() {
        Some(Word::Input) | Some(Word::Output) => Ok(unnamed(
            "A direction takes no value: declare the `reg` with its value in a line of its own, or drive the net by an `assign`.",
        )),
        Some(Word::Reg) | Some(Word::Integer) if refused.is_mark(before, Mark::CloseBracket) => Ok(
            unnamed("An array takes no value in its declaration: fill it in an `initial`."),
        ),
        None if refused.is_name(refused.first) && refused.is_item(alloc, refused.first)? => Ok(
            outside_of_process(refused),
        ),
        _ => Ok(None),
    }
}

/// A name among the items that is followed by an assignment.
fn outside_of_process<'s>(refused: &Refused<'_, 's>) -> Option<Feature<'s>> {
    if refused.before(1) == refused.first {
        return unnamed("An assignment stands in an `initial` or an `always`, or after `assign`.");
    }
    own_type(refused)
}

/// Two names among the items without parentheses after them.
fn own_type<'s>(refused: &Refused<'_, 's>) -> Option<Feature<'s>> {
    named(
        refused.bytes(refused.first),
        " is the name of a module here, whose instance lacks its `(..)`. Types with names are SystemVerilog: write `reg` or `wire` with a range.",
    )
}

/// A delay where none can stand.
fn at_delay<'s>(
    alloc: Global,
    refused: &Refused<'_, 's>,
) -> Result<Option<Feature<'s>>, AllocError> {
    let before = refused.before(1);
    if refused.is_word(before, Word::Assign) || refused.is_word(refused.first, Word::Wire) {
        return Ok(unnamed("Delays of nets aren't read: leave the delay out."));
    }
    if refused.is_mark(before, Mark::Assign) {
        return Ok(unnamed(
            "A delay within `=` isn't read: keep the value first, as `t = b; #5 a = t;`, or write `a <= #5 b;`.",
        ));
    }
    outside(alloc, refused)
}

/// An event control where none can stand.
fn at_event<'s>(
    alloc: Global,
    refused: &Refused<'_, 's>,
) -> Result<Option<Feature<'s>>, AllocError> {
    let before = refused.before(1);
    if refused.is_mark(before, Mark::Assign) || refused.is_mark(before, Mark::LessEqual) {
        return Ok(unnamed(
            "An event control within an assignment isn't read: keep the value first, as `t = b; @(posedge clk) a = t;`.",
        ));
    }
    outside(alloc, refused)
}

/// A statement among the items.
fn outside<'s>(
    alloc: Global,
    refused: &Refused<'_, 's>,
) -> Result<Option<Feature<'s>>, AllocError> {
    if refused.is_item(alloc, refused.at)? {
        return Ok(unnamed("A statement stands in an `initial` or an `always`."));
    }
    Ok(None)
}

/// The name of a block after its end, or three values of a delay.
fn at_colon<'s>(refused: &Refused<'_, 's>) -> Option<Feature<'s>> {
    match refused.kind(refused.before(1)) {
        Some(Kind::Word(Word::End)) | Some(Kind::Word(Word::Endmodule)) => unnamed(
            "A name after `end` or `endmodule` is SystemVerilog: leave it out.",
        ),
        Some(Kind::Number(_))
            if refused.is_mark(refused.before(2), Mark::Open)
                && refused.is_mark(refused.before(3), Mark::Hash) => unnamed(
            "A delay has one value: choose one of the least, the typical and the most.",
        ),
        _ => None,
    }
}

/// The end of an item or a statement that began with a name.
fn at_semicolon<'s>(
    alloc: Global,
    refused: &Refused<'_, 's>,
) -> Result<Option<Feature<'s>>, AllocError> {
    let before = refused.before(1);
    if refused.is_item(alloc, refused.at)? || refused.is_word(before, Word::Endmodule) {
        return Ok(unnamed("Nothing stands before this `;`: leave it out."));
    }
    if !refused.is_name(before) {
        return Ok(None);
    }
    if refused.is_name(refused.first) && refused.is_item(alloc, refused.first)? {
        return Ok(own_type(refused));
    }
    if refused.is_statement(alloc, before)? {
        return Ok(named(
            refused.bytes(before),
            " is called as a task, and tasks aren't read: write its statements where they are called.",
        ));
    }
    Ok(None)
}

/// A connection without its parentheses, a comma too many, or a type with a name.
fn at_end_of_part<'s>(
    alloc: Global,
    refused: &Refused<'_, 's>,
) -> Result<Option<Feature<'s>>, AllocError> {
    let before = refused.before(1);
    if refused.is_name(before) && refused.is_mark(refused.before(2), Mark::Dot) {
        return Ok(later(
            refused.span(refused.before(2), before),
            "a connection has parentheses in Verilog, as `.clk(clk)`.",
        ));
    }
    if refused.is_mark(before, Mark::Comma) {
        return Ok(unnamed(
            "Nothing stands between the comma before it and this: leave the comma out.",
        ));
    }
    let is_second = refused.before(2) == refused.first && refused.is_name(refused.first);
    if refused.is_name(before) && is_second && refused.is_item(alloc, refused.first)? {
        return Ok(own_type(refused));
    }
    Ok(None)
}

/// The feature that begins with a word.
fn at_word<'s>(
    alloc: Global,
    refused: &Refused<'_, 's>,
    word: Word,
) -> Result<Option<Feature<'s>>, AllocError> {
    match word {
        Word::Reg | Word::Integer | Word::Genvar => at_declaration(alloc, refused),
        Word::Case | Word::Casex | Word::Casez if refused.is_item(alloc, refused.at)? => Ok(unnamed(
            "A `case` that generates items isn't read: write `if (P == 0) .. else if (P == 1) ..`.",
        )),
        Word::Begin if refused.is_item(alloc, refused.at)? => Ok(unnamed(
            "A `begin` stands after an `initial`, an `always`, or the condition of a generate `if` or `for`.",
        )),
        Word::While | Word::Repeat | Word::Forever => at_loop(alloc, refused),
        Word::Assign if refused.is_statement(alloc, refused.at)? => Ok(unnamed(
            "An `assign` in a process isn't read: write the assignment without the word, or drive a `wire` outside of it.",
        )),
        Word::Module if refused.is_item(alloc, refused.at)? => Ok(unnamed(
            "A module doesn't stand in another one: the one before it lacks its `endmodule`.",
        )),
        _ => Ok(None),
    }
}

/// A declaration in a process.
fn at_declaration<'s>(
    alloc: Global,
    refused: &Refused<'_, 's>,
) -> Result<Option<Feature<'s>>, AllocError> {
    if refused.is_word(refused.before(2), Word::For) {
        return Ok(unnamed(
            "A `for` declares nothing: declare the variable or the genvar before it.",
        ));
    }
    if refused.is_statement(alloc, refused.at)? {
        return Ok(unnamed(
            "Variables of a block are declared first in it, and the block has a name: write `begin : name`.",
        ));
    }
    Ok(None)
}

/// A loop among the items, or how often an assignment waits.
fn at_loop<'s>(
    alloc: Global,
    refused: &Refused<'_, 's>,
) -> Result<Option<Feature<'s>>, AllocError> {
    match refused.kind(refused.before(1)) {
        Some(Kind::Mark(Mark::Assign)) | Some(Kind::Mark(Mark::LessEqual)) => at_event(
            alloc, refused,
        ),
        _ => outside(alloc, refused),
    }
}

/// A system task or function where it isn't read.
fn at_system<'s>(
    alloc: Global,
    refused: &Refused<'_, 's>,
) -> Result<Option<Feature<'s>>, AllocError> {
    if refused.is_item(alloc, refused.at)? {
        return Ok(unnamed("A system task stands in an `initial` or an `always`."));
    }
    let first = no_format(refused);
    if first.is_some() {
        return Ok(first);
    }
    if refused.bytes(refused.at) == b"$time".as_slice() {
        return Ok(unnamed(
            "`$time` is read as an argument of `$display` and `$strobe` alone: to compute with it, count in an `integer`.",
        ));
    }
    Ok(None)
}

/// A first argument of `$display` or `$strobe` that is no string.
fn no_format<'s>(refused: &Refused<'_, 's>) -> Option<Feature<'s>> {
    let call = refused.before(2);
    let prints = refused.bytes(call) == b"$display".as_slice()
        || refused.bytes(call) == b"$strobe".as_slice();
    if prints && refused.is_mark(refused.before(1), Mark::Open) {
        return named(
            refused.bytes(call),
            " takes a format string first: write `$display(\"%d\", a)`, with `%b`, `%o`, `%h` or `%d` for each argument.",
        );
    }
    None
}

/// A name or a number where it isn't read.
fn at_operand<'s>(refused: &Refused<'_, 's>) -> Option<Feature<'s>> {
    let before = refused.before(1);
    let first = no_format(refused);
    if first.is_some() {
        return first;
    }
    if refused.is_mark(before, Mark::Hash) && refused.is_name(refused.first) {
        return unnamed("Overrides of parameters stand in parentheses: write `m #(5) u(..);`.");
    }
    let opens = refused.is_mark(before, Mark::Open);
    if opens && refused.is_mark(refused.before(2), Mark::Hash) && refused.in_header() {
        return unnamed("The first parameter has its word: write `#(parameter W = 4)`.");
    }
    None
}
