//! Declarations, assignments and expressions as text.
use crate::parser::instances::{constants_shown, instances_shown, port_form_shown};
use crate::parser::statements::simple_shown;
use vs_row_files::Text;
use vs_syntax::vs_logic4::{Binary, Unary};
use vs_syntax::{Declarator, Expr, Form, Item, Left, NetAssignment, PartSelect, Range};

/// How deep expressions are shown.
const DEPTH: u32 = 256;

/// An expression in one line, each chain, each conditional and each operator with its operand in brackets, each select behind a bar.
pub(crate) fn shown(e: &Expr, text: &mut Text) {
    shown_within(DEPTH, e, text);
}

/// An expression behind a word.
pub(crate) fn put_headed(word: &[u8], e: &Expr, text: &mut Text) {
    put_headed_within(DEPTH, word, e, text);
}

/// An expression between two words.
pub(crate) fn shown_between(before: &[u8], e: &Expr, behind: &[u8], text: &mut Text) {
    between_within(DEPTH, before, e, behind, text);
}

/// Expressions with commas between them, and a word behind them.
pub(crate) fn list_shown(first: &Expr, others: &[Expr], behind: &[u8], text: &mut Text) {
    list_within(DEPTH, first, others, behind, text);
}

/// A name, and its selects behind it, each with a bar before its first expression.
pub(crate) fn selected_shown(
    name: &[u8],
    selects: &[(Expr, Option<(PartSelect, Expr)>)],
    text: &mut Text,
) {
    selected_within(DEPTH, name, selects, text);
}

/// An expression in one line, of at most so many expressions within one another; nothing of those below.
#[cycle(shown)]
fn shown_within(depth: u32, e: &Expr, text: &mut Text) {
    if depth == 0 {
        return;
    }
    let room = depth - 1;
    match e {
        Expr::Number(_) => text.put(b"0"),
        Expr::Name(name) => text.put(name),
        Expr::Select(name, selects) => selected_within(room, name, selects, text),
        Expr::Group(inner) => between_within(room, b"(", inner, b")", text),
        Expr::Unary(operator, inner) => {
            between_within(room, prefix(*operator), inner, b"]", text)
        }
        Expr::Cast(signed, inner) => between_within(room, conversion(*signed), inner, b")", text),
        Expr::Chain(first, links) => {
            put_headed_within(room, b"[", first, text);
            for (operator, operand) in links {
                put_headed_within(room, infix(*operator), operand, text);
            }
            text.put(b"]");
        }
        Expr::Choice(pairs, last) => {
            text.put(b"[");
            for (condition, value) in pairs {
                shown_within(room, condition, text);
                between_within(room, b" ? ", value, b" : ", text);
            }
            shown_within(room, last, text);
            text.put(b"]");
        }
        Expr::Concat(first, others) => {
            text.put(b"{");
            list_within(room, first, others, b"}", text);
        }
        Expr::Repeat(times, first, others) => {
            between_within(room, b"{", times, b"{", text);
            list_within(room, first, others, b"}}", text);
        }
    }
}

#[cycle(shown)]
fn put_headed_within(depth: u32, word: &[u8], e: &Expr, text: &mut Text) {
    text.put(word);
    shown_within(depth, e, text);
}

#[cycle(shown)]
fn between_within(depth: u32, before: &[u8], e: &Expr, behind: &[u8], text: &mut Text) {
    text.put(before);
    shown_within(depth, e, text);
    text.put(behind);
}

#[cycle(shown)]
fn list_within(depth: u32, first: &Expr, others: &[Expr], behind: &[u8], text: &mut Text) {
    shown_within(depth, first, text);
    for other in others {
        put_headed_within(depth, b", ", other, text);
    }
    text.put(behind);
}

#[cycle(shown)]
fn selected_within(
    depth: u32,
    name: &[u8],
    selects: &[(Expr, Option<(PartSelect, Expr)>)],
    text: &mut Text,
) {
    text.put(name);
    for (index, second) in selects {
        put_headed_within(depth, b"|", index, text);
        if let Some((kind, other)) = second {
            put_headed_within(depth, middle(*kind), other, text);
        }
    }
}

fn middle(kind: PartSelect) -> &'static [u8] {
    match kind {
        PartSelect::Bounds => b" to ",
        PartSelect::Upward => b" up ",
        PartSelect::Downward => b" down ",
    }
}

fn conversion(signed: bool) -> &'static [u8] {
    if signed { b"$signed(" } else { b"$unsigned(" }
}

fn prefix(operator: Unary) -> &'static [u8] {
    match operator {
        Unary::Plus => b"[+",
        Unary::Minus => b"[-",
        Unary::Not => b"[~",
        Unary::LogicalNot => b"[!",
        Unary::ReduceAnd => b"[&",
        Unary::ReduceNand => b"[~&",
        Unary::ReduceOr => b"[|",
        Unary::ReduceNor => b"[~|",
        Unary::ReduceXor => b"[^",
        Unary::ReduceXnor => b"[~^",
    }
}

fn infix(operator: Binary) -> &'static [u8] {
    match operator {
        Binary::Multiply => b" * ",
        Binary::Divide => b" / ",
        Binary::Remainder => b" % ",
        Binary::Add => b" + ",
        Binary::Subtract => b" - ",
        Binary::ShiftLeft => b" << ",
        Binary::ShiftRight => b" >> ",
        Binary::SignedShiftLeft => b" <<< ",
        Binary::SignedShiftRight => b" >>> ",
        Binary::Less => b" < ",
        Binary::LessEqual => b" <= ",
        Binary::Greater => b" > ",
        Binary::GreaterEqual => b" >= ",
        Binary::Equal => b" == ",
        Binary::NotEqual => b" != ",
        Binary::CaseEqual => b" === ",
        Binary::CaseNotEqual => b" !== ",
        Binary::And => b" & ",
        Binary::Xor => b" ^ ",
        Binary::Xnor => b" ~^ ",
        Binary::Or => b" | ",
        Binary::LogicalAnd => b" && ",
        Binary::LogicalOr => b" || ",
    }
}

/// The left side of an assignment in one line.
pub(crate) fn left_shown(left: &Left, text: &mut Text) {
    match left {
        Left::Name(name, selects) => selected_shown(name, selects, text),
        Left::Concat(first, others) => {
            text.put(b"{");
            left_shown(first, text);
            for other in others {
                text.put(b", ");
                left_shown(other, text);
            }
            text.put(b"}");
        }
    }
}

/// A name behind a space.
pub(crate) fn name_shown(name: &[u8], text: &mut Text) {
    text.put(b" ");
    text.put(name);
}

/// Names alone, each behind a space.
fn bare_names_shown(names: &[Vec<u8>], text: &mut Text) {
    for name in names {
        name_shown(name, text);
    }
}

/// A range, where there is one.
pub(crate) fn range_shown(range: &Option<Range>, text: &mut Text) {
    if let Some(range) = range {
        put_headed(b" from ", &range.left, text);
        put_headed(b" to ", &range.right, text);
    }
}

/// The value that a name is given, where there is one.
pub(crate) fn value_shown(value: &Option<Expr>, text: &mut Text) {
    if let Some(value) = value {
        put_headed(b" = ", value, text);
    }
}

/// Names of a declaration, each with the range of its words, or its value.
fn names_shown(names: &[Declarator], text: &mut Text) {
    for name in names {
        name_shown(&name.name, text);
        range_shown(&name.words, text);
        value_shown(&name.value, text);
    }
}

/// What a declaration says of its names.
pub(crate) fn form_shown(form: &Form, text: &mut Text) {
    if form.signed {
        text.put(b" signed");
    }
    range_shown(&form.range, text);
}

/// A declaration that begins with a word.
fn declaration_shown(word: &[u8], form: &Form, names: &[Declarator], text: &mut Text) {
    text.put(word);
    form_shown(form, text);
    names_shown(names, text);
}

/// Both sides of an assignment in one line.
pub(crate) fn sides_shown(left: &Left, value: &Expr, text: &mut Text) {
    left_shown(left, text);
    put_headed(b" = ", value, text);
}

/// The assignments of an `assign` item in one line.
fn assignments_shown(assignments: &[NetAssignment], text: &mut Text) {
    text.put(b"assign");
    for a in assignments {
        text.put(b" ");
        sides_shown(&a.target, &a.value, text);
    }
}

/// A declaration, a simple statement in `initial`, or the assignments of an `assign` item, in one line.
pub(crate) fn item_shown(item: &Item, text: &mut Text) {
    match item {
        Item::Port(form, names) => {
            port_form_shown(form, text);
            bare_names_shown(names, text);
        }
        Item::Genvar(names) => {
            text.put(b"genvar");
            bare_names_shown(names, text);
        }
        Item::Wire(form, names) => declaration_shown(b"wire", form, names, text),
        Item::Reg(form, names) => declaration_shown(b"reg", form, names, text),
        Item::Integer(names) => {
            text.put(b"integer");
            names_shown(names, text);
        }
        Item::Parameter(form, constants) => constants_shown(b"parameter", form, constants, text),
        Item::Localparam(form, constants) => constants_shown(b"localparam", form, constants, text),
        Item::Instances(name, overrides, instances) => {
            text.put(name);
            instances_shown(overrides, instances, text);
        }
        Item::Assign(assignments) => assignments_shown(assignments, text),
        Item::Initial(statement) => simple_shown(statement, text),
        Item::Always(_) => text.put(b"not shown"),
    }
}
