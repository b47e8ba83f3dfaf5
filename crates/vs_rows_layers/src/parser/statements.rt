//! Statements as text.
use crate::parser::generated::locals_shown;
use crate::parser::tasks::{later_sign, task_shown};
use crate::parser::trees::{
    left_shown, list_shown, put_headed, selected_shown, shown, shown_between, sides_shown,
};
use vs_row_files::Text;
use vs_syntax::vs_logic4::{CaseKind, Edge};
use vs_syntax::{CaseLabel, DelayValue, EventControl, EventExpr, ForHeader, Separator, Stmt};

/// A delay, an expression in parentheses in them.
pub(crate) fn delay_shown(delay: &DelayValue, text: &mut Text) {
    match delay {
        DelayValue::Number(_) => text.put(b"0"),
        DelayValue::Name(name) => text.put(name),
        DelayValue::Group(inner) => shown_between(b"(", inner, b")", text),
    }
}

fn edge_shown(edge: Edge) -> &'static [u8] {
    match edge {
        Edge::Any => b"",
        Edge::Posedge => b"posedge ",
        Edge::Negedge => b"negedge ",
    }
}

fn separator_shown(separator: Separator) -> &'static [u8] {
    match separator {
        Separator::Or => b" or ",
        Separator::Comma => b", ",
    }
}

/// A term of an event control, each select behind a bar.
fn term_shown(term: &EventExpr, text: &mut Text) {
    text.put(edge_shown(term.edge));
    selected_shown(&term.name, &term.selects, text);
}

/// What an event control waits for.
fn event_shown(control: &EventControl, text: &mut Text) {
    match control {
        EventControl::Star => text.put(b"*"),
        EventControl::GroupedStar => text.put(b"(*)"),
        EventControl::Name(name) => text.put(name),
        EventControl::Terms(first, others) => {
            text.put(b"(");
            term_shown(first, text);
            for (separator, other) in others {
                text.put(separator_shown(*separator));
                term_shown(other, text);
            }
            text.put(b")");
        }
    }
}

fn kind_shown(kind: CaseKind) -> &'static [u8] {
    match kind {
        CaseKind::Case => b"[case ",
        CaseKind::Casez => b"[casez ",
        CaseKind::Casex => b"[casex ",
    }
}

/// What stands before the statement of a `case` item, its colon with it.
fn label_shown(label: &CaseLabel, text: &mut Text) {
    match label {
        CaseLabel::Expressions(first, others) => list_shown(first, others, b":", text),
        CaseLabel::Default(true) => text.put(b"default:"),
        CaseLabel::Default(false) => text.put(b"default"),
    }
}

/// The header of a `for`.
fn header_shown(header: &ForHeader, text: &mut Text) {
    let (target, value) = &header.first;
    sides_shown(target, value, text);
    shown_between(b"; ", &header.condition, b"; ", text);
    let (target, value) = &header.step;
    sides_shown(target, value, text);
}

/// A statement that holds no other one.
pub(crate) fn simple_shown(s: &Stmt, text: &mut Text) {
    match s {
        Stmt::Assign(left, value) => sides_shown(left, value, text),
        Stmt::Later(left, delay, value) => {
            left_shown(left, text);
            later_sign(delay, text);
            shown(value, text);
        }
        Stmt::Null => text.put(b";"),
        _ => task_shown(s, text),
    }
}

/// What stands before the only statement that a loop, a delay or an event control holds.
fn control_shown(s: &Stmt, text: &mut Text) {
    match s {
        Stmt::For(header, _) => {
            text.put(b"[for ");
            header_shown(header, text);
            text.put(b" do ");
        }
        Stmt::While(condition, _) => shown_between(b"[while ", condition, b" do ", text),
        Stmt::Repeat(count, _) => shown_between(b"[repeat ", count, b" do ", text),
        Stmt::Delay(delay, _) => {
            text.put(b"[# ");
            delay_shown(delay, text);
            text.put(b" ");
        }
        Stmt::Event(control, _) => {
            text.put(b"[@ ");
            event_shown(control, text);
            text.put(b" ");
        }
        _ => text.put(b"[forever "),
    }
}

/// A statement in one line, a block in parentheses, each other one that holds statements in brackets.
#[cycle(statement)]
pub(crate) fn statement_shown(s: &Stmt, text: &mut Text) {
    match s {
        Stmt::Block(inner) => {
            text.put(b"(");
            block_shown(inner, text);
        }
        Stmt::Named(name, locals, inner) => {
            text.put(b"(:");
            text.put(name);
            locals_shown(locals, text);
            block_shown(inner, text);
        }
        Stmt::If(condition, inner, other) => {
            shown_between(b"[if ", condition, b" then ", text);
            statement_shown(inner, text);
            if let Some(other) = other {
                text.put(b" else ");
                statement_shown(other, text);
            }
            text.put(b"]");
        }
        Stmt::Case(kind, subject, items) => {
            put_headed(kind_shown(*kind), subject, text);
            for (label, inner) in items {
                text.put(b" (");
                label_shown(label, text);
                text.put(b" ");
                statement_shown(inner, text);
                text.put(b")");
            }
            text.put(b"]");
        }
        Stmt::For(_, inner)
        | Stmt::While(_, inner)
        | Stmt::Repeat(_, inner)
        | Stmt::Forever(inner)
        | Stmt::Delay(_, inner)
        | Stmt::Event(_, inner) => {
            control_shown(s, text);
            statement_shown(inner, text);
            text.put(b"]");
        }
        _ => simple_shown(s, text),
    }
}

/// The statements of a block, each behind a space, and its end.
#[cycle(statement)]
fn block_shown(statements: &[Stmt], text: &mut Text) {
    for statement in statements {
        text.put(b" ");
        statement_shown(statement, text);
    }
    text.put(b")");
}
