//! Whether a design has a `$display`.
ghost use Rattle.std.specs.Prelude.{◌≡◌};
ghost use Rattle.std.specs.List.{list_any};
ghost use Rattle.vs_sign_off.specs.Displays.{prints_at_once, has_display, is_display};

use vs_design::{CallKind, Design, Statement, Typed};

// Whether a call is one of `$display`.
fn is_display(kind: CallKind) -> bool
    ensures { result ≡ is_display kind }
{
    match kind {
        CallKind::Display => true,
        CallKind::Strobe => false,
    }
}

#[cycle(has_display)]
fn has_display(s: &Statement) -> bool
    ensures { result ≡ has_display s.now }
{
    match s {
        Statement::Null(_)
        | Statement::Assign(_, _, _)
        | Statement::Later(_, _, _, _)
        | Statement::Finish(_) => false,
        Statement::Call(_, call) => is_display(call.kind),
        Statement::Block(all) => has_display_in_block(all),
        Statement::If(_, _, then, other) => has_display(then) || has_display(other),
        Statement::Case(_, _, _, items) => has_display_in_items(items),
        Statement::Delay(_, _, body)
        | Statement::Event(_, _, body)
        | Statement::While(_, _, body)
        | Statement::Repeat(_, _, _, body)
        | Statement::Forever(_, body) => has_display(body),
    }
}

#[cycle(has_display)]
fn has_display_in_block(all: &[Statement]) -> bool
    ensures { result ≡ list_any has_display all.now }
{
    for s in all {
        if has_display(s) {
            return true;
        }
    }
    false
}

#[cycle(has_display)]
fn has_display_in_items(items: &[(Vec<Typed>, Statement)]) -> bool
    ensures { result ≡ list_any (λ i. has_display i.1) items.now }
{
    for (_, body) in items {
        if has_display(body) {
            return true;
        }
    }
    false
}

/// Whether a process of a design has a `$display` (IEEE 1364-2005, clause 17.1.1).
pub fn prints_at_once(design: &Design) -> bool
    ensures { result ≡ prints_at_once design.now }
{
    for process in design.processes() {
        if has_display(&process.body) {
            return true;
        }
    }
    false
}
