//! Statements with names as numbers of signals, delays as ticks, and numbers of their own.
ghost use Rattle.std.specs.Prelude.{◌≡◌, ◌+◌, ◌∷◌, ◌++◌, [], List, length, IfErr};
ghost use Rattle.std.specs.declared.vec.Vec.{Vec};
ghost use Rattle.std.specs.declared.alloc.Global.{Global};
ghost use Rattle.vs_syntax.specs.declared.tree.CaseLabel.{CaseLabel};
ghost use Rattle.vs_syntax.specs.declared.tree.LocalDeclaration.{LocalDeclaration};
ghost use Rattle.vs_syntax.specs.declared.tree.Stmt.{Stmt};
ghost use Rattle.vs_syntax.specs.declared.tree.Stmt.TheVariants as form;
ghost use Rattle.vs_elab_statements.specs.vs_scopes.specs.Printed.{plainly, Path};
ghost use Rattle.vs_elab_statements.specs.Surroundings.{Surroundings};
ghost use Rattle.vs_elab_statements.specs.passes.Faults.{IsBelow};
ghost use Rattle.vs_elab_statements.specs.passes.Views.{IsView, IsPlaced};
ghost use Rattle.vs_scopes.specs.Pieces.{blocks_among, blocks_in};
ghost use Rattle.vs_scopes.specs.pieces_passes.Parts.{blocks_in_items};
ghost use Rattle.vs_elab_statements.specs.Blocks.{HasScope, HaveScopes};
ghost use Rattle.vs_elab_statements.specs.passes.Bodies.{Answers, MeansStatement, MeansStatements, MeansElse, MeansItems, statement_burden, statements_burden, items_burden, named_burden, else_list};

use crate::vs_elab_signals::names_around;
use crate::vs_widths::{Levels, Shape};
use crate::{
    StatementFault, View, assign, case_operand, deeper, delay_around, event_around, finish,
    for_around, forever_around, if_around, label_values, later, null, numbered, print,
    repeat_around, take_number, while_around,
};
use std::alloc::Global;
use vs_design::vs_logic4::CaseKind;
use vs_design::{Statement, Typed};
use vs_syntax::{CaseLabel, Expr, ForHeader, Stmt};

/// A statement, and those in it. Its number is `next`, which moves on behind those that are given away.
#[cycle(statement)]
pub fn statement(
    alloc: Global,
    view: &View,
    next: &mut u32,
    s: &Stmt,
) -> Result<Statement, StatementFault>
    requires placed { IsPlaced view.now.list.now view.now.place }
    requires blocks { HaveScopes view.now.list.now view.now.place (blocks_in s.now) }
    ensures answer { (envs : Path → Surroundings) (p : Path) → IsView view.now envs p →
        Answers view.now.list.now envs p (statement_burden (envs p) next.old s.now)
        (λ d. MeansStatement envs p next.old s.now d next.new) result }
    ensures below { IfErr result (IsBelow (length view.now.list.now)) }
{
    match s {
        Stmt::Null => null(next),
        Stmt::Assign(left, e) => assign(alloc, view, next, left, e),
        Stmt::Later(left, value, e) => later(alloc, view, next, left, value, e),
        Stmt::Block(inner) => {
            let inner = statements(alloc, view, next, inner)?;
            Ok(Statement::Block(inner))
        }
        Stmt::Named(name, _, inner) => {
            let inner = block(alloc, view, next, name, inner)?;
            Ok(Statement::Block(inner))
        }
        Stmt::If(e, x, other) => {
            let inner = numbered_body(alloc, view, next, x)?;
            let other = otherwise(alloc, view, next, other)?;
            if_around(alloc, view, e, inner, other)
        }
        Stmt::Case(kind, e, all) => case_statement(alloc, view, next, all, *kind, e),
        Stmt::For(head, x) => for_statement(alloc, view, next, x, head),
        Stmt::While(e, x) => {
            let inner = numbered_body(alloc, view, next, x)?;
            while_around(alloc, view, e, inner)
        }
        Stmt::Repeat(e, x) => {
            let inner = numbered_body(alloc, view, next, x)?;
            repeat_around(alloc, view, e, inner)
        }
        Stmt::Forever(x) => {
            let inner = numbered_body(alloc, view, next, x)?;
            forever_around(alloc, inner)
        }
        Stmt::Delay(value, x) => {
            let inner = numbered_body(alloc, view, next, x)?;
            delay_around(alloc, view, value, inner)
        }
        Stmt::Event(control, x) => {
            let inner = numbered_body(alloc, view, next, x)?;
            event_around(alloc, view, control, inner)
        }
        Stmt::Print(task, all) => print(alloc, view, next, *task, all),
        Stmt::Finish(_) => finish(next),
        Stmt::Dump(_, _) => null(next),
    }
}

/// A `for`: its first assignment, its body, its condition and its second assignment, in this order (IEEE 1364-2005, clause 9.6).
#[cycle(statement)]
fn for_statement(
    alloc: Global,
    view: &View,
    next: &mut u32,
    x: &Box<Stmt>,
    head: &Box<ForHeader>,
) -> Result<Statement, StatementFault>
    requires placed { IsPlaced view.now.list.now view.now.place }
    requires blocks { HaveScopes view.now.list.now view.now.place (blocks_in x.now.value) }
    ensures answer { (envs : Path → Surroundings) (p : Path) → IsView view.now envs p →
        Answers view.now.list.now envs p (statement_burden (envs p) next.old (form.For head.now x.now))
        (λ d. MeansStatement envs p next.old (form.For head.now x.now) d next.new) result }
    ensures below { IfErr result (IsBelow (length view.now.list.now)) }
{
    let begin = numbered(alloc, view, next, &head.first.0, &head.first.1)?;
    let inner = numbered_body(alloc, view, next, x)?;
    for_around(alloc, view, next, head, begin, inner)
}

/// Statements one after another.
#[cycle(statement)]
fn statements(
    alloc: Global,
    view: &View,
    next: &mut u32,
    all: &[Stmt],
) -> Result<Vec<Statement>, StatementFault>
    requires placed { IsPlaced view.now.list.now view.now.place }
    requires blocks { HaveScopes view.now.list.now view.now.place (blocks_among all.now) }
    ensures answer { (envs : Path → Surroundings) (p : Path) → IsView view.now envs p →
        Answers view.now.list.now envs p (statements_burden (envs p) next.old all.now)
        (λ d. MeansStatements envs p next.old all.now d.items next.new) result }
    ensures below { IfErr result (IsBelow (length view.now.list.now)) }
{
    let mut done = Vec::with_capacity(alloc, all.len())?;
    for s in all {
        let one = statement(alloc, view, next, s)?;
        done.push(one)?;
    }
    let _behind = *next;
    Ok(done)
}

/// The statements of a named block, which stand in its scope (IEEE 1364-2005, clause 9.8.3).
#[cycle(statement)]
fn block(
    alloc: Global,
    view: &View,
    next: &mut u32,
    name: &[u8],
    all: &[Stmt],
) -> Result<Vec<Statement>, StatementFault>
    requires placed { IsPlaced view.now.list.now view.now.place }
    requires blocks { HasScope view.now.list.now view.now.place name.now all.now }
    ensures answer { (envs : Path → Surroundings) (p : Path) (locals : List LocalDeclaration) → IsView view.now envs p →
        Answers view.now.list.now envs p (named_burden next.old (record { name = name.now; locals = locals; statements = all.now }))
        (λ d. MeansStatements envs (p ++ plainly name.now ∷ []) next.old all.now d.items next.new) result }
    ensures below { IfErr result (IsBelow (length view.now.list.now)) }
{
    let list = view.list;
    let here = view.place;
    let outer = &list[here];
    let Some(place) = outer.blocks.find(name) else {
        unreachable!()
    };
    let scope = &list[place];
    let around = names_around(alloc, list, scope.kind, scope.around)?;
    let names = Levels::new(&scope.names, &around);
    let inner = View {
        list,
        place,
        names: &names,
        ratio: view.ratio,
    };
    match statements(alloc, &inner, next, all) {
        Ok(done) => Ok(done),
        Err(fault) => Err(deeper(place, fault)),
    }
}

/// The number of a statement, which is the next one, and the statement in it.
#[cycle(statement)]
fn numbered_body(
    alloc: Global,
    view: &View,
    next: &mut u32,
    s: &Stmt,
) -> Result<(u32, Statement), StatementFault>
    requires placed { IsPlaced view.now.list.now view.now.place }
    requires blocks { HaveScopes view.now.list.now view.now.place (blocks_in s.now) }
    ensures answer { (envs : Path → Surroundings) (p : Path) → IsView view.now envs p →
        Answers view.now.list.now envs p (statement_burden (envs p) (next.old + 1) s.now)
        (λ q. (q.0 ≡ next.old) × MeansStatement envs p (next.old + 1) s.now q.1 next.new) result }
    ensures below { IfErr result (IsBelow (length view.now.list.now)) }
{
    let number = take_number(next)?;
    let inner = statement(alloc, view, next, s)?;
    Ok((number, inner))
}

/// What stands behind `else`: nothing is a block of no statements (IEEE 1364-2005, clause 9.4).
#[cycle(statement)]
fn otherwise(
    alloc: Global,
    view: &View,
    next: &mut u32,
    other: &Option<Box<Stmt>>,
) -> Result<Statement, StatementFault>
    requires placed { IsPlaced view.now.list.now view.now.place }
    requires blocks { HaveScopes view.now.list.now view.now.place (blocks_among (else_list other.now)) }
    ensures answer { (envs : Path → Surroundings) (p : Path) → IsView view.now envs p →
        Answers view.now.list.now envs p (statements_burden (envs p) next.old (else_list other.now))
        (λ y. MeansElse envs p next.old other.now y next.new) result }
    ensures below { IfErr result (IsBelow (length view.now.list.now)) }
{
    match other {
        Some(s) => statement(alloc, view, next, s),
        None => {
            let _number = *next;
            Ok(Statement::Block(Vec::new(alloc)))
        }
    }
}

/// A `case` of these items.
#[cycle(statement)]
fn case_statement(
    alloc: Global,
    view: &View,
    next: &mut u32,
    all: &[(CaseLabel, Stmt)],
    kind: CaseKind,
    e: &Box<Expr>,
) -> Result<Statement, StatementFault>
    requires placed { IsPlaced view.now.list.now view.now.place }
    requires blocks { HaveScopes view.now.list.now view.now.place (blocks_in_items all.now) }
    ensures answer { (envs : Path → Surroundings) (p : Path) (v : Vec (CaseLabel × Stmt) Global) → v.items ≡ all.now
        → IsView view.now envs p → Answers view.now.list.now envs p (statement_burden (envs p) next.old (form.Case kind e.now v))
        (λ d. MeansStatement envs p next.old (form.Case kind e.now v) d next.new) result }
    ensures below { IfErr result (IsBelow (length view.now.list.now)) }
{
    let number = take_number(next)?;
    let (shape, selector) = case_operand(alloc, view.names, e, all)?;
    let done = items(alloc, view, next, shape, all)?;
    Ok(Statement::Case(number, kind, selector, done))
}

/// The items of a `case`, with their expressions at a size and a sign.
#[cycle(statement)]
fn items(
    alloc: Global,
    view: &View,
    next: &mut u32,
    shape: Shape,
    all: &[(CaseLabel, Stmt)],
) -> Result<Vec<(Vec<Typed>, Statement)>, StatementFault>
    requires placed { IsPlaced view.now.list.now view.now.place }
    requires blocks { HaveScopes view.now.list.now view.now.place (blocks_in_items all.now) }
    ensures answer { (envs : Path → Surroundings) (p : Path) → IsView view.now envs p →
        Answers view.now.list.now envs p (items_burden (envs p) next.old all.now)
        (λ v. MeansItems envs p shape next.old all.now v.items next.new) result }
    ensures below { IfErr result (IsBelow (length view.now.list.now)) }
{
    let mut done = Vec::with_capacity(alloc, all.len())?;
    for (label, s) in all {
        let values = label_values(alloc, view.names, shape, label)?;
        let one = statement(alloc, view, next, s)?;
        done.push((values, one))?;
    }
    let _behind = *next;
    Ok(done)
}
