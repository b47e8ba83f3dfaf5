//! The script of a process: its flat code as a run takes its steps, with each fixed target resolved to a word of the store and each expression resolved;
//! made once, at the start of a run.
ghost use Rattle.std.specs.Prelude.{ℕ, List, ◌≡◌, true, length, IfOk};
ghost use Rattle.std.specs.List.{All};
ghost use Rattle.vs_design.specs.InOrder.{IsStoreOf};
ghost use Rattle.vs_design.specs.WellFormed.{numbers, counts_from};
ghost use Rattle.vs_design.specs.declared.statement.Statement.TheViews.{out-Statement};
ghost use Rattle.vs_process.specs.Choices.{index_of};
ghost use Rattle.vs_process.specs.Instructions.{AreInstructionsOf, IsActionOf, IsAssign, IsCall, IsCase, IsInstructionOf, IsUpdate, meaning, next_place};
ghost use Rattle.vs_process.specs.declared.switch.Switch as switch;
ghost use Rattle.vs_process.specs.Scripts.{IsScriptOf, StartsWith, led_by};

use crate::choice::{Case, Repeat, Turns, index_of};
use crate::chosen::chosen_of;
use crate::chosen_place::ChosenPlace;
use crate::code::Code;
use crate::draft::{Extra, Op, Task};
use crate::spot::Spot;
use crate::spots::spot_of;
use crate::switch::Switch;
use std::alloc::{AllocError, Global};
use std::marker::Model;
use vs_design::vs_logic4::CaseKind;
use vs_design::{Call, CallKind, Design, EventTerm, Statement, Store, Target, Ticks, Typed};
use vs_eval::Resolved;
use vs_strobe::Format;

/// What an instruction does.
#[derive(Drop)]
pub enum Action<'a> {
    /// Nothing.
    Nothing,
    /// A blocking assignment (IEEE 1364-2005, clause 9.2.1).
    Assign(Spot, Resolved<'a>),
    /// One to a place that indices choose.
    AssignChosen(ChosenPlace<'a>, Resolved<'a>),
    /// One to any other target.
    AssignAny(&'a Target, &'a Typed),
    /// A nonblocking assignment without a delay (clause 9.2.2).
    Update(Spot, Resolved<'a>),
    /// One of a place that indices choose, without a delay too.
    UpdateChosen(ChosenPlace<'a>, Resolved<'a>),
    /// Any other, whose update is due in so many ticks.
    UpdateAny(Ticks, &'a Target, &'a Typed),
    /// A condition, and the index where it goes on where this isn't true.
    Branch(Resolved<'a>, usize),
    /// A `case`: a list of one, which takes less room in an instruction than the `case`.
    Case(Vec<Switch<'a>>),
    /// A `repeat` that reads its count.
    Repeat(Repeat<'a>),
    /// One that has its count.
    Turns(Turns<'a>),
    /// The line of a `$display` (clause 17.1.1).
    Display(&'a Format<'a>),
    /// A call of `$strobe` (clause 17.1.2).
    Strobe(&'a Format<'a>),
    /// A `$finish` (clause 17.4.1, and profile).
    Finish,
    /// A delay of so many ticks, by the delay control of this number in the process's text (clause 9.7.1).
    Delay(u32, Ticks),
    /// A wait for one of these terms, by the event control of this number in the process's text (clause 9.7.2).
    Wait(u32, &'a [EventTerm]),
}

/// An instruction, and the index where it goes on, where it doesn't choose another one.
#[derive(Drop)]
pub struct Instruction<'a> {
    pub action: Action<'a>,
    pub next: usize,
}

// What a blocking assignment does to a target that is no fixed place.
fn chosen_assign_action<'a>(
    alloc: Global,
    design: &'a Design,
    target: &'a Target,
    e: &'a Typed,
) -> Result<Action<'a>, AllocError>
    ensures { IfOk result (λ action. IsAssign design.entry.now.signals target.entry.now e.entry.now action) }
{
    let Some(place) = chosen_of(alloc, design, target)? else {
        return Ok(Action::AssignAny(target, e));
    };
    let resolved = Resolved::new(alloc, design, e)?;
    Ok(Action::AssignChosen(place, resolved))
}

// What a blocking assignment does.
fn assign_action<'a>(
    alloc: Global,
    design: &'a Design,
    target: &'a Target,
    e: &'a Typed,
) -> Result<Action<'a>, AllocError>
    ensures { IfOk result (λ action. IsAssign design.entry.now.signals target.entry.now e.entry.now action) }
{
    match spot_of(design, target) {
        Some(spot) => {
            let resolved = Resolved::new(alloc, design, e)?;
            Ok(Action::Assign(spot, resolved))
        }
        None => chosen_assign_action(alloc, design, target, e),
    }
}

// What a nonblocking assignment does to a target that is no fixed place, whose update is due in the slot in which it is made.
fn chosen_update_action<'a>(
    alloc: Global,
    design: &'a Design,
    ticks: Ticks,
    target: &'a Target,
    e: &'a Typed,
) -> Result<Action<'a>, AllocError>
    requires { ticks.count ≡ 0 }
    ensures { IfOk result (λ action. IsUpdate design.entry.now.signals ticks target.entry.now e.entry.now action) }
{
    let Some(place) = chosen_of(alloc, design, target)? else {
        return Ok(Action::UpdateAny(ticks, target, e));
    };
    let resolved = Resolved::new(alloc, design, e)?;
    Ok(Action::UpdateChosen(place, resolved))
}

// What a nonblocking assignment does whose update is due in the slot in which it is made.
fn update_action<'a>(
    alloc: Global,
    design: &'a Design,
    ticks: Ticks,
    target: &'a Target,
    e: &'a Typed,
) -> Result<Action<'a>, AllocError>
    requires { ticks.count ≡ 0 }
    ensures { IfOk result (λ action. IsUpdate design.entry.now.signals ticks target.entry.now e.entry.now action) }
{
    match spot_of(design, target) {
        Some(spot) => {
            let resolved = Resolved::new(alloc, design, e)?;
            Ok(Action::Update(spot, resolved))
        }
        None => chosen_update_action(alloc, design, ticks, target, e),
    }
}

// What a `case` does, of so many instructions.
fn case_action<'a>(
    alloc: Global,
    design: &'a Design,
    count: usize,
    op: &'a Op<'a>,
    kind: CaseKind,
    e: &'a Typed,
    items: &'a [(Vec<Typed>, Statement)],
) -> Result<Action<'a>, AllocError>
    ensures { IfOk result (λ action. IsCase design.entry.now.signals count op.entry.now kind e.entry.now items.entry.now action) }
{
    let case = Case {
        op,
        kind,
        e,
        items,
        count,
    };
    let switch = Switch::new(alloc, design, case)?;
    let mut all = Vec::new(alloc);
    all.push(switch)?;
    Ok(Action::Case(all))
}

// What a call does.
fn call_action<'a>(op: &'a Op<'a>, call: &'a Call) -> Action<'a>
    ensures { IsCall op.entry.now call.entry.now result }
{
    let Extra::Formats(formats) = &op.extra else {
        return Action::Nothing;
    };
    let Some(format) = formats.get(0) else {
        return Action::Nothing;
    };
    match call.kind {
        CallKind::Display => Action::Display(format),
        CallKind::Strobe => Action::Strobe(format),
    }
}

// What the instruction of a statement does, of so many.
fn action_of<'a>(
    alloc: Global,
    design: &'a Design,
    count: usize,
    op: &'a Op<'a>,
    s: &'a Statement,
) -> Result<Action<'a>, AllocError>
    ensures { IfOk result (λ action. IsActionOf design.entry.now.signals count op.entry.now (out-Statement s.entry.now) action) }
{
    match s {
        Statement::Null(_) | Statement::Block(_) | Statement::Forever(_, _) => Ok(Action::Nothing),
        Statement::Assign(_, target, e) => assign_action(alloc, design, target, e),
        Statement::Later(_, ticks, target, e) => {
            if ticks.count == 0 {
                update_action(alloc, design, *ticks, target, e)
            } else {
                Ok(Action::UpdateAny(*ticks, target, e))
            }
        }
        Statement::Call(_, call) => Ok(call_action(op, call)),
        Statement::Finish(_) => Ok(Action::Finish),
        Statement::Delay(n, ticks, _) => Ok(Action::Delay(*n, *ticks)),
        Statement::Event(n, terms, _) => Ok(Action::Wait(*n, terms)),
        Statement::If(_, e, _, _) => {
            let resolved = Resolved::new(alloc, design, e)?;
            Ok(Action::Branch(resolved, index_of(count, op.second)))
        }
        Statement::While(_, e, _) => {
            let resolved = Resolved::new(alloc, design, e)?;
            Ok(Action::Branch(resolved, index_of(count, op.behind)))
        }
        Statement::Case(_, kind, e, items) => {
            case_action(alloc, design, count, op, *kind, e, items)
        }
        Statement::Repeat(_, signed, e, _) => Ok(Action::Repeat(Repeat {
            op,
            signed: *signed,
            e,
            count,
        })),
    }
}

// The place where the instruction of a statement goes on, where it doesn't choose another one.
fn next_place(op: &Op, s: &Statement) -> usize
    ensures { result ≡ next_place op.now (out-Statement s.now) }
{
    match s {
        Statement::Null(_)
        | Statement::Assign(_, _, _)
        | Statement::Later(_, _, _, _)
        | Statement::Call(_, _)
        | Statement::Finish(_)
        | Statement::Case(_, _, _, _)
        | Statement::Repeat(_, _, _, _) => op.behind,
        Statement::Block(_)
        | Statement::Delay(_, _, _)
        | Statement::Event(_, _, _)
        | Statement::If(_, _, _, _)
        | Statement::While(_, _, _)
        | Statement::Forever(_, _) => op.first,
    }
}

// The instruction of a script for one of the code, of so many.
fn instruction_of<'a>(
    alloc: Global,
    design: &'a Design,
    count: usize,
    op: &'a Op<'a>,
) -> Result<Instruction<'a>, AllocError>
    ensures { IfOk result (λ x. IsInstructionOf design.entry.now.signals count op.entry.now x) }
{
    match op.task {
        Task::Perform(s) => {
            let action = action_of(alloc, design, count, op, s)?;
            let next = index_of(count, next_place(op, s));
            Ok(Instruction { action, next })
        }
        Task::Turns(_) => Ok(Instruction {
            action: Action::Turns(Turns { op, count }),
            next: 0,
        }),
    }
}

// The instructions of a script for those of the code.
fn instructions_of<'a>(
    alloc: Global,
    design: &'a Design,
    ops: &'a [Op<'a>],
) -> Result<Vec<Instruction<'a>>, AllocError>
    ensures { IfOk result (λ all. AreInstructionsOf design.entry.now.signals (length ops.entry.now) ops.entry.now all.items) }
{
    let count = ops.len();
    let mut all = Vec::new(alloc);
    for op in ops {
        let x = instruction_of(alloc, design, count, op)?;
        all.push(x)?;
    }
    Ok(all)
}

/// Where the only one of some `case`s leads in a store at a time in ticks; where there is none, this index.
#[inline(always)]
pub fn case_of(all: &[Switch], none: usize, store: &Store, time: u64) -> usize
    requires { All (λ (s : switch.Switch). IsStoreOf s.subject.signals store.now) all.now }
    ensures { result ≡ led_by all.now none store.now time }
{
    match all.first() {
        Some(switch) => switch.index(store, time),
        None => none,
    }
}

/// The script of a process. A contract sees the places of its code.
#[derive(Drop)]
pub struct Script<'a> {
    design: &'a Design,
    ops: &'a [Op<'a>],
    instructions: Vec<Instruction<'a>>,
    counters: usize,
    start: usize,
}

impl<'a> Model for Script<'a> {
    ghost use Rattle.std.specs.Coded.{codes};
    ghost use Rattle.vs_design.specs.contracts.statement.Statement as statement;
    ghost use Rattle.vs_process.specs.Codes.{links_of};
    ghost use Rattle.vs_process.specs.Texts.{Text};

    ghost Value = { Text };

    ghost coded = { Prim.hlevel (codes, statement.the_row.coded) };

    ghost use Rattle.vs_process.specs.passes.Made.{IsScriptMade};

    ghost view = { λ s. record { signals = s.design.now.signals; links = links_of s.ops.now; counters = s.counters; start = s.start } };

    ghost invariant = { λ s. IsScriptMade s.design.now.signals s.ops.now s.counters s.instructions.items };
}

impl<'a> Script<'a> {
    /// The script of a process of a design, by its code.
    pub fn new(alloc: Global, design: &'a Design, code: &'a Code<'a>) -> Result<Self, AllocError>
        requires numbered { counts_from 0 (numbers code.now) ≡ true }
        ensures signals { IfOk result (λ s. s.signals ≡ design.entry.now.signals) }
        ensures starts { IfOk result (λ s. StartsWith s code.entry.now) }
    {
        let (ops, counters, place) = code.parts();
        let instructions = instructions_of(alloc, design, ops)?;
        let start = index_of(ops.len(), place);
        Ok(Script {
            design,
            ops,
            instructions,
            counters,
            start,
        })
    }

    /// Its instructions.
    #[inline(always)]
    pub fn instructions(&self) -> &[Instruction<'a>]
        ensures { IsScriptOf self.now result.now }
    {
        &self.instructions
    }

    /// The index where it starts.
    pub fn start(&self) -> usize
        ensures { result ≡ self.now.start }
    {
        self.start
    }

    /// How many counters it has.
    pub fn counters(&self) -> usize
        ensures { result ≡ self.now.counters }
    {
        self.counters
    }
}
