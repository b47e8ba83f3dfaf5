//! The flat code of a process while it is written, from its end to its start.
ghost use Rattle.std.specs.Prelude.{ℕ, ◌≡◌, ◌≢◌, ◌++◌, ◌∷◌, [], ◌<◌, ◌≤◌, suc, length, map, Some, slice_get, IfOk};
ghost use Rattle.vs_process.specs.Places.{perform, flat};
ghost use Rattle.vs_process.specs.Codes.{links_of, layout_of, job_of};
ghost use Rattle.vs_process.specs.Numbers.{number_of, number_at};
ghost use Rattle.vs_process.specs.Drafts.{flat_all, numbers_all, numbers_in, IsReady, IsEmitted, Written, drafted, AlwaysLeadAll, AlwaysTurn, IsNext, op_of, IsLoop, IsHead, AddsOne, Adds};
ghost use Rattle.vs_process.specs.Extras.{format_of};
ghost use Rattle.vs_strobe.specs.Lines.{format_of_call};
ghost use Rattle.vs_design.specs.WellFormed.{numbers};
ghost use Rattle.vs_design.specs.declared.statement.Statement.TheViews.{out-Statement};

use std::alloc::{AllocError, Global};
use vs_design::{Call, Statement, Typed};
use vs_strobe::Format;

/// What is done at a place.
#[derive(Drop)]
pub(crate) enum Task<'a> {
    /// A statement.
    Perform(&'a Statement),
    /// A test of a `repeat` that has its count, by the statement in it (IEEE 1364-2005, clause 9.6).
    Turns(&'a Statement),
}

/// What an instruction has beside its places: few have anything, and so it stands elsewhere.
#[derive(Drop)]
pub(crate) enum Extra<'a> {
    /// Nothing.
    Nothing,
    /// The starts of the items of a `case`.
    Starts(Vec<usize>),
    /// The format of a call of `$display` or `$strobe`, read once: a list of one, which takes less room in an instruction than the format.
    Formats(Vec<Format<'a>>),
}

/// An instruction: what is done, and the places where it goes on. Place 0 is the end of the code; the instruction of index i has place
/// i + 1.
#[derive(Drop)]
pub(crate) struct Op<'a> {
    /// What is done.
    pub(crate) task: Task<'a>,
    /// The place behind it.
    pub(crate) behind: usize,
    /// The start of the statement in it; of an `if` that of the first.
    pub(crate) first: usize,
    /// The start of what an `if` does else.
    pub(crate) second: usize,
    /// The counter of a `repeat`: how many others it stands in.
    pub(crate) counter: usize,
    /// The starts of the items of a `case`, or the format of a call.
    pub(crate) extra: Extra<'a>,
}

/// The code that has been written.
#[derive(Drop)]
pub(crate) struct Draft<'a> {
    /// Its instructions.
    pub(crate) ops: Vec<Op<'a>>,
    /// How many counters they have.
    pub(crate) counters: usize,
}

// Puts an instruction, and answers its place.
fn put<'a>(draft: &mut Draft<'a>, op: Op<'a>) -> Result<usize, AllocError>
    ensures ops { IfOk result (λ _. draft.new.ops.items ≡ draft.old.ops.items ++ op.entry ∷ []) }
    ensures counters { draft.new.counters ≡ draft.old.counters }
    ensures place { IfOk result (λ p. p ≡ suc (length draft.old.ops.items)) }
{
    draft.ops.push(op)?;
    Ok(draft.ops.len())
}

// Writes where the statement in an instruction starts.
fn set_first(ops: &mut Vec<Op>, i: usize, first: usize)
    requires within { i < length ops.old.items }
    ensures links { links_of ops.new.items ≡ links_of ops.old.items }
    ensures here { (x : Op) → slice_get ops.old.items i ≡ Some x → slice_get ops.new.items i ≡ Some (record x { first = first }) }
    ensures others { (j : ℕ) → j ≢ i → slice_get ops.new.items j ≡ slice_get ops.old.items j }
{
    ops[i].first = first;
}

// Puts the instruction of a statement, which goes on where it must.
fn put_statement<'a>(
    draft: &mut Draft<'a>,
    s: &'a Statement,
    next: usize,
    first: usize,
    second: usize,
    depth: usize,
    extra: Extra<'a>,
) -> Result<usize, AllocError>
    requires ready { IsReady draft.old next depth }
    requires next { IsNext draft.old (op_of s next first second depth extra) s.now }
    ensures emitted { IfOk result (λ p. IsEmitted draft.old draft.new (flat s.entry.now) next p) }
    ensures number { IfOk result (λ _. AddsOne draft.old draft.new (number_of (out-Statement s.entry.now))) }
{
    let op = Op {
        task: Task::Perform(s),
        behind: next,
        first,
        second,
        counter: depth,
        extra,
    };
    let place = put(draft, op)?;
    Ok(place)
}

// Puts an instruction that goes on nowhere yet, and answers its place.
fn put_head<'a>(
    draft: &mut Draft<'a>,
    task: Task<'a>,
    next: usize,
    depth: usize,
) -> Result<usize, AllocError>
    requires ready { IsReady draft.old next depth }
    ensures head { IfOk result (λ p. IsHead draft.old draft.new task.entry next depth p) }
    ensures number { IfOk result (λ _. AddsOne draft.old draft.new (number_at (job_of depth task.entry))) }
{
    let op = Op {
        task,
        behind: next,
        first: next,
        second: next,
        counter: depth,
        extra: Extra::Nothing,
    };
    let place = put(draft, op)?;
    Ok(place)
}

// What the instruction of a call has: its format.
fn format_read<'a>(alloc: Global, call: &'a Call) -> Result<Extra<'a>, AllocError>
    ensures { IfOk result (λ extra. format_of extra ≡ Some (format_of_call call.entry.now)) }
{
    let format = Format::of(alloc, call)?;
    let mut formats = Vec::with_capacity(alloc, 1)?;
    formats.push(format)?;
    Ok(Extra::Formats(formats))
}

// The code of the items of a `case`, and where each starts.
#[cycle(emit)]
fn emit_items<'a>(
    alloc: Global,
    draft: &mut Draft<'a>,
    items: &'a [(Vec<Typed>, Statement)],
    next: usize,
    depth: usize,
) -> Result<Vec<usize>, AllocError>
    requires ready { IsReady draft.old next depth }
    ensures written { IfOk result (λ _. Written draft.old draft.new) }
    ensures leads { IfOk result (λ starts. AlwaysLeadAll (drafted draft.new) items.entry.now starts.items next) }
    ensures numbers { IfOk result (λ _. Adds draft.old draft.new (numbers_in items.entry.now)) }
{
    let mut starts = Vec::new(alloc);
    for (_, s) in items {
        let start = emit(alloc, draft, s, next, depth)?;
        starts.push(start)?;
    }
    Ok(starts)
}

// The code of a statement that stands behind the one in it again.
#[cycle(emit)]
fn emit_loop<'a>(
    alloc: Global,
    draft: &mut Draft<'a>,
    body: &'a Statement,
    s: &'a Statement,
    next: usize,
    depth: usize,
) -> Result<usize, AllocError>
    requires ready { IsReady draft.old next depth }
    requires single { IsLoop s.now body.now }
    ensures emitted { IfOk result (λ p. IsEmitted draft.old draft.new (flat s.entry.now) next p) }
    ensures numbers { IfOk result (λ _. Adds draft.old draft.new (numbers s.entry.now)) }
{
    let i = draft.ops.len();
    let head = put_head(draft, Task::Perform(s), next, depth)?;
    let first = emit(alloc, draft, body, head, depth)?;
    set_first(&mut draft.ops, i, first);
    Ok(head)
}

// The code of the statement in a `repeat` and of the test behind it, and where the statement starts.
#[cycle(emit)]
fn emit_turns<'a>(
    alloc: Global,
    draft: &mut Draft<'a>,
    body: &'a Statement,
    next: usize,
    depth: usize,
) -> Result<usize, AllocError>
    requires ready { IsReady draft.old next depth }
    ensures written { IfOk result (λ _. Written draft.old draft.new) }
    ensures turn { IfOk result (λ first. AlwaysTurn (drafted draft.new) depth body.entry.now first next) }
    ensures numbers { IfOk result (λ _. Adds draft.old draft.new (numbers body.entry.now)) }
{
    let i = draft.ops.len();
    draft.counters = draft.counters.max(depth + 1);
    let test = put_head(draft, Task::Turns(body), next, depth)?;
    let first = emit(alloc, draft, body, test, depth + 1)?;
    set_first(&mut draft.ops, i, first);
    Ok(first)
}

// The code of statements one after another.
#[cycle(emit)]
fn emit_all<'a>(
    alloc: Global,
    draft: &mut Draft<'a>,
    all: &'a [Statement],
    next: usize,
    depth: usize,
) -> Result<usize, AllocError>
    requires ready { IsReady draft.old next depth }
    ensures emitted { IfOk result (λ p. IsEmitted draft.old draft.new (flat_all all.entry.now) next p) }
    ensures numbers { IfOk result (λ _. Adds draft.old draft.new (numbers_all all.entry.now)) }
{
    let mut place = next;
    for i in (0..all.len()).rev() {
        place = emit(alloc, draft, &all[i], place, depth)?;
    }
    Ok(place)
}

/// Writes the code of a statement in front of what is done at `next`, where it stands in `depth` statements `repeat`. Answers its place.
#[cycle(emit)]
pub(crate) fn emit<'a>(
    alloc: Global,
    draft: &mut Draft<'a>,
    s: &'a Statement,
    next: usize,
    depth: usize,
) -> Result<usize, AllocError>
    requires ready { IsReady draft.old next depth }
    ensures emitted { IfOk result (λ p. IsEmitted draft.old draft.new (flat s.entry.now) next p) }
    ensures numbers { IfOk result (λ _. Adds draft.old draft.new (numbers s.entry.now)) }
{
    match s {
        Statement::Null(_)
        | Statement::Assign(_, _, _)
        | Statement::Later(_, _, _, _)
        | Statement::Finish(_) => put_statement(draft, s, next, next, next, depth, Extra::Nothing),
        Statement::Call(_, call) => {
            let extra = format_read(alloc, call)?;
            put_statement(draft, s, next, next, next, depth, extra)
        }
        Statement::Block(all) => emit_all(alloc, draft, all, next, depth),
        Statement::Delay(_, _, body) | Statement::Event(_, _, body) => {
            let first = emit(alloc, draft, body, next, depth)?;
            put_statement(draft, s, next, first, next, depth, Extra::Nothing)
        }
        Statement::If(_, _, a, b) => {
            let second = emit(alloc, draft, b, next, depth)?;
            let first = emit(alloc, draft, a, next, depth)?;
            put_statement(draft, s, next, first, second, depth, Extra::Nothing)
        }
        Statement::Case(_, _, _, items) => {
            let starts = emit_items(alloc, draft, items, next, depth)?;
            put_statement(draft, s, next, next, next, depth, Extra::Starts(starts))
        }
        Statement::While(_, _, body) | Statement::Forever(_, body) => {
            emit_loop(alloc, draft, body, s, next, depth)
        }
        Statement::Repeat(_, _, _, body) => {
            let first = emit_turns(alloc, draft, body, next, depth)?;
            put_statement(draft, s, next, first, next, depth, Extra::Nothing)
        }
    }
}
