//! The steps of a process that makes calls: what its script has, and what its cursor writes.
ghost use Rattle.std.specs.Prelude.{◌≡◌, true};
ghost use Rattle.vs_design.specs.WellFormed.{counts_from, numbers};

use crate::calls::call;
use crate::small_design::target_a;
use std::alloc::Global;
use std::process::Abort;
use vs_design::vs_logic4::Vec4;
use vs_design::{CallKind, Design, Statement, Store, Ticks, Typed};
use vs_process::vs_strobe::full_line;
use vs_process::{Action, Code, Cursor, Script, compile};

/// `1'b1`.
fn one() -> Typed {
    Typed::Number(Vec4::from_number(1, 1))
}

/// `begin $display("%b", a); a = 1'b1; a = 1'b1; $strobe("p"); a <= #5 1'b1; $finish; end`.
fn body(rt: &impl Abort, alloc: Global) -> Statement
    ensures { counts_from 0 (numbers result) ≡ true }
{
    let display = call(rt, alloc, CallKind::Display, "%b", "a");
    let strobe = call(rt, alloc, CallKind::Strobe, "p", "");
    let (first, second) = (target_a(rt, alloc), target_a(rt, alloc));
    let later = target_a(rt, alloc);
    let all = vec![in alloc;
        Statement::Call(0, display),
        Statement::Assign(1, first, one()),
        Statement::Assign(2, second, one()),
        Statement::Call(3, strobe),
        Statement::Later(4, Ticks { count: 5 }, later, one()),
        Statement::Finish(5),
    ]
    .expect(rt, "memory");
    Statement::Block(all)
}

/// Writes a letter for what an instruction does, and the text of that: a line, or the last digit of the ticks.
fn tell(rt: &impl Abort, alloc: Global, action: &Action, store: &Store, out: &mut Vec<u8>) {
    match action {
        Action::Display(format) => {
            out.extend_from_slice(b"l").expect(rt, "memory");
            let line = full_line(alloc, format, store, 0).expect(rt, "memory");
            out.extend_from_slice(&line)
        }
        Action::Strobe(format) => {
            out.extend_from_slice(b"s").expect(rt, "memory");
            let line = full_line(alloc, format, store, 0).expect(rt, "memory");
            out.extend_from_slice(&line)
        }
        Action::Update(_, _) => out.extend_from_slice(b"u0"),
        Action::UpdateAny(ticks, _, _) => {
            out.extend_from_slice(&[b'u', b'0' + (ticks.count % 10) as u8])
        }
        Action::Finish => out.extend_from_slice(b"f"),
        _ => out.extend_from_slice(b"n"),
    }
    .expect(rt, "memory");
}

/// A step of a process: a letter where it changes `a`.
fn step(
    rt: &impl Abort,
    alloc: Global,
    cursor: &mut Cursor<'_>,
    store: &mut Store,
    out: &mut Vec<u8>,
) {
    let before = store.word(1, 0);
    cursor.step(alloc, store, 0).expect(rt, "memory");
    if store.word(1, 0) != before {
        out.extend_from_slice(b"w").expect(rt, "memory");
    }
}

/// So many steps of a process with this code.
fn steps(
    rt: &impl Abort,
    alloc: Global,
    design: &Design,
    code: &Code,
    count: usize,
    store: &mut Store,
) -> Vec<u8>
    requires { counts_from 0 (numbers code.now) ≡ true }
{
    let script = Script::new(alloc, design, code).expect(rt, "memory");
    let mut cursor = Cursor::start(alloc, code).expect(rt, "memory");
    let mut index = script.start();
    let mut out = Vec::new(alloc);
    for _ in 0..count {
        if let Some(instruction) = script.instructions().get(index) {
            step(rt, alloc, &mut cursor, store, &mut out);
            tell(rt, alloc, &instruction.action, store, &mut out);
            index = instruction.next;
        }
    }
    out
}

/// So many steps of a process of a design with the body.
pub fn steps_of_a_body(
    rt: &impl Abort,
    alloc: Global,
    design: &Design,
    count: usize,
    store: &mut Store,
) -> Vec<u8> {
    let body = body(rt, alloc);
    let code = compile(alloc, &body).expect(rt, "memory");
    steps(rt, alloc, design, &code, count, store)
}
