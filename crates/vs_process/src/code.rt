//! The flat code of a process.
ghost use Rattle.std.specs.Prelude.{◌≡◌, IfOk};
ghost use Rattle.vs_process.specs.Codes.{IsCodeOf};

use crate::draft::{Draft, Op, emit};
use std::alloc::{AllocError, Global};
use std::marker::Model;
use vs_design::Statement;

/// The flat code of a process: its statements and the tests of its statements `repeat`, each with the places where it goes on. A contract
/// sees it as the statement whose code it is.
#[derive(Drop)]
pub struct Code<'a> {
    body: &'a Statement,
    draft: Draft<'a>,
    start: usize,
}

impl<'a> Model for Code<'a> {
    ghost use Rattle.std.specs.Coded.{codes};
    ghost use Rattle.vs_design.specs.contracts.statement.Statement as statement;
    ghost use Rattle.vs_design.specs.declared.statement.Statement.{Statement};
    ghost use Rattle.vs_process.specs.Codes.{IsCodeOf};

    ghost Value = { Statement };

    ghost coded = { Prim.hlevel (codes, statement.the_row.coded) };

    ghost view = { λ c. c.body.now };

    ghost invariant = { λ c. IsCodeOf c.body.now c.draft.ops.items c.draft.counters c.start };
}

/// The code of a process's body. It takes as long as the body is, and calls go as deep as its statements are nested.
pub fn compile<'a>(alloc: Global, body: &'a Statement) -> Result<Code<'a>, AllocError>
    ensures { IfOk result (λ code. code ≡ body.entry.now) }
{
    let mut draft = Draft {
        ops: Vec::new(alloc),
        counters: 0,
    };
    let start = emit(alloc, &mut draft, body, 0, 0)?;
    Ok(Code { body, draft, start })
}

impl<'a> Code<'a> {
    /// Its instructions, how many counters they have, and the place where it starts.
    pub(crate) fn parts(&'a self) -> (&'a [Op<'a>], usize, usize)
        ensures { IsCodeOf self.entry.now result.0.now result.1 result.2 }
    {
        (&self.draft.ops, self.draft.counters, self.start)
    }
}
