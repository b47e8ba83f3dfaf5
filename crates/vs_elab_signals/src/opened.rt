//! Scopes of a source, as they are listed.
ghost use Rattle.std.specs.Prelude.{◌≡◌, []};

use crate::vs_scopes::ScopePiece;
use crate::vs_widths::Names;
use std::alloc::Global;
use vs_design::{Entry, ScopeKind, Signal};
use vs_scopes::vs_widths::{Binding, Const};
use vs_scopes::{ModulePort, PathName};
use vs_syntax::Expr;

/// A scope of a source: the top, an instance, a generate block or a named block (IEEE 1364-2005, clause 12.1).
///
/// Other scopes are told by their places in the list, so that none holds what another has: the path and the names outward are found by `around`.
pub struct ElabScope<'s> {
    /// Its own name in its path.
    pub title: PathName<'s>,
    /// What opened it.
    pub kind: ScopeKind,
    /// How many scopes stand before it in design order: its place in the list.
    pub number: usize,
    /// How many signals stand before it in design order.
    pub base: usize,
    /// How many instances stand before it in design order, the top among them.
    pub instances: usize,
    /// How many turns of generate loops stand before it in design order.
    pub turns: usize,
    /// In how many instances it stands, the top and itself among them.
    pub depth: usize,
    /// Whether undeclared names may be nets in it.
    pub nets: bool,
    /// The names that its text declares, with what they are bound to before its constants are known.
    pub text: Names<'s, Binding>,
    /// The ports and nets that its pieces declare, each with the place of the first piece that does.
    pub told: Names<'s, usize>,
    /// Its ports, in their order.
    pub ports: Vec<ModulePort<'s>>,
    /// What stands in it, with its implicit nets.
    pub pieces: Vec<ScopePiece<'s>>,
    /// Its parameters with their values, in the order of the text; before them the genvar of the turn that it is.
    pub constants: Vec<(&'s [u8], Const)>,
    /// What its own names are bound to in its constant expressions.
    pub known: Names<'s, Binding>,
    /// What its own names are bound to.
    pub names: Names<'s, Binding>,
    /// Of an instance, the names of the modules that it stands in, its own first.
    pub within: Vec<&'s [u8]>,
    /// The place of the instance that it stands in, which may be itself.
    pub home: usize,
    /// The place of the scope around it, where there is one.
    pub around: Option<usize>,
    /// The place of the piece that opens it among those of the scope around it.
    pub piece: usize,
    /// What its ports are connected to there, in their order.
    pub ends: Vec<Option<&'s Expr>>,
    /// The places of the scopes in it that are no turns of loops, by their names.
    pub blocks: Names<'s, usize>,
}

impl Drop for ElabScope<'_> {
    fn drop(self) {
        let Self {
            title: _,
            kind: _,
            number: _,
            base: _,
            instances: _,
            turns: _,
            depth: _,
            nets: _,
            text: _,
            told: _,
            ports: _,
            pieces: _,
            constants: _,
            known: _,
            names: _,
            within: _,
            home: _,
            around: _,
            piece: _,
            ends: _,
            blocks: _,
        } = self;
    }
}

/// The scopes of a source in design order, with their signals and their outline.
#[derive(Drop)]
pub struct Hierarchy<'s> {
    /// The scopes.
    pub scopes: Vec<ElabScope<'s>>,
    /// The signals.
    pub signals: Vec<Signal>,
    /// The outline.
    pub outline: Vec<Entry>,
}

/// What there is of a design beside its scopes so far.
#[derive(Drop)]
pub struct Numbering {
    /// How many instances there are, the top among them.
    pub instances: usize,
    /// How many turns of generate loops there are.
    pub turns: usize,
    /// The signals.
    pub signals: Vec<Signal>,
    /// The outline.
    pub outline: Vec<Entry>,
}

impl Numbering {
    /// Nothing.
    pub fn new(alloc: Global) -> Self
        ensures instances { result.instances ≡ 0 }
        ensures turns { result.turns ≡ 0 }
        ensures signals { result.signals.items ≡ [] }
        ensures outline { result.outline.items ≡ [] }
    {
        Numbering {
            instances: 0,
            turns: 0,
            signals: Vec::new(alloc),
            outline: Vec::new(alloc),
        }
    }
}
