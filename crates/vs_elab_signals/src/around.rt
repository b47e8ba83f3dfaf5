//! What is around a scope.
ghost use Rattle.std.specs.Prelude.{◌≡◌, ℕ, List};
ghost use Rattle.vs_scopes.specs.Nets.{Sight as Stands, is_declared, is_known};
ghost use Rattle.vs_scopes.specs.Scopes.{Scope};
ghost use Rattle.vs_elab_signals.specs.Opened.{AreSeated};
ghost use Rattle.vs_elab_signals.specs.signal_passes.Sights.{IsSight};
ghost use Rattle.vs_elab_signals.specs.nets_passes.Nets.{IsAround, IsPlaced};

use crate::{ElabScope, Sight, sight_around};
use vs_design::ScopeKind;
use vs_elab_constants::vs_widths::Names;
use vs_scopes::vs_widths::Binding;

/// What is around a scope: the scopes before it, what it is, the place of the scope around it, and that of the piece there that opens it.
#[derive(Clone, Copy)]
pub struct Enclosing<'a, 's> {
    /// The scopes.
    pub list: &'a [ElabScope<'s>],
    /// What it is.
    pub kind: ScopeKind,
    /// The place of the scope around it, where there is one.
    pub around: Option<usize>,
    /// The place of the piece.
    pub piece: usize,
}

/// Whether a name is declared, also behind.
fn is_declared(sight: Sight) -> bool
    ensures { (ss : List Scope) (n : List ℕ) (x : Stands) → IsSight ss n x sight → result ≡ is_declared x }
{
    match sight {
        Sight::Unseen => false,
        Sight::Seen => true,
        Sight::Coming(_) => true,
    }
}

/// Whether a name is declared in a scope whose text declares these names, or stands declared around it.
pub fn is_known(around: Enclosing, text: &Names<Binding>, name: &[u8]) -> bool
    requires place { IsPlaced around }
    requires seated { AreSeated around.list.now }
    ensures { (ss : List Scope) (s : Scope) → IsAround ss around.entry s → result ≡ is_known text.now s.sight name.now }
{
    if text.find(name).is_some() {
        return true;
    }
    is_declared(sight_around(around.list, around.kind, around.around, around.piece, name))
}
