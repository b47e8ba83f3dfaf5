//! Whether undeclared names are nets.
ghost use Rattle.std.specs.Prelude.{◌≡◌};
ghost use Rattle.vs_scopes.specs.Nets.{permits, permits_after};

use vs_syntax::vs_lexer::{Directive, ImplicitNet};

/// Whether undeclared names are nets behind a directive, where it was so before it (IEEE 1364-2005, clause 19.2).
fn permits(before: bool, directive: Directive) -> bool
    ensures { result ≡ permits before directive }
{
    match directive {
        Directive::Timescale {
            unit: _,
            precision: _,
        } => before,
        Directive::DefaultNettype(ImplicitNet::Wire) => true,
        Directive::DefaultNettype(ImplicitNet::Forbidden) => false,
    }
}

/// Whether undeclared names are nets behind directives, where it was so before them (IEEE 1364-2005, clause 19.2).
pub fn permits_after(before: bool, directives: &[Directive]) -> bool
    ensures { result ≡ permits_after before directives.now }
{
    let mut allowed = before;
    for directive in directives {
        allowed = permits(allowed, *directive);
    }
    allowed
}
