//! What a declaration says of its names.
ghost use Rattle.std.specs.Prelude.{◌≡◌};
ghost use Rattle.vs_scopes.specs.Overrides.{said};
ghost use Rattle.vs_scopes.specs.passes.Ends.{read_end};

/// What is said of a name, and of those before it where nothing is said (IEEE 1364-2005, clause 12.2).
pub fn said<'s, T>(before: Option<&'s T>, here: &'s Option<T>) -> Option<&'s T>
    ensures { read_end result ≡ said (read_end before.entry) here.entry.now }
{
    match here {
        Some(form) => Some(form),
        None => before,
    }
}
