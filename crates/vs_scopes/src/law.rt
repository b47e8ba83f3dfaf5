//! A law of the names that a source uses: the contract of a function that does nothing.
ghost use Rattle.vs_scopes.specs.Uses.{UsedAreTokens};

/// What holds of each token of a text holds of each name that its source uses where an undeclared one is a net (IEEE 1364-2005, clause 4.5).
pub fn used_are_tokens()
    ensures { UsedAreTokens }
{}
