//! A design that keeps the rules of a certificate of version 3, and one that breaks one of them.
ghost use Rattle.vs_laws.specs.Resets.{AResetKeepsTheRules, AnEarlyResetIsReported};

/// A well formed design with an inverted reset, a clock that one process turns by `!` and another one sets beside other statements, and a process that
/// waits for an edge and then for a time, keeps the rules of a certificate of version 3.
pub fn a_reset_keeps_the_rules()
    ensures { AResetKeepsTheRules }
{}

/// Where it is reset at the start, it breaks a rule, and which and where is told.
pub fn an_early_reset_is_reported()
    ensures { AnEarlyResetIsReported }
{}
