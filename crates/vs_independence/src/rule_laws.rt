//! What the rules of certificates are for.
ghost use Rattle.vs_independence.specs.RuleLaws.{ClocksTurn, RulesDiscipline, RulesMakeDisplaysAlike, RulesMakeIndependent};

/// A well formed design that keeps the rules has what the independence of its traces rests on.
pub fn rules_discipline()
    ensures { RulesDiscipline }
{}

/// The traces of a well formed design that keeps the rules do not depend on the order of its steps.
pub fn rules_make_independent()
    ensures { RulesMakeIndependent }
{}

/// Where its certificate says `displays`, each of its processes that is no combinational block prints the same lines by `$display`, in the same
/// order, in each slot, in whatever order its steps are taken (IEEE 1364-2005, clause 17.1.1).
pub fn rules_make_displays_alike()
    ensures { RulesMakeDisplaysAlike }
{}

/// The clocks of such a design turn in phase; one of version 3 that no process sets in the first slot stays x.
pub fn clocks_turn()
    ensures { ClocksTurn }
{}
