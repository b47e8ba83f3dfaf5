//! Designs that keep the rules of a certificate since their processes run at different residues.
ghost use Rattle.vs_laws.specs.Late.{ALateReadKeepsTheRules};
ghost use Rattle.vs_laws.specs.Roots.{TwoRootsKeepTheRules};

/// A well formed design in which a process waits for edges of two roots, one by a net that copies it, and prints by `$display` what it waits for, keeps
/// the rules of a certificate that says `displays`; so its lines do not depend on the order of its steps.
pub fn two_roots_keep_the_rules()
    ensures { TwoRootsKeepTheRules }
{}

/// So does one in which a process with delays reads what a process that waits for edges writes by `=`, at another residue.
pub fn a_late_read_keeps_the_rules()
    ensures { ALateReadKeepsTheRules }
{}
