//! Designs that are disciplined, and one that is not.
ghost use Rattle.vs_laws.specs.Carry.{ACarryIsDisciplined};
ghost use Rattle.vs_laws.specs.Lines.{LinesAreSeen};
ghost use Rattle.vs_laws.specs.Mirror.{ABlockIsDisciplined};
ghost use Rattle.vs_laws.specs.Race.{ARaceIsSeen};
ghost use Rattle.vs_laws.specs.Rise.{ARiseIsDisciplined};

/// A well formed design in which two processes write one signal at once is independent at no grain: the definition says something.
pub fn a_race_is_seen()
    ensures { ARaceIsSeen }
{}

/// A well formed design in which a process prints by `$display` what another one writes at once prints alike at no grain: that definition says
/// something too.
pub fn lines_are_seen()
    ensures { LinesAreSeen }
{}

/// A well formed design whose continuous assignments drive bits of one net, each by the one before, is disciplined: a chain through a net is no circle.
pub fn a_carry_is_disciplined()
    ensures { ACarryIsDisciplined }
{}

/// A well formed design with a combinational block is disciplined at grain block: what is asked of blocks can be met.
pub fn a_block_is_disciplined()
    ensures { ABlockIsDisciplined }
{}

/// A well formed design in which a write of one process fires another one, which reads the signal that fired it, is disciplined; and some execution
/// of it does so: event controls are no hole in the definition.
pub fn a_rise_is_disciplined()
    ensures { ARiseIsDisciplined }
{}
