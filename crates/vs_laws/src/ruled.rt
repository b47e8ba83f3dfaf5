//! Designs that keep the rules of a certificate, and designs that keep those of none.
ghost use Rattle.vs_laws.specs.Block.{ABlockAtANetKeepsTheRules, ABlockKeepsTheRules};
ghost use Rattle.vs_laws.specs.Mixer.{AMixerKeepsTheRules};
ghost use Rattle.vs_laws.specs.RaceRules.{ARaceKeepsNoRules};
ghost use Rattle.vs_laws.specs.RiseRules.{ARiseKeepsTheRules, AWrongModeIsReported};
ghost use Rattle.vs_laws.specs.Swap.{AClockedDesignKeepsTheRules, ARaceOfEdgesKeepsNoRules};

/// A well formed design in which a write of one process fires another one, which reads the signal that fired it, keeps the rules of a certificate.
pub fn a_rise_keeps_the_rules()
    ensures { ARiseKeepsTheRules }
{}

/// Under a certificate that claims another mode of a signal it breaks a rule, and which and where is told.
pub fn a_wrong_mode_is_reported()
    ensures { AWrongModeIsReported }
{}

/// A well formed design with a combinational block keeps the rules of a certificate, with each start that a block can have.
pub fn a_block_keeps_the_rules()
    ensures { ABlockKeepsTheRules }
{}

/// So does one whose block waits for a net that copies the variable, with both starts that it can have then.
pub fn a_block_at_a_net_keeps_the_rules()
    ensures { ABlockAtANetKeepsTheRules }
{}

/// So does one whose block writes two variables, and reads the first for the second, with the two starts of a certificate of version 1.
pub fn a_mixer_keeps_the_rules()
    ensures { AMixerKeepsTheRules }
{}

/// A well formed design of a clock and two processes that exchange two bits by `<=` at its rising edges keeps the rules of a certificate.
pub fn a_clocked_design_keeps_the_rules()
    ensures { AClockedDesignKeepsTheRules }
{}

/// A design in which two processes write one signal at once keeps the rules of no certificate.
pub fn a_race_keeps_no_rules()
    ensures { ARaceKeepsNoRules }
{}

/// A well formed design in which two processes exchange two bits by `=` at one clock edge is not independent, and keeps the rules of no certificate.
pub fn a_race_of_edges_keeps_no_rules()
    ensures { ARaceOfEdgesKeepsNoRules }
{}
