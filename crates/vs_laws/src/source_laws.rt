//! The law that a source decides verdicts.
ghost use Rattle.vs_laws.specs.Decided.{SourceDecides};

use vs_elaborate::one_design;

/// Two designs that a source and a top define have the same verdict under each certificate.
pub fn source_decides()
    ensures { SourceDecides }
{
    one_design();
}
