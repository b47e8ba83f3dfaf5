//! Why bytes are no certificate.
ghost use Rattle.std.specs.Prelude.{◌≡◌};
ghost use Rattle.vs_certificate.specs.Reading.{fault_text};

use thiserror::Error;

/// Why bytes are no certificate. The tests are made in the order C1, C3, C2, C4, and the first that fails is told.
#[derive(Clone, Copy, Debug, PartialEq, Eq, Error)]
pub enum CertFault {
    /// C1: the bytes are no JSON text, or more than 16 MiB.
    #[error("C1")]
    NotJson,
    /// C2: a member is missing, unknown or of the wrong kind, or goes against its process's kind or the version.
    #[error("C2")]
    Shape,
    /// C3: a whole-number version other than those that the reader knows.
    #[error("C3")]
    Version,
    /// C4: a limit is passed, or residues don't rise.
    #[error("C4")]
    Limit,
    /// A growth was refused.
    #[error("memory")]
    Memory,
}

impl CertFault {
    /// The text that is to be printed of the fault: its number.
    pub fn text(self) -> &'static str
        ensures { result.now ≡ fault_text self }
    {
        match self {
            CertFault::NotJson => "C1",
            CertFault::Shape => "C2",
            CertFault::Version => "C3",
            CertFault::Limit => "C4",
            CertFault::Memory => "memory",
        }
    }
}
