//! What a proposer answers.

use vs_certificate::Certificate;

/// A certificate for a design, or why the best one that was tried isn't accepted.
#[derive(Drop)]
pub enum Proposal {
    /// The design keeps all rules under this certificate.
    Made(Certificate),
    /// No such certificate was found.
    NotMade(Refusal),
}

/// The best certificate that was tried, and why it isn't accepted. It claims nothing where the design has more signals, processes or continuous
/// assignments than a certificate may list, or more delay controls in one process.
#[derive(Drop)]
pub struct Refusal {
    /// The certificate.
    pub certificate: Certificate,
    /// The number of the rule, K1 to K11, that the design breaks under it; it breaks none before that.
    pub number: u8,
    /// The name of the first subject at which the design breaks that rule, as it is printed.
    pub place: Vec<u8>,
}
