//! What a checker answers.

/// A verdict on a certificate.
#[derive(Drop)]
pub enum Verdict {
    /// The design keeps all rules.
    Yes,
    /// It breaks the rule K1 to K11 of this number, and none before it; with the name of the first subject at which it breaks it, as it is printed.
    No(u8, Vec<u8>),
}

/// A subject that breaks a rule.
#[derive(Drop)]
pub struct Broken {
    /// The rule's number, from 1 on.
    pub number: u8,
    /// The subject's name, as a verdict tells it.
    pub place: Vec<u8>,
}

/// A verdict, and subjects that break rules.
#[derive(Drop)]
pub struct VerdictReport {
    /// The verdict.
    pub verdict: Verdict,
    /// The subjects.
    pub broken: Vec<Broken>,
}
