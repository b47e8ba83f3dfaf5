//! Laws of verdicts.
ghost use Rattle.vs_cert_check.specs.Verdicts.{LeastIsVerdict};

/// The least of the rules, in their order, that one of the subjects breaks, and the first such subject, are a verdict.
pub fn least_is_verdict()
    ensures { LeastIsVerdict }
{}
