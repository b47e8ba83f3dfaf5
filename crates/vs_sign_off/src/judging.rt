//! The verdict on a certificate, from bytes.
ghost use Rattle.std.specs.Prelude.{IfOk, IfErr};
ghost use Rattle.vs_sign_off.specs.Judged.{IsJudged, IsJudgedBy, JudgingFails, JudgingFailsBy};

use crate::fault::CertifiedFault;
use std::alloc::Global;
use vs_cert_check::{Verdict, check_by};
use vs_certificate::{Rules, from_json_by};
use vs_simulate::design_of;

/// The verdict on a certificate, which is given by its JSON text, of the design that a source and the name of a top module define: `Yes` exactly
/// where the design keeps all rules K1 to K11, else the least rule that it breaks, and the first subject that breaks it. Where it is `Yes`, the
/// traces of the design's executions at the certificate's grain do not depend on the order of their steps (IEEE 1364-2005, clause 11.4.2). The
/// source is read first, and then the certificate. Nothing is run.
pub fn judge<'s>(
    alloc: Global,
    source: &'s [u8],
    top: &[u8],
    certificate: &[u8],
) -> Result<Verdict, CertifiedFault<'s>>
    ensures judged { IfOk result (λ v. IsJudged source.entry.now top.now certificate.now v) }
    ensures fault { IfErr result (λ fault. JudgingFails source.entry.now top.now certificate.now fault) }
{
    judge_by(alloc, Rules::Narrow, source, top, certificate)
}

/// The same, of a certificate of a version that is read by these rules.
pub fn judge_by<'s>(
    alloc: Global,
    rules: Rules,
    source: &'s [u8],
    top: &[u8],
    certificate: &[u8],
) -> Result<Verdict, CertifiedFault<'s>>
    ensures judged { IfOk result (λ v. IsJudgedBy rules source.entry.now top.now certificate.now v) }
    ensures fault { IfErr result (λ fault. JudgingFailsBy rules source.entry.now top.now certificate.now fault) }
{
    let design = design_of(alloc, source, top)?;
    let claimed = from_json_by(alloc, rules, certificate)?;
    let verdict = check_by(alloc, &design, rules, &claimed)?;
    Ok(verdict)
}
