//! A run that stands for all permitted ones, from bytes.
ghost use Rattle.std.specs.Prelude.{◌≡◌, ◌<◌, ◌^◌, true, false, IfOk, IfErr};
ghost use Rattle.vs_sign_off.specs.Certified.{IsCertifiedRun, IsCertifiedRunBy, HasBegunCertifiedRun, HasBegunCertifiedRunBy, CertifyingFails, CertifyingFailsBy, is_before_run, is_write};
ghost use Rattle.vs_simulate.specs.vs_kernel.specs.Faults.{OneFailed};

use crate::fault::CertifiedFault;
use std::alloc::Global;
use vs_cert_check::{Verdict, check_by};
use vs_certificate::{Rules, from_json_by};
use vs_independence::lines_are_of_slots;
use vs_simulate::vs_kernel::vs_vcd_writing::Sink;
use vs_simulate::vs_kernel::{Outcome, dumps_show_slot_ends};
use vs_simulate::{Policy, design_of, names_of_one_line, run_design};

/// Runs the design that a source and the name of a top module define, as `simulate` does, where it keeps all rules of a certificate, which is given
/// by its JSON text. The source is read first, then the certificate, and then the rules are checked. Unless the design keeps them all nothing is
/// run, and nothing is written.
///
/// Where it answers an outcome other than the step limit, the run stands for all: each execution that is permitted at the certificate's grain and
/// complete to `until` has the trace whose value change dump was written to `vcd`, and its lines of `$strobe` stand in what was written to `lines`,
/// slot by slot, each as often (IEEE 1364-2005, clauses 11, 17.1 and 18).
pub fn certified<'s, V: Sink, L: Sink>(
    alloc: Global,
    source: &'s [u8],
    top: &[u8],
    certificate: &[u8],
    until: u64,
    steps: u64,
    vcd: &mut V,
    lines: &mut L,
) -> Result<Outcome, CertifiedFault<'s>>
    requires until { until < 2 ^ 62 }
    requires steps { steps < 2 ^ 62 }
    ensures honest { IfOk result (λ outcome. IsCertifiedRun source.entry.now top.now certificate.now until steps outcome
        (V.bytes vcd.old) (V.bytes vcd.new) (L.bytes lines.old) (L.bytes lines.new)) }
    ensures fault { IfErr result (λ fault. CertifyingFails source.entry.now top.now certificate.now fault) }
    ensures refused { IfErr result (λ fault. is_before_run fault ≡ true → (vcd.new ≡ vcd.old) × (lines.new ≡ lines.old)) }
    ensures begun { IfErr result (λ fault. is_before_run fault ≡ false →
        HasBegunCertifiedRun source.entry.now top.now certificate.now until steps
        (V.bytes vcd.old) (V.bytes vcd.new) (L.bytes lines.old) (L.bytes lines.new)) }
    // A failed write is told only where the count of a sink rose.
    ensures failures { OneFailed (is_write result) (V.failed vcd.old) (V.failed vcd.new) (L.failed lines.old) (L.failed lines.new) }
{
    certified_by(
        alloc,
        Rules::Narrow,
        source,
        top,
        certificate,
        until,
        steps,
        vcd,
        lines,
    )
}

/// The same, by a certificate of a version that is read by these rules.
pub fn certified_by<'s, V: Sink, L: Sink>(
    alloc: Global,
    rules: Rules,
    source: &'s [u8],
    top: &[u8],
    certificate: &[u8],
    until: u64,
    steps: u64,
    vcd: &mut V,
    lines: &mut L,
) -> Result<Outcome, CertifiedFault<'s>>
    requires until { until < 2 ^ 62 }
    requires steps { steps < 2 ^ 62 }
    ensures honest { IfOk result (λ outcome. IsCertifiedRunBy rules source.entry.now top.now certificate.now until steps outcome
        (V.bytes vcd.old) (V.bytes vcd.new) (L.bytes lines.old) (L.bytes lines.new)) }
    ensures fault { IfErr result (λ fault. CertifyingFailsBy rules source.entry.now top.now certificate.now fault) }
    ensures refused { IfErr result (λ fault. is_before_run fault ≡ true → (vcd.new ≡ vcd.old) × (lines.new ≡ lines.old)) }
    ensures begun { IfErr result (λ fault. is_before_run fault ≡ false →
        HasBegunCertifiedRunBy rules source.entry.now top.now certificate.now until steps
        (V.bytes vcd.old) (V.bytes vcd.new) (L.bytes lines.old) (L.bytes lines.new)) }
    // A failed write is told only where the count of a sink rose.
    ensures failures { OneFailed (is_write result) (V.failed vcd.old) (V.failed vcd.new) (L.failed lines.old) (L.failed lines.new) }
{
    dumps_show_slot_ends();
    names_of_one_line();
    lines_are_of_slots();
    let design = design_of(alloc, source, top)?;
    let claimed = from_json_by(alloc, rules, certificate)?;
    let verdict = check_by(alloc, &design, rules, &claimed)?;
    match verdict {
        Verdict::Yes => {
            let outcome = run_design(alloc, &design, &Policy::Fifo, until, steps, vcd, lines)?;
            Ok(outcome)
        }
        Verdict::No(number, place) => Err(CertifiedFault::Rejected(number, place)),
    }
}
