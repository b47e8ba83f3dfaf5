//! Bytes that are no certificate.

use std::alloc::{AllocError, Global};
use vs_explain_certificate::vs_certificate::{CertFault, Rules};
use vs_explain_certificate::{CertificatePlace, explain_malformed};
use vs_explain_outline::{Explanation, Page};

/// Where and why bytes are no certificate that is read by these rules; they stand on the first line of an input or alone.
pub fn explain_certificate(
    alloc: Global,
    certificate: &[u8],
    rules: Rules,
    stands: CertificatePlace,
    fault: CertFault,
) -> Result<Explanation, AllocError> {
    let mut page = Page::new(alloc);
    explain_malformed(&mut page, certificate, rules, stands, fault);
    page.finish()
}
