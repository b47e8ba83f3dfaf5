//! How a certificate reads.

use std::alloc::{AllocError, Global};
use vs_certificate::{CertFault, Certificate, from_json, to_json};

// What is written of a certificate.
fn written(
    alloc: Global,
    bytes: &[u8],
    certificate: &Certificate,
) -> Result<&'static str, AllocError> {
    let written = to_json(alloc, certificate)?;
    if certificate.is_sound() && written.as_slice() == bytes {
        return Ok("as it was");
    }
    Ok("otherwise")
}

// Whether bytes are written back as they were, or the number of their fault. A refused growth is the test's own error, so that no other answer can
// hide it.
pub fn certificate_answer(alloc: Global, bytes: &[u8]) -> Result<&'static str, AllocError> {
    match from_json(alloc, bytes) {
        Ok(certificate) => written(alloc, bytes, &certificate),
        Err(CertFault::Memory) => Err(AllocError),
        Err(fault) => Ok(fault.text()),
    }
}
