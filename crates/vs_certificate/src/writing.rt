//! The text of a certificate.

ghost use Rattle.std.specs.Prelude.{◌≡◌, ◌≤◌, true, length, IfOk};
ghost use Rattle.serde_json.specs.Written.{compact_text};
ghost use Rattle.vs_certificate.specs.declared.members.Certificate.{Certificate};
ghost use Rattle.vs_certificate.specs.JsonValue.{value_of};
ghost use Rattle.vs_certificate.specs.Limits.{is_within_limits};
ghost use Rattle.vs_certificate.specs.Reading.{NarrowIsWide, PassesAs, ReadsBack, max_len};
ghost use Rattle.vs_certificate.specs.Versions.{has_own_words};

use crate::form::JsonForm;
use crate::members::Certificate;
use std::alloc::{AllocError, Global};

/// The text of a certificate: compact, that is with no space, and the members of each object in the byte order of their
/// names.
pub fn to_json(alloc: Global, certificate: &Certificate) -> Result<Vec<u8>, AllocError>
    ensures text { IfOk result (λ text. text.items ≡ compact_text (value_of certificate.now)) }
    // It reads as the certificate's value again, and passes each test of the reader of its version where each start,
    // kind and mode is one of the version, the limits hold and it isn't over 16 MiB.
    ensures reads_back { IfOk result (λ text. has_own_words certificate.now ≡ true
        → is_within_limits (value_of certificate.now) ≡ true
        → length text.items ≤ max_len → PassesAs certificate.now text.items) }
{
    certificate.to_value(alloc)?.to_vec(alloc)
}

/// What is written of a certificate within its limits passes each test and reads as that certificate, where each start,
/// kind and mode is one of its version and it isn't over 16 MiB. A certificate of version 1 or 2 is read by `from_json`,
/// one of version 3 by `from_json_wide`.
pub fn written_reads_back()
    ensures { (c : Certificate) → ReadsBack c }
{}

/// What `from_json` reads, `from_json_wide` reads as the same.
pub fn narrow_is_wide()
    ensures { NarrowIsWide }
{}
