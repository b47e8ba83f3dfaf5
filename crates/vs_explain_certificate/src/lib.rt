//! What is said of bytes that are no certificate, and where a certificate has a name.
#![tactic(auto)]

mod breaks;
mod forms;
mod malformed;
mod names;
mod walk;

pub use malformed::{CertificatePlace, explain_malformed, put_forgotten};
pub use names::{put_name_in, put_named_in};
pub use vs_certificate;
