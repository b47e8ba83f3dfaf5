//! A certificate from its text.

ghost use Rattle.std.specs.Prelude.{◌≡◌, true, IfOk, IfErr, MatchResult};
ghost use Rattle.serde_json.specs.Data.{Data};
ghost use Rattle.serde_json.specs.View.{view};
ghost use Rattle.vs_certificate.specs.JsonValue.{value_of};
ghost use Rattle.vs_certificate.specs.Shape.{is_whole, is_certificate};
ghost use Rattle.vs_certificate.specs.Limits.{is_within_limits};
ghost use Rattle.vs_certificate.specs.Reading.{IsJson, FailsForm, Passes, PassesBy, PassesWide, IsFaultBy, IsFaultOf, IsWideFaultOf, IsUnread, other_by};
ghost use Rattle.vs_certificate.specs.Reading as Reading;

use crate::fault::CertFault;
use crate::form::{JsonForm, Numbers};
use crate::members::{Certificate, Rules};
use serde_json::Value;
use std::alloc::Global;

const MAX_LEN: usize = 16_777_216;

/// The certificate whose JSON text the bytes are. The tests are made in the order C1, C3, C2, C4, and the first that
/// fails is told; `Memory` may come in place of any answer, where a growth was refused.
pub fn from_json(alloc: Global, bytes: &[u8]) -> Result<Certificate, CertFault>
    // What is answered is what the bytes say, and no test fails of them.
    ensures ok { IfOk result (λ c. Passes bytes.now (value_of c)) }
    // Where no test fails, what the bytes say is answered.
    ensures only { (d : Data) → Passes bytes.now d
        → MatchResult result (λ c. value_of c ≡ d) (λ e. e ≡ CertFault.Memory) }
    // A fault is that of the first test that fails.
    ensures fault { IfErr result (IsFaultOf bytes.now) }
{
    from_json_by(alloc, Rules::Narrow, bytes)
}

/// The certificate, of version 3 too, whose JSON text the bytes are. The tests are those of `from_json`, but C3 passes of
/// version 3.
pub fn from_json_wide(alloc: Global, bytes: &[u8]) -> Result<Certificate, CertFault>
    // What is answered is what the bytes say, and no test fails of them.
    ensures ok { IfOk result (λ c. PassesWide bytes.now (value_of c)) }
    // Where no test fails, what the bytes say is answered.
    ensures only { (d : Data) → PassesWide bytes.now d
        → MatchResult result (λ c. value_of c ≡ d) (λ e. e ≡ CertFault.Memory) }
    // A fault is that of the first test that fails.
    ensures fault { IfErr result (IsWideFaultOf bytes.now) }
{
    from_json_by(alloc, Rules::Wide, bytes)
}

/// The certificate, of a version that is read by these rules, whose JSON text the bytes are: as `from_json` or as
/// `from_json_wide`.
pub fn from_json_by(alloc: Global, rules: Rules, bytes: &[u8]) -> Result<Certificate, CertFault>
    // What is answered is what the bytes say, and no test fails of them.
    ensures ok { IfOk result (λ c. PassesBy (other_by rules) bytes.now (value_of c)) }
    // Where no test fails, what the bytes say is answered.
    ensures only { (d : Data) → PassesBy (other_by rules) bytes.now d
        → MatchResult result (λ c. value_of c ≡ d) (λ e. e ≡ CertFault.Memory) }
    // A fault is that of the first test that fails.
    ensures fault { IfErr result (IsFaultBy (other_by rules) bytes.now) }
{
    let json = value_from(alloc, bytes)?;
    if is_other(rules, &json) {
        return Err(CertFault::Version);
    }
    certificate_from(alloc, &json)
}

/// The JSON value whose text the bytes are.
fn value_from(alloc: Global, bytes: &[u8]) -> Result<Value, CertFault>
    ensures ok { IfOk result (λ v. IsJson bytes.now (view v)) }
    ensures err { IfErr result (IsUnread bytes.now) }
{
    if bytes.len() > MAX_LEN {
        return Err(CertFault::NotJson);
    }
    match Value::from_slice(alloc, bytes) {
        Ok(json) => Ok(json),
        Err(e) => if e.is_memory() {
            Err(CertFault::Memory)
        } else {
            Err(CertFault::NotJson)
        },
    }
}

/// The certificate that has this JSON value.
fn certificate_from(alloc: Global, json: &Value) -> Result<Certificate, CertFault>
    ensures value { IfOk result (λ c. value_of c ≡ view json.now) }
    ensures shape { IfOk result (λ _. is_certificate is_whole (view json.now) ≡ true) }
    ensures limits { IfOk result (λ _. is_within_limits (view json.now) ≡ true) }
    ensures fault { IfErr result (FailsForm (view json.now)) }
{
    if !Certificate::has_form(json, Numbers::Whole) {
        return Err(CertFault::Shape);
    }
    // No limit lets a negative number through.
    if !Certificate::has_form(json, Numbers::Natural) {
        return Err(CertFault::Limit);
    }
    let Ok(certificate) = Certificate::from_value(alloc, json) else {
        return Err(CertFault::Memory);
    };
    if !certificate.is_within_limits() {
        return Err(CertFault::Limit);
    }
    Ok(certificate)
}

/// Whether the version is a whole number other than those that are read.
fn is_other(rules: Rules, json: &Value) -> bool
    ensures { result ≡ other_by rules (view json.now) }
{
    match rules {
        Rules::Narrow => is_other_version(json),
        Rules::Wide => is_unknown_version(json),
    }
}

/// Whether the version is a whole number other than 1 and 2.
fn is_other_version(json: &Value) -> bool
    ensures { result ≡ Reading.is_other_version (view json.now) }
{
    match json.get("version") {
        Some(version) => {
            let number = version.as_u64();
            (version.is_u64() || version.is_i64()) && number != Some(1) && number != Some(2)
        },
        None => false,
    }
}

/// Whether the version is a whole number other than 1, 2 and 3.
fn is_unknown_version(json: &Value) -> bool
    ensures { result ≡ Reading.is_unknown_version (view json.now) }
{
    match json.get("version") {
        Some(version) => {
            let number = version.as_u64();
            (version.is_u64() || version.is_i64())
                && number != Some(1)
                && number != Some(2)
                && number != Some(3)
        },
        None => false,
    }
}
