//! The JSON form of a certificate as a whole.

ghost use Rattle.std.specs.Prelude.{◌≡◌, ◌||◌, IsTrue, IfOk};
ghost use Rattle.serde_json.specs.View.{view, members_view};
ghost use Rattle.vs_certificate.specs.JsonValue.{value_of, put_own};
ghost use Rattle.vs_certificate.specs.Shape.{is_natural, is_whole, is_number_of, is_certificate, has_shared};
ghost use Rattle.vs_certificate.specs.Shape as Shape;
ghost use Rattle.vs_certificate.specs.Versions.{IsOfVersion};

use crate::form::{
    JsonForm, Numbers, from_value_at, has_form_at, has_names, is_number_at, is_word_at, with_member,
};
use crate::members::{Certificate, ClaimedGrain, EdgeSignal, ProcessEntry, SignalEntry, Version};
use serde_json::{Map, Value};
use std::alloc::{AllocError, Global};

impl JsonForm for Certificate {
    ghost json_value = { value_of };

    ghost json_shape = { is_certificate };

    fn to_value(&self, alloc: Global) -> Result<Value, AllocError> {
        let members = with_own_members(alloc, Map::new(alloc), self.version)?;
        let members = with_member(alloc, members, "edges", &self.edges)?;
        let members = with_member(alloc, members, "grain", &self.grain)?;
        let members = with_member(alloc, members, "modulus", &self.modulus)?;
        let members = with_member(alloc, members, "order", &self.order)?;
        let members = with_member(alloc, members, "processes", &self.processes)?;
        let members = with_member(alloc, members, "signals", &self.signals)?;
        let members = with_member(alloc, members, "version", &self.version.number())?;
        Ok(Value::Object(members))
    }

    fn has_form(json: &Value, numbers: Numbers) -> bool {
        has_shared_members(json, numbers)
            && (is_version_one(json) || is_version_two(json) || is_version_three(json))
    }

    fn from_value(alloc: Global, json: &Value) -> Result<Certificate, AllocError> {
        let version = version_from_value(alloc, json)?;
        let grain = from_value_at(alloc, json, "grain")?;
        let modulus = from_value_at(alloc, json, "modulus")?;
        let edges = from_value_at(alloc, json, "edges")?;
        let order = from_value_at(alloc, json, "order")?;
        let processes = from_value_at(alloc, json, "processes")?;
        let signals = from_value_at(alloc, json, "signals")?;
        Ok(Certificate {
            version,
            grain,
            modulus,
            edges,
            order,
            processes,
            signals,
        })
    }
}

/// The members of an object, and those that this version alone has.
fn with_own_members(
    alloc: Global,
    members: Map<String, Value>,
    version: Version,
) -> Result<Map<String, Value>, AllocError>
    ensures { IfOk result (λ all. members_view all.entries ≡ put_own version (members_view members.entries)) }
{
    match version {
        Version::One => Ok(members),
        Version::Two { displays } | Version::Three { displays } => {
            with_member(alloc, members, "displays", &displays)
        },
    }
}

/// Whether the members are there, and of their kinds, that all versions have.
fn has_shared_members(json: &Value, numbers: Numbers) -> bool
    ensures { result ≡ has_shared (is_number_of numbers) (view json.now) }
{
    has_form_at::<Vec<EdgeSignal>>(json, "edges", numbers)
        && has_form_at::<ClaimedGrain>(json, "grain", numbers)
        && has_form_at::<u64>(json, "modulus", numbers)
        && has_form_at::<Vec<String>>(json, "order", numbers)
        && has_form_at::<Vec<ProcessEntry>>(json, "processes", numbers)
        && has_form_at::<Vec<SignalEntry>>(json, "signals", numbers)
}

fn is_version_one(json: &Value) -> bool
    ensures { result ≡ Shape.is_version_one (view json.now) }
{
    let names = [
        "edges",
        "grain",
        "modulus",
        "order",
        "processes",
        "signals",
        "version",
    ];
    has_names(json, &names)
        && is_number_at(json, "version", 1)
        && has_none(json, "processes", "start", "starter")
        && has_narrow_words(json)
}

fn is_version_two(json: &Value) -> bool
    ensures { result ≡ Shape.is_version_two (view json.now) }
{
    is_of_later(json, 2) && has_narrow_words(json)
}

fn is_version_three(json: &Value) -> bool
    ensures { result ≡ Shape.is_version_three (view json.now) }
{
    is_of_later(json, 3)
}

/// Whether it has the members of this version, which has `displays`.
fn is_of_later(json: &Value, version: u64) -> bool
    ensures { result ≡ Shape.is_of_later version (view json.now) }
{
    let names = [
        "displays",
        "edges",
        "grain",
        "modulus",
        "order",
        "processes",
        "signals",
        "version",
    ];
    has_names(json, &names)
        && is_number_at(json, "version", version)
        && has_form_at::<bool>(json, "displays", Numbers::Whole)
}

/// Whether it has no word of version 3.
fn has_narrow_words(json: &Value) -> bool
    ensures { result ≡ Shape.has_narrow_words (view json.now) }
{
    has_none(json, "signals", "mode", "both") && has_none(json, "processes", "kind", "mixed")
}

/// Whether there is a list of this name, none of whose entries has this word in the member of that name.
fn has_none(json: &Value, list: &str, name: &str, word: &str) -> bool
    ensures { result ≡ Shape.has_none list.now name.now word.now (view json.now) }
{
    let Some(member) = json.get(list) else {
        return false;
    };
    let Some(entries) = member.as_array() else {
        return false;
    };
    for entry in entries {
        if is_word_at(entry, name, word) {
            return false;
        }
    }
    true
}

fn version_from_value(alloc: Global, json: &Value) -> Result<Version, AllocError>
    requires { IsTrue (Shape.is_version_one (view json.now) || Shape.is_version_two (view json.now)
        || Shape.is_version_three (view json.now)) }
    ensures { IfOk result (IsOfVersion (view json.now)) }
{
    if is_version_one(json) {
        return Ok(Version::One);
    }
    let displays = from_value_at(alloc, json, "displays")?;
    if is_version_two(json) {
        return Ok(Version::Two { displays });
    }
    Ok(Version::Three { displays })
}
