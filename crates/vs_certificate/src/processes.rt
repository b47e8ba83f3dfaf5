//! The JSON form of the processes of a certificate.

ghost use Rattle.std.specs.Prelude.{◌≡◌, ℕ, ◌||◌, codes, IsTrue, IfOk};
ghost use Rattle.serde_json.specs.Data.{string, put};
ghost use Rattle.serde_json.specs.View.{view, members_view};
ghost use Rattle.vs_certificate.specs.JsonValue.{process_value, slots_value, start_value, IsKindOf};
ghost use Rattle.vs_certificate.specs.Shape.{is_natural, is_number_of, is_process_entry};
ghost use Rattle.vs_certificate.specs.Shape as Shape;

use crate::form::{
    JsonForm, Numbers, from_value_at, has_form_at, has_names, is_empty_list_at, is_word_at,
    with_member, with_text,
};
use crate::members::{ClaimedKind, ProcessEntry, Start};
use serde_json::{Map, Value};
use std::alloc::{AllocError, Global};

impl JsonForm for ProcessEntry {
    ghost json_value = { process_value };

    ghost json_shape = { is_process_entry };

    fn to_value(&self, alloc: Global) -> Result<Value, AllocError> {
        let members = with_text(alloc, Map::new(alloc), "kind", self.kind.word())?;
        let members = with_member(alloc, members, "name", &self.name)?;
        let members = with_slots(alloc, members, &self.kind)?;
        let members = with_text(alloc, members, "start", start_word(&self.kind))?;
        Ok(Value::Object(members))
    }

    fn has_form(json: &Value, numbers: Numbers) -> bool {
        has_names(json, &["kind", "name", "slots", "start"])
            && has_form_at::<String>(json, "name", numbers)
            && (is_combinational(json) || is_edge_process(json) || is_times_process(json, numbers))
    }

    fn from_value(alloc: Global, json: &Value) -> Result<ProcessEntry, AllocError> {
        let kind = kind_from_value(alloc, json)?;
        let name = from_value_at(alloc, json, "name")?;
        Ok(ProcessEntry { kind, name })
    }
}

/// The members of an object, and the slots of a process of this kind.
fn with_slots(
    alloc: Global,
    members: Map<String, Value>,
    kind: &ClaimedKind,
) -> Result<Map<String, Value>, AllocError>
    ensures { IfOk result (λ all. members_view all.entries ≡ put (codes "slots") (slots_value kind.now) (members_view members.entries)) }
{
    match kind {
        ClaimedKind::Combinational(_) | ClaimedKind::Edge => {
            let none: Vec<Vec<u64>> = Vec::new(alloc);
            with_member(alloc, members, "slots", &none)
        },
        ClaimedKind::Delay(slots) | ClaimedKind::Mixed(slots) => {
            with_member(alloc, members, "slots", slots)
        },
    }
}

fn start_word(kind: &ClaimedKind) -> &'static str
    ensures { string result.now ≡ start_value kind.now }
{
    match kind {
        ClaimedKind::Combinational(start) => start.word(),
        ClaimedKind::Edge | ClaimedKind::Delay(_) | ClaimedKind::Mixed(_) => "none",
    }
}

fn is_combinational(json: &Value) -> bool
    ensures { result ≡ Shape.is_combinational (view json.now) }
{
    is_word_at(json, "kind", "comb")
        && is_empty_list_at(json, "slots")
        && has_form_at::<Start>(json, "start", Numbers::Whole)
}

fn is_edge_process(json: &Value) -> bool
    ensures { result ≡ Shape.is_edge_process (view json.now) }
{
    is_word_at(json, "kind", "edge")
        && is_empty_list_at(json, "slots")
        && is_word_at(json, "start", "none")
}

fn is_times_process(json: &Value, numbers: Numbers) -> bool
    ensures { result ≡ Shape.is_times_process (is_number_of numbers) (view json.now) }
{
    is_timed_process(json, "delay", numbers) || is_timed_process(json, "mixed", numbers)
}

fn is_timed_process(json: &Value, word: &str, numbers: Numbers) -> bool
    ensures { result ≡ Shape.is_timed_process word.now (is_number_of numbers) (view json.now) }
{
    is_word_at(json, "kind", word)
        && has_form_at::<Vec<Vec<u64>>>(json, "slots", numbers)
        && is_word_at(json, "start", "none")
}

fn kind_from_value(alloc: Global, json: &Value) -> Result<ClaimedKind, AllocError>
    requires { IsTrue (Shape.is_combinational (view json.now)
        || Shape.is_edge_process (view json.now)
        || Shape.is_times_process is_natural (view json.now)) }
    ensures { IfOk result (IsKindOf (view json.now)) }
{
    if is_combinational(json) {
        let start = from_value_at(alloc, json, "start")?;
        Ok(ClaimedKind::Combinational(start))
    } else if is_edge_process(json) {
        Ok(ClaimedKind::Edge)
    } else {
        let slots = from_value_at(alloc, json, "slots")?;
        if is_word_at(json, "kind", "delay") {
            Ok(ClaimedKind::Delay(slots))
        } else {
            Ok(ClaimedKind::Mixed(slots))
        }
    }
}
