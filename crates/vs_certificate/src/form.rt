//! What has a JSON form, and the forms of texts, numbers and lists.

ghost use Rattle.std.specs.Prelude.{◌≡◌, ℕ, List, Bool, Some, map, IsTrue, IfOk};
ghost use Rattle.serde_json.specs.Data.{Data, string, put};
ghost use Rattle.serde_json.specs.Find.{get};
ghost use Rattle.serde_json.specs.View.{view, members_view};
ghost use Rattle.vs_certificate.specs.JsonValue.{flag_value, text_value, whole_value, list_value};
ghost use Rattle.vs_certificate.specs.Shape.{is_natural, is_number_of, is_flag, is_text, is_list, passes_at};
ghost use Rattle.vs_certificate.specs.Shape as Shape;

use serde_json::{Map, Value, put};
use std::alloc::{AllocError, Global};

/// Which numbers have the form of a number.
#[derive(Clone, Copy)]
pub(crate) enum Numbers {
    /// The whole numbers of 64 bits.
    Whole,
    /// Those that aren't negative.
    Natural,
}

/// What has a JSON form.
pub(crate) trait JsonForm {
    /// Its JSON value.
    ghost json_value: { Self → Data };

    /// Whether a JSON value has its form, where numbers pass the test.
    ghost json_shape: { (Data → Bool) → Data → Bool };

    fn to_value(&self, alloc: Global) -> Result<Value, AllocError>
        ensures { IfOk result (λ v. view v ≡ json_value self.now) };

    /// Whether a JSON value has the form, where numbers are of these.
    fn has_form(json: &Value, numbers: Numbers) -> bool
        ensures { result ≡ json_shape (is_number_of numbers) (view json.now) };

    /// What has this JSON value.
    fn from_value(alloc: Global, json: &Value) -> Result<Self, AllocError>
        requires { IsTrue (json_shape is_natural (view json.now)) }
        ensures { IfOk result (λ x. json_value x ≡ view json.now) };
}

impl JsonForm for String {
    ghost json_value = { text_value };

    ghost json_shape = { λ _. is_text };

    fn to_value(&self, alloc: Global) -> Result<Value, AllocError> {
        Value::try_from_str(alloc, self.as_str())
    }

    fn has_form(json: &Value, _numbers: Numbers) -> bool {
        json.is_string()
    }

    fn from_value(alloc: Global, json: &Value) -> Result<String, AllocError> {
        String::from_str(alloc, json.as_str().unwrap())
    }
}

impl JsonForm for bool {
    ghost json_value = { flag_value };

    ghost json_shape = { λ _. is_flag };

    fn to_value(&self, _alloc: Global) -> Result<Value, AllocError> {
        Ok(Value::from(*self))
    }

    fn has_form(json: &Value, _numbers: Numbers) -> bool {
        json.is_boolean()
    }

    fn from_value(_alloc: Global, json: &Value) -> Result<bool, AllocError> {
        Ok(json.as_bool().unwrap())
    }
}

impl JsonForm for u64 {
    ghost json_value = { whole_value };

    ghost json_shape = { λ numeric. numeric };

    fn to_value(&self, _alloc: Global) -> Result<Value, AllocError> {
        Ok(Value::from(*self))
    }

    fn has_form(json: &Value, numbers: Numbers) -> bool {
        match numbers {
            Numbers::Whole => json.is_u64() || json.is_i64(),
            Numbers::Natural => json.is_u64(),
        }
    }

    fn from_value(_alloc: Global, json: &Value) -> Result<u64, AllocError> {
        Ok(json.as_u64().unwrap())
    }
}

impl<T: JsonForm + Drop> JsonForm for Vec<T> {
    ghost json_value = { λ v. list_value T.json_value v.items };

    ghost json_shape = { λ numeric. is_list (T.json_shape numeric) };

    fn to_value(&self, alloc: Global) -> Result<Value, AllocError> {
        let mut list = Vec::new(alloc);
        for entry in self {
            list.push(entry.to_value(alloc)?)?;
        }
        Ok(Value::Array(list))
    }

    fn has_form(json: &Value, numbers: Numbers) -> bool {
        let Some(list) = json.as_array() else {
            return false;
        };
        for entry in list {
            if !T::has_form(entry, numbers) {
                return false;
            }
        }
        true
    }

    fn from_value(alloc: Global, json: &Value) -> Result<Vec<T>, AllocError> {
        let list = json.as_array().unwrap();
        let mut entries = Vec::new(alloc);
        for entry in list {
            entries.push(T::from_value(alloc, entry)?)?;
        }
        Ok(entries)
    }
}

/// Whether it is this text.
pub(crate) fn is_word(json: &Value, word: &str) -> bool
    ensures { result ≡ Shape.is_word word.now (view json.now) }
{
    match json.as_str() {
        Some(text) => text == word,
        None => false,
    }
}

/// Whether it is a list with nothing in it.
pub(crate) fn is_empty_list(json: &Value) -> bool
    ensures { result ≡ Shape.is_empty_list (view json.now) }
{
    match json.as_array() {
        Some(list) => list.is_empty(),
        None => false,
    }
}

/// Whether it is an object whose members have exactly these names, which are given in byte order.
pub(crate) fn has_names(json: &Value, names: &[&str]) -> bool
    ensures { result ≡ Shape.has_names (map (λ n. n.now) names.now) (view json.now) }
{
    let Some(members) = json.as_object() else {
        return false;
    };
    let mut next = 0;
    for (key, _member) in members {
        if next >= names.len() || key.as_str() != names[next] {
            return false;
        }
        next += 1;
    }
    next == names.len()
}

/// Whether the member of this name is there, and has the form, where numbers are of these.
pub(crate) fn has_form_at<T: JsonForm>(json: &Value, name: &str, numbers: Numbers) -> bool
    ensures { result ≡ passes_at (T.json_shape (is_number_of numbers)) name.now (view json.now) }
{
    match json.get(name) {
        Some(member) => T::has_form(member, numbers),
        None => false,
    }
}

/// Whether the member of this name is there, and is this text.
pub(crate) fn is_word_at(json: &Value, name: &str, word: &str) -> bool
    ensures { result ≡ passes_at (Shape.is_word word.now) name.now (view json.now) }
{
    match json.get(name) {
        Some(member) => is_word(member, word),
        None => false,
    }
}

/// Whether the member of this name is there, and is a list with nothing in it.
pub(crate) fn is_empty_list_at(json: &Value, name: &str) -> bool
    ensures { result ≡ passes_at Shape.is_empty_list name.now (view json.now) }
{
    match json.get(name) {
        Some(member) => is_empty_list(member),
        None => false,
    }
}

/// The members of an object, and one more.
pub(crate) fn with_member<T: JsonForm>(
    alloc: Global,
    mut members: Map<String, Value>,
    name: &str,
    member: &T,
) -> Result<Map<String, Value>, AllocError>
    ensures { IfOk result (λ all. members_view all.entries ≡ put name.now (T.json_value member.now) (members_view members.entries)) }
{
    let value = member.to_value(alloc)?;
    put(&mut members, alloc, name, value)?;
    Ok(members)
}

/// The members of an object, and a text.
pub(crate) fn with_text(
    alloc: Global,
    mut members: Map<String, Value>,
    name: &str,
    text: &str,
) -> Result<Map<String, Value>, AllocError>
    ensures { IfOk result (λ all. members_view all.entries ≡ put name.now (string text.now) (members_view members.entries)) }
{
    let value = Value::try_from_str(alloc, text)?;
    put(&mut members, alloc, name, value)?;
    Ok(members)
}

/// What the member of this name stands for.
pub(crate) fn from_value_at<T: JsonForm>(
    alloc: Global,
    json: &Value,
    name: &str,
) -> Result<T, AllocError>
    requires { IsTrue (passes_at (T.json_shape is_natural) name.now (view json.now)) }
    ensures { IfOk result (λ x. get name.now (view json.now) ≡ Some (T.json_value x)) }
{
    T::from_value(alloc, json.get(name).unwrap())
}

/// Whether the member of this name is there, and is this number.
pub(crate) fn is_number_at(json: &Value, name: &str, number: u64) -> bool
    ensures { result ≡ passes_at (Shape.is_number number) name.now (view json.now) }
{
    match json.get(name) {
        Some(member) => member.as_u64() == Some(number),
        None => false,
    }
}
