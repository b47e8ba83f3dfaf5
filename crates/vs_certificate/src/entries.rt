//! The JSON forms of the words and of the entries of a certificate's lists.

ghost use Rattle.std.specs.Prelude.{◌≡◌, ℕ, IsTrue, IfOk};
ghost use Rattle.serde_json.specs.View.{view};
ghost use Rattle.vs_certificate.specs.JsonValue.{grain_value, start_word_value, mode_value, edge_value, signal_value};
ghost use Rattle.vs_certificate.specs.Shape.{is_natural, is_whole, is_grain, is_start, is_mode, is_edge_signal, is_signal_entry};

use crate::form::{JsonForm, Numbers, from_value_at, has_form_at, has_names, is_word, with_member};
use crate::members::{ClaimedGrain, EdgeSignal, SignalEntry, SignalMode, Start};
use serde_json::{Map, Value};
use std::alloc::{AllocError, Global};

impl JsonForm for ClaimedGrain {
    ghost json_value = { grain_value };

    ghost json_shape = { λ _. is_grain };

    fn to_value(&self, alloc: Global) -> Result<Value, AllocError> {
        Value::try_from_str(alloc, self.word())
    }

    fn has_form(json: &Value, _numbers: Numbers) -> bool {
        is_word(json, "block") || is_word(json, "statement")
    }

    fn from_value(_alloc: Global, json: &Value) -> Result<ClaimedGrain, AllocError> {
        if is_word(json, "block") {
            Ok(ClaimedGrain::Block)
        } else {
            Ok(ClaimedGrain::Statement)
        }
    }
}

impl JsonForm for Start {
    ghost json_value = { start_word_value };

    ghost json_shape = { λ _. is_start };

    fn to_value(&self, alloc: Global) -> Result<Value, AllocError> {
        Value::try_from_str(alloc, self.word())
    }

    fn has_form(json: &Value, _numbers: Numbers) -> bool {
        is_word(json, "cold") || is_word(json, "sources") || is_word(json, "starter")
    }

    fn from_value(_alloc: Global, json: &Value) -> Result<Start, AllocError> {
        if is_word(json, "cold") {
            Ok(Start::Cold)
        } else if is_word(json, "sources") {
            Ok(Start::Sources)
        } else {
            Ok(Start::Starter)
        }
    }
}

impl JsonForm for SignalMode {
    ghost json_value = { mode_value };

    ghost json_shape = { λ _. is_mode };

    fn to_value(&self, alloc: Global) -> Result<Value, AllocError> {
        Value::try_from_str(alloc, self.word())
    }

    fn has_form(json: &Value, _numbers: Numbers) -> bool {
        is_word(json, "net")
            || is_word(json, "unwritten")
            || is_word(json, "comb")
            || is_word(json, "nonblocking")
            || is_word(json, "blocking")
            || is_word(json, "private")
            || is_word(json, "both")
    }

    fn from_value(_alloc: Global, json: &Value) -> Result<SignalMode, AllocError> {
        if is_word(json, "net") {
            Ok(SignalMode::Net)
        } else if is_word(json, "unwritten") {
            Ok(SignalMode::Unwritten)
        } else if is_word(json, "comb") {
            Ok(SignalMode::Combinational)
        } else if is_word(json, "nonblocking") {
            Ok(SignalMode::Nonblocking)
        } else if is_word(json, "blocking") {
            Ok(SignalMode::Blocking)
        } else if is_word(json, "private") {
            Ok(SignalMode::Private)
        } else {
            Ok(SignalMode::Both)
        }
    }
}

impl JsonForm for EdgeSignal {
    ghost json_value = { edge_value };

    ghost json_shape = { λ _. is_edge_signal };

    fn to_value(&self, alloc: Global) -> Result<Value, AllocError> {
        let members = with_member(alloc, Map::new(alloc), "root", &self.root)?;
        let members = with_member(alloc, members, "signal", &self.signal)?;
        Ok(Value::Object(members))
    }

    fn has_form(json: &Value, numbers: Numbers) -> bool {
        has_names(json, &["root", "signal"])
            && has_form_at::<String>(json, "root", numbers)
            && has_form_at::<String>(json, "signal", numbers)
    }

    fn from_value(alloc: Global, json: &Value) -> Result<EdgeSignal, AllocError> {
        let root = from_value_at(alloc, json, "root")?;
        let signal = from_value_at(alloc, json, "signal")?;
        Ok(EdgeSignal { root, signal })
    }
}

impl JsonForm for SignalEntry {
    ghost json_value = { signal_value };

    ghost json_shape = { λ _. is_signal_entry };

    fn to_value(&self, alloc: Global) -> Result<Value, AllocError> {
        let members = with_member(alloc, Map::new(alloc), "mode", &self.mode)?;
        let members = with_member(alloc, members, "name", &self.name)?;
        let members = with_member(alloc, members, "second", &self.second)?;
        let members = with_member(alloc, members, "writer", &self.writer)?;
        Ok(Value::Object(members))
    }

    fn has_form(json: &Value, numbers: Numbers) -> bool {
        has_names(json, &["mode", "name", "second", "writer"])
            && has_form_at::<SignalMode>(json, "mode", numbers)
            && has_form_at::<String>(json, "name", numbers)
            && has_form_at::<String>(json, "second", numbers)
            && has_form_at::<String>(json, "writer", numbers)
    }

    fn from_value(alloc: Global, json: &Value) -> Result<SignalEntry, AllocError> {
        let mode = from_value_at(alloc, json, "mode")?;
        let name = from_value_at(alloc, json, "name")?;
        let second = from_value_at(alloc, json, "second")?;
        let writer = from_value_at(alloc, json, "writer")?;
        Ok(SignalEntry {
            mode,
            name,
            second,
            writer,
        })
    }
}
