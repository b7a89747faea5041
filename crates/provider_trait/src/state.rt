// The states of stored resources.

ghost use Rattle.std.specs.Prelude.{◌≡◌, ◌≤◌, Some, IfOk, IfErr};
ghost use Rattle.serde_json.specs.Written.{compact_text};
ghost use Rattle.arm_value.specs.View.{json};
ghost use Rattle.arm_value.specs.Json.{nesting};
ghost use Rattle.arm_value.specs.Reading.{data_of, reading};
ghost use Rattle.provider_trait.specs.StateFault.{IsStateFault};

use crate::parts::letting_go;
use arm_value::{Bytes, OutOfMemory, Value};
use foundation::limits::MAX_STATE_NESTING;
use std::alloc::{AllocError, Global};
use std::marker::Model;
use thiserror::Error;

/// The state of a stored resource, with its compact JSON text. It nests at most 110.
#[derive(Drop)]
pub struct State {
    value: Value,
    text: Bytes,
}

impl Model for State {
    ghost use Rattle.arm_value.specs.Json.{Json};
    ghost use Rattle.arm_value.specs.JsonCode.{json_code};

    ghost Value = { Json };

    ghost coded = { json_code };

    ghost use Rattle.std.specs.Prelude.{◌≡◌, ◌≤◌, Some};
    ghost use Rattle.serde_json.specs.Written.{compact_text};
    ghost use Rattle.arm_value.specs.View.{json};
    ghost use Rattle.arm_value.specs.Json.{nesting};
    ghost use Rattle.arm_value.specs.Reading.{data_of, reading};

    ghost view = { λ s. json s.value };

    ghost invariant = { λ s. (s.text ≡ compact_text (data_of (json s.value)))
        × (reading s.text ≡ Some (data_of (json s.value)))
        × (nesting (json s.value) ≤ 110) };
}

/// Why a value is no state.
#[derive(Clone, Copy, Debug, Error, PartialEq, Eq)]
pub enum StateFault {
    /// It nests above 110.
    #[error("nested above 110")]
    TooDeep,
    /// Out of memory.
    #[error("out of memory")]
    OutOfMemory,
}

impl From<AllocError> for StateFault {
    ghost use Rattle.std.specs.Prelude.{◌≡◌};
    ghost use Rattle.provider_trait.specs.declared.state.StateFault.TheVariants.{OutOfMemory};

    ghost from_gives = { λ _ e. e ≡ OutOfMemory };

    fn from(_refused: AllocError) -> StateFault {
        StateFault::OutOfMemory
    }
}

impl State {
    /// The state of this value.
    ///
    /// # Errors
    ///
    /// `TooDeep` where the value nests above 110, and nowhere else; `OutOfMemory`.
    pub fn of(alloc: Global, value: Value) -> Result<State, StateFault>
        ensures ok { IfOk result (λ s. s ≡ json value) }
        ensures shallow { IfOk result (λ _. nesting (json value) ≤ 110) }
        ensures fault { IfErr result (IsStateFault (json value)) }
    {
        if value.nesting() > MAX_STATE_NESTING {
            return letting_go(Err(StateFault::TooDeep), value);
        }
        match value.to_json(alloc) {
            Ok(text) => Ok(State { value, text }),
            Err(_) => letting_go(Err(StateFault::OutOfMemory), value),
        }
    }

    /// The value. It nests at most 110.
    pub fn value(&self) -> &Value
        ensures value { json result.now ≡ self.now }
        ensures shallow { nesting self.now ≤ 110 }
    {
        &self.value
    }

    /// The compact JSON text of the value, as `Value::to_json` gives it. It reads back as the value.
    pub fn text(&self) -> &Bytes
        ensures text { result.now ≡ compact_text (data_of self.now) }
        ensures reads_back { reading result.now ≡ Some (data_of self.now) }
    {
        &self.text
    }

    /// The value. It takes no memory.
    pub fn into_value(self) -> Value
        ensures { json result ≡ self }
    {
        self.value
    }

    /// A copy of the state.
    pub fn copy(&self, alloc: Global) -> Result<State, OutOfMemory>
        ensures { IfOk result (λ s. s ≡ self.now) }
    {
        Ok(State {
            value: self.value.copy(alloc)?,
            text: self.text.copy(alloc)?,
        })
    }
}
