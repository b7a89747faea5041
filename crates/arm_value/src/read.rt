// Values from JSON bytes, and JSON bytes from values.
ghost use Rattle.std.specs.Prelude.{◌≡◌, ◌≤◌, IfOk, IfErr, MatchResult};
ghost use Rattle.arm_value.specs.View.{json};
ghost use Rattle.arm_value.specs.Json.{IsValue};
ghost use Rattle.arm_value.specs.Reading.{reading};
ghost use Rattle.arm_value.specs.Fault.{Gives, Explains};

use crate::convert::{convert, find_not_whole, is_within};
use crate::path::Path;
use crate::value::Value;
use foundation::limits::MAX_JSON_NESTING;
use std::alloc::{AllocError, Global};
use thiserror::Error;

/// Why bytes give no value. Where several hold, the answer is the first of them in this order.
#[derive(Debug, Drop, Error)]
pub enum JsonFault {
    /// `serde_json` reads no value: the bytes are no JSON text (RFC 8259) in UTF-8, or nest above 127.
    #[error("no JSON text")]
    NotJson,
    /// The value nests above 120.
    #[error("nested above 120")]
    TooDeep,
    /// The number at this path is no 64-bit integer in its spelling, as `1.5`, `1e2` and `-0` are
    /// none. Of several it is the first in the byte order of members.
    #[error("no whole number of 64 bits at `{0}`")]
    NotWhole(Path),
    /// Out of memory.
    #[error("out of memory")]
    OutOfMemory,
}

impl From<AllocError> for JsonFault {
    ghost use Rattle.std.specs.Prelude.{◌≡◌};
    ghost use Rattle.arm_value.specs.declared.read.JsonFault.TheVariants.{OutOfMemory};

    ghost from_gives = { λ _ e. e ≡ OutOfMemory };

    fn from(_refused: AllocError) -> JsonFault {
        JsonFault::OutOfMemory
    }
}

impl Value {
    /// The value that JSON text spells, as `serde_json` reads it: of equal member names the last
    /// wins, and members come in the byte order of their names.
    pub fn from_json(alloc: Global, bytes: &[u8]) -> Result<Value, JsonFault>
        ensures ok { IfOk result (λ v. Gives (reading bytes.now) (json v)) }
        ensures fault { IfErr result (λ e. Explains (reading bytes.now) e) }
    {
        let data = match serde_json::Value::from_slice(alloc, bytes) {
            Ok(data) => data,
            Err(e) => return Err(if e.is_memory() {
                JsonFault::OutOfMemory
            } else {
                JsonFault::NotJson
            }),
        };
        if !is_within(&data, MAX_JSON_NESTING) {
            return Err(JsonFault::TooDeep);
        }
        match find_not_whole(alloc, &data)? {
            Some(path) => Err(JsonFault::NotWhole(path)),
            None => Ok(convert(alloc, data)?),
        }
    }
}
