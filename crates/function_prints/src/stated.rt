// Values from JSON texts.
ghost use Rattle.std.specs.Prelude.{◌≡◌, map, option_map, IfOk, IfSome};
ghost use Rattle.arm_value.specs.Fault.{Gives};
ghost use Rattle.arm_value.specs.Reading.{reading};
ghost use Rattle.arm_value.specs.View.{json};
ghost use Rattle.function_prints.specs.Stated as row;
ghost use Rattle.function_prints.specs.Stated.{stated, stated_by, States, AreStating};

use arm_value::{JsonFault, OutOfMemory, Value};
use std::alloc::{AllocError, Global};

// The value that the bytes of a JSON text give.
fn stated(alloc: Global, bytes: &[u8]) -> Result<Option<Value>, OutOfMemory>
    ensures value { IfOk result (λ value. option_map json value ≡ stated bytes.now) }
    ensures gives { IfOk result (λ value. IfSome value (λ v. Gives (reading bytes.now) (json v))) }
{
    match Value::from_json(alloc, bytes) {
        Ok(value) => Ok(Some(value)),
        Err(JsonFault::NotJson) => Ok(None),
        Err(JsonFault::TooDeep) => Ok(None),
        Err(JsonFault::NotWhole(_)) => Ok(None),
        Err(JsonFault::OutOfMemory) => Err(AllocError),
    }
}

fn stated_by(alloc: Global, value: &Value) -> Result<Option<Value>, OutOfMemory>
    ensures value { IfOk result (λ found. option_map json found ≡ stated_by (json value.now)) }
    ensures states { IfOk result (λ found. IfSome found (λ v. States (json value.now) (json v))) }
{
    match value {
        Value::Text(text) => stated(alloc, text.as_str().as_bytes()),
        _ => Ok(None),
    }
}

/// `json`: the value that the text states as JSON (RFC 8259), with whole numbers of 64 bits and
/// nested at most 120 deep; of equal member names the last counts. None of any other text.
pub fn read_json(alloc: Global, args: &[Value]) -> Result<Option<Value>, OutOfMemory>
    ensures value { IfOk result (λ value. option_map json value ≡ row.read_json (map json args.now)) }

    // What is given is the value that the text states.
    ensures states { IfOk result (λ value. IfSome value (λ v. AreStating (map json args.now) (json v))) }
{
    match args {
        [value] => stated_by(alloc, value),
        _ => Ok(None),
    }
}
