// What the bytes of a parameter file give.

ghost use Rattle.std.specs.Prelude.{IfOk, IfErr, Some, option_map};
ghost use Rattle.arm_value.specs.Fault.{Gives};
ghost use Rattle.arm_value.specs.Reading.{reading};
ghost use Rattle.arm_value.specs.View.{json};
ghost use Rattle.parameter_files.specs.Parameters.{IsAnswer, IsUnread, IsAnswerIn, IsAnswerBy};

use crate::fault::ParameterFault;
use arm_value::{JsonFault, Value};
use std::alloc::Global;
use template_parameters::read_given;
use template_parts::{Given, TemplateFault};

/// The values that the bytes of a parameter file give, in the order of the file. The name `parameters` is looked for in
/// letters of any case, after the exact one; other members are not used.
///
/// # Errors
///
/// `NotJson`, `TooDeep` and `NotWhole` as `Value::from_json` says; else `WrongForm` where there is no member
/// `parameters` or its value is refused by `read_given`.
pub fn parameters_in(alloc: Global, bytes: &[u8]) -> Result<Given, ParameterFault>
    ensures { IsAnswer bytes.now result }
{
    match value_of(alloc, bytes) {
        Ok(value) => given_in(alloc, value),
        Err(fault) => Err(fault),
    }
}

// The value of a JSON text.
fn value_of(alloc: Global, bytes: &[u8]) -> Result<Value, ParameterFault>
    ensures value { IfOk result (λ v. Gives (reading bytes.now) (json v)) }
    ensures fault { IfErr result (IsUnread (reading bytes.now)) }
{
    match Value::from_json(alloc, bytes) {
        Ok(value) => Ok(value),
        Err(JsonFault::NotJson) => Err(ParameterFault::NotJson),
        Err(JsonFault::TooDeep) => Err(ParameterFault::TooDeep),
        Err(JsonFault::NotWhole(_)) => Err(ParameterFault::NotWhole),
        Err(JsonFault::OutOfMemory) => Err(ParameterFault::OutOfMemory),
    }
}

// What the value of a file gives.
#[tactic(auto, using(crate::proofs::WordLemmas::chars_parameters))]
fn given_in(alloc: Global, value: Value) -> Result<Given, ParameterFault>
    ensures { IsAnswerIn (json value) result }
{
    let given = given_by(alloc, value.look("parameters"));
    drop(value);
    given
}

// What the value of the member gives.
fn given_by(alloc: Global, parameters: Option<&Value>) -> Result<Given, ParameterFault>
    ensures { IsAnswerBy (option_map (λ v. json v.now) parameters.entry) result }
{
    match parameters {
        Some(parameters) => read(alloc, parameters),
        None => Err(ParameterFault::WrongForm),
    }
}

// What the value gives.
fn read(alloc: Global, parameters: &Value) -> Result<Given, ParameterFault>
    ensures { IsAnswerBy (Some (json parameters.now)) result }
{
    match read_given(alloc, parameters) {
        Ok(given) => Ok(given),
        Err(TemplateFault::OutOfMemory) => Err(ParameterFault::OutOfMemory),
        Err(_) => Err(ParameterFault::WrongForm),
    }
}
