//! Outcomes that are made of others.
ghost use Rattle.std.specs.Prelude.{◌≡◌, ◌∷◌, ◌++◌, [], Err, None, Ok, Option, Some, option_map, IfOk, if◌then◌else◌};
ghost use Rattle.arm_value.specs.Json.{Json};
ghost use Rattle.arm_value.specs.View.{json};
ghost use Rattle.arm_env.specs.Part.{kept};
ghost use Rattle.function_numbers.specs.Kinds.{truth_of};
ghost use Rattle.bicep_outcomes.specs.Outcomes.{IsFound, Then, paired, Lacks, IsAdded, whole, IsSame, truth_alone};
ghost use Rattle.bicep_outcomes.specs.Outcomes.{null_left};

use crate::stop::Stop;
use arm_env::stop::let_go;
use arm_value::{OutOfMemory, Value};
use foundation::limits::MAX_VALUE_NESTING;
use function_numbers::kinds::truth_of;
use std::alloc::Global;

/// The value, where there is one.
pub fn found(value: Option<Value>) -> Result<Value, Stop>
    ensures { IsFound json (option_map json value) result }
{
    match value {
        Some(value) => Ok(value),
        None => Err(Stop::NoValue),
    }
}

/// The value that a function made, where it made one.
pub fn made(value: Result<Option<Value>, OutOfMemory>) -> Result<Value, Stop>
    ensures { (o : Option Json) → IfOk value (λ v. option_map json v ≡ o) → IsFound json o result }
{
    match value {
        Ok(value) => found(value),
        Err(_) => Err(Stop::OutOfMemory),
    }
}

/// Stops; the part is dropped.
pub fn stopped<T: Drop, R: Drop>(stop: Stop, _part: T) -> Result<R, Stop>
    ensures { result ≡ Err stop }
{
    Err(stop)
}

fn kept(value: Value) -> Result<Value, Stop>
    ensures { IsFound json (kept (json value)) result }
{
    if value.nesting() <= MAX_VALUE_NESTING {
        Ok(value)
    } else {
        stopped(Stop::NoValue, value)
    }
}

/// The value; none where it nests deeper than 100.
pub fn capped(given: Result<Value, Stop>) -> Result<Value, Stop>
    ensures { Then json json kept given result }
{
    match given {
        Ok(value) => kept(value),
        Err(stop) => Err(stop),
    }
}

/// A copy of what was found.
pub fn same(alloc: Global, given: &Result<Value, Stop>) -> Result<Value, Stop>
    ensures { IsSame given.now result }
{
    match given {
        Ok(value) => Ok(value.copy(alloc)?),
        Err(stop) => Err(*stop),
    }
}

/// A copy of a value that was found.
pub fn copied<'a>(alloc: Global, given: Result<&'a Value, Stop>) -> Result<Value, Stop>
    ensures { Then (λ v. json v.now) json (λ j. Some j) given.entry result }
{
    match given {
        Ok(value) => Ok(value.copy(alloc)?),
        Err(stop) => Err(stop),
    }
}

/// Both, where both are there; else what is waited for first.
pub fn pair<A: Drop, B: Drop>(
    first: Result<A, Stop>,
    second: Result<B, Stop>,
) -> Result<(A, B), Stop>
    ensures { result ≡ paired first second }
{
    match first {
        Ok(first) => match second {
            Ok(second) => Ok((first, second)),
            Err(stop) => stopped(stop, first),
        },
        Err(Stop::NoValue) => match second {
            Ok(second) => stopped(Stop::NoValue, second),
            Err(stop) => Err(stop),
        },
        Err(Stop::Waits(cell)) => stopped(Stop::Waits(cell), second),
        Err(Stop::OutOfMemory) => stopped(Stop::OutOfMemory, second),
    }
}

/// The list with one more.
pub fn push<T: Drop>(all: Vec<T>, one: T) -> Result<Vec<T>, Stop>
    ensures { Lacks (λ v. v.items ≡ all.items ++ one ∷ []) result }
{
    let mut all = all;
    match all.push(one) {
        Ok(()) => Ok(all),
        Err(fault) => stopped(Stop::OutOfMemory, (all, fault)),
    }
}

fn pushed<T: Drop>(all: Vec<T>, one: T) -> Result<Option<Vec<T>>, Stop>
    ensures { IsAdded (Some all) (Ok one) result }
{
    match push(all, one) {
        Ok(all) => Ok(Some(all)),
        Err(stop) => Err(stop),
    }
}

/// What was found so far, with one more; nothing where one of them has no value.
pub fn add<T: Drop>(all: Option<Vec<T>>, one: Result<T, Stop>) -> Result<Option<Vec<T>>, Stop>
    ensures { IsAdded all one result }
{
    match one {
        Ok(one) => match all {
            Some(all) => pushed(all, one),
            None => {
                let_go(one);
                Ok(None)
            }
        },
        Err(Stop::NoValue) => {
            let_go(all);
            Ok(None)
        }
        Err(Stop::Waits(cell)) => stopped(Stop::Waits(cell), all),
        Err(Stop::OutOfMemory) => stopped(Stop::OutOfMemory, all),
    }
}

/// All, where all are there.
pub fn whole<T: Drop>(all: Option<Vec<T>>) -> Result<Vec<T>, Stop>
    ensures { result ≡ whole all }
{
    match all {
        Some(all) => Ok(all),
        None => Err(Stop::NoValue),
    }
}

fn truth_in(value: Value) -> Result<bool, Stop>
    ensures { IsFound (λ b. b) (truth_of (json value)) result }
{
    let truth = truth_of(&value);
    let_go(value);
    match truth {
        Some(truth) => Ok(truth),
        None => Err(Stop::NoValue),
    }
}

/// Which truth value it is, if it is one.
pub fn truth(given: Result<Value, Stop>) -> Result<bool, Stop>
    ensures { Then json (λ b. b) truth_of given result }
{
    match given {
        Ok(value) => truth_in(value),
        Err(stop) => Err(stop),
    }
}

/// The truth value, and nothing else.
pub fn only_truth(given: Result<Value, Stop>) -> Result<Value, Stop>
    ensures { Then json json truth_alone given result }
{
    match truth(given) {
        Ok(truth) => Ok(Value::Bool(truth)),
        Err(stop) => Err(stop),
    }
}

fn is_null(value: &Value) -> bool
    ensures { result ≡ null_left (json value.now) }
{
    match value {
        Value::Null => true,
        _ => false,
    }
}

/// The value, unless it is null.
pub fn unless_null(value: Value) -> Option<Value>
    ensures { option_map json result ≡ (if null_left (json value) then None else Some (json value)) }
{
    if is_null(&value) {
        let_go(value);
        None
    } else {
        Some(value)
    }
}
