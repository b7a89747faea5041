//! Functions of the values of all their arguments.
ghost use Rattle.std.specs.Prelude.{◌≡◌, chars, codes, map, option_map, IfOk};
ghost use Rattle.arm_value.specs.Json.{text};
ghost use Rattle.arm_value.specs.Look.{fold, is_same_folded};
ghost use Rattle.arm_value.specs.View.{json};
ghost use Rattle.arm_env.specs.Names.{placed_named};
ghost use Rattle.arm_functions.specs.Values.{function_value};
ghost use Rattle.function_numbers.specs.Kinds.{of_none};
ghost use Rattle.function_texts.specs.Cuts.{texts_in};
ghost use Rattle.bicep_meaning.specs.Rows.{placed_value, value_by};
ghost use Rattle.bicep_outcomes.specs.Outcomes.{IsFound, Then, all_json, placed_of};

use crate::joins::made;
use crate::stop::Stop;
use arm_env::function::{Strict, strict_named};
use arm_env::ids::{resource_id, subscription_id};
use arm_env::objects::{deployment, resource_group, subscription};
use arm_env::stop::let_go;
use arm_functions::{FunctionFault, call};
use arm_ids::Place;
use arm_value::{OutOfMemory, Text, Texts, Value, folded_eq};
use function_numbers::kinds::text_of;
use std::alloc::{AllocError, Global};

/// Whether the function is `coalesce`, which looks at its arguments only as far as needed.
pub fn is_coalesce(name: &str) -> bool
    ensures { result ≡ is_same_folded (codes "coalesce") (fold (chars name.now)) }
{
    folded_eq("coalesce", name)
}

// The value of a function that needs nothing but its arguments; none where it has none of them.
fn plain_call(alloc: Global, name: &str, args: &[Value]) -> Result<Option<Value>, OutOfMemory>
    ensures { IfOk result (λ v. option_map json v ≡ function_value (chars name.now) (map json args.now)) }
{
    match call(alloc, name, args) {
        Ok(value) => Ok(value),
        Err(FunctionFault::UnknownFunction) => Ok(None),
        Err(FunctionFault::WrongCount) => Ok(None),
        Err(FunctionFault::OutOfMemory) => Err(AllocError),
    }
}

// The texts that all of the arguments are.
fn texts_in(alloc: Global, args: &[Value]) -> Result<Option<Texts>, OutOfMemory>
    ensures { IfOk result (λ ts. ts ≡ texts_in (map json args.now)) }
{
    let mut texts = Texts::new(alloc);
    for arg in args {
        match text_of(arg) {
            Some(text) => texts.push(text.copy(alloc)?)?,
            None => return Ok(None),
        }
    }
    Ok(Some(texts))
}

fn resource_id_of(
    alloc: Global,
    place: &Place,
    args: &[Value],
) -> Result<Option<Value>, OutOfMemory>
    ensures { IfOk result (λ v. option_map json v
        ≡ placed_value place.now Strict.ResourceId (map json args.now)) }
{
    match texts_in(alloc, args)? {
        Some(texts) => resource_id(alloc, place, texts.as_slice()),
        None => Ok(None),
    }
}

fn subscription_id_of(
    alloc: Global,
    place: &Place,
    args: &[Value],
) -> Result<Option<Value>, OutOfMemory>
    ensures { IfOk result (λ v. option_map json v
        ≡ placed_value place.now Strict.SubscriptionResourceId (map json args.now)) }
{
    match texts_in(alloc, args)? {
        Some(texts) => subscription_id(alloc, place, texts.as_slice()),
        None => Ok(None),
    }
}

// What a function without arguments gives.
fn of_none(args: &[Value], value: Value) -> Option<Value>
    ensures { option_map json result ≡ of_none (json value) (map json args.now) }
{
    if args.is_empty() {
        Some(value)
    } else {
        let_go(value);
        None
    }
}

// The value of a function that needs the place.
fn placed(
    alloc: Global,
    place: &Place,
    function: Strict,
    args: &[Value],
) -> Result<Option<Value>, OutOfMemory>
    ensures { IfOk result (λ v. option_map json v ≡ placed_value place.now function (map json args.now)) }
{
    match function {
        Strict::Parameters | Strict::Variables | Strict::Reference | Strict::CopyIndex => Ok(None),
        Strict::ResourceId => resource_id_of(alloc, place, args),
        Strict::SubscriptionResourceId => subscription_id_of(alloc, place, args),
        Strict::ResourceGroup => Ok(of_none(args, resource_group(alloc, place)?)),
        Strict::Subscription => Ok(of_none(args, subscription(alloc, place)?)),
        Strict::Deployment => Ok(of_none(args, deployment(alloc, place)?)),
    }
}

// The function, where it is one that needs the place.
fn placed_of(function: Option<Strict>) -> Option<Strict>
    ensures { result ≡ placed_of function }
{
    match function {
        Some(Strict::ResourceId) => Some(Strict::ResourceId),
        Some(Strict::SubscriptionResourceId) => Some(Strict::SubscriptionResourceId),
        Some(Strict::ResourceGroup) => Some(Strict::ResourceGroup),
        Some(Strict::Subscription) => Some(Strict::Subscription),
        Some(Strict::Deployment) => Some(Strict::Deployment),
        _ => None,
    }
}

// The function of the name that needs the place.
fn placed_named(alloc: Global, name: &str) -> Result<Option<Strict>, OutOfMemory>
    ensures { IfOk result (λ f. f ≡ placed_named (fold (chars name.now))) }
{
    let name = Text::of(alloc, name)?;
    Ok(placed_of(strict_named(&name)))
}

fn value_of(
    alloc: Global,
    place: &Place,
    name: &str,
    args: &[Value],
) -> Result<Option<Value>, OutOfMemory>
    ensures { IfOk result (λ v. option_map json v ≡ value_by place.now (fold (chars name.now))
        (placed_named (fold (chars name.now))) (map json args.now)) }
{
    match placed_named(alloc, name)? {
        Some(function) => placed(alloc, place, function, args),
        None => plain_call(alloc, name, args),
    }
}

fn of_values(alloc: Global, place: &Place, name: &str, args: Vec<Value>) -> Result<Value, Stop>
    ensures { IsFound json (value_by place.now (fold (chars name.now))
        (placed_named (fold (chars name.now))) (all_json args)) result }
{
    let value = value_of(alloc, place, name, args.as_slice());
    let_go(args);
    made(value)
}

/// The value of a function other than `coalesce` by its name, in letters of any case.
pub fn called(
    alloc: Global,
    place: &Place,
    name: &str,
    args: Result<Vec<Value>, Stop>,
) -> Result<Value, Stop>
    ensures { Then all_json json (value_by place.now (fold (chars name.now))
        (placed_named (fold (chars name.now)))) args result }
{
    match args {
        Ok(args) => of_values(alloc, place, name, args),
        Err(stop) => Err(stop),
    }
}
