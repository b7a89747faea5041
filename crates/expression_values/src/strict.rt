// Functions of the values of all their arguments.
ghost use Rattle.std.specs.Prelude.{◌≡◌, ◌∷◌, [], chars, map, option_map, IfOk};
ghost use Rattle.arm_value.specs.Json.{Json, text};
ghost use Rattle.arm_value.specs.View.{json};
ghost use Rattle.arm_value.specs.Look.{fold};
ghost use Rattle.arm_functions.specs.Values.{function_value};
ghost use Rattle.arm_env.specs.Reading.{continued, done};
ghost use Rattle.arm_env.specs.Knowledge.{told};
ghost use Rattle.arm_env.specs.Look.{parameter, variable, seen, json_in};
ghost use Rattle.arm_env.specs.Names.{strict_named};
ghost use Rattle.arm_env.specs.Find.{id_key};
ghost use Rattle.arm_env.specs.Id.{resource_id, subscription_id};
ghost use Rattle.expression_values.specs.Row as row;
ghost use Rattle.arm_env.specs.Held.{held_value};
ghost use Rattle.expression_values.specs.Meaning.{state_asked, found_at, referred, key_meant, reference, strict_row};
ghost use Rattle.expression_values.specs.Meaning.{strict_call};
ghost use Rattle.expression_values.specs.Args.{id_told};
ghost use Rattle.arm_functions.specs.Kinds.{of_none};
ghost use Rattle.arm_env.specs.Answer.{plain_told, Gives};
ghost use Rattle.arm_env.specs.Sight.{here, held_of};
ghost use Rattle.arm_functions.specs.Cuts.{texts_in};

use arm_env::entries::{Around, Entries};
use arm_env::find::id_key;
use arm_env::function::{Asked, Strict, strict_named};
use arm_env::held::{Held, lend, own};
use arm_env::ids::{resource_id, subscription_id};
use arm_env::loops::copy_index;
use arm_env::objects::{deployment, resource_group, subscription};
use arm_env::stop::{Stop, let_go, stopped};
use arm_functions::{FunctionFault, call, text_of};
use arm_ids::{Key, Place};
use arm_value::{OutOfMemory, Text, Texts, Value};
use std::alloc::{AllocError, Global};

// The value of a function that needs nothing but its arguments; none where no such function has the
// name, or where it does not take so many.
fn plain_call(alloc: Global, name: &Text, args: &[Value]) -> Result<Option<Value>, OutOfMemory>
    ensures { IfOk result (λ v. option_map json v ≡ function_value name.now (map json args.now)) }
{
    match call(alloc, name.as_str(), args) {
        Ok(value) => Ok(value),
        Err(FunctionFault::UnknownFunction) => Ok(None),
        Err(FunctionFault::WrongCount) => Ok(None),
        Err(FunctionFault::OutOfMemory) => Err(AllocError),
    }
}

// The text of the only argument.
fn only_text(args: &[Value]) -> Option<&Text>
    ensures { option_map (λ t. t.now) result ≡ row.only_text (map json args.now) }
{
    match args {
        [Value::Text(text)] => Some(text),
        _ => None,
    }
}

fn asked_of_one(text: &Value) -> Option<(&Text, Asked)>
    ensures { option_map (λ p. (p.0.now, p.1)) result ≡ row.asked (json text.now ∷ []) }
{
    match text {
        Value::Text(text) => Some((text, Asked::Properties)),
        _ => None,
    }
}

fn asked_of_two<'a>(text: &'a Value, api: &Value) -> Option<(&'a Text, Asked)>
    ensures { option_map (λ p. (p.0.now, p.1)) result
        ≡ row.asked (json text.now ∷ json api.now ∷ []) }
{
    match text {
        Value::Text(text) => match api {
            Value::Text(_api) => Some((text, Asked::Properties)),
            _ => None,
        },
        _ => None,
    }
}

// What is asked by the last argument of three.
fn asked_by(full: &Text) -> Option<Asked>
    ensures { result ≡ row.asked_by full.now }
{
    if full.equals_ignore_case("Full") {
        Some(Asked::Whole)
    } else {
        None
    }
}

fn asked_of_three<'a>(text: &'a Value, api: &Value, full: &Value) -> Option<(&'a Text, Asked)>
    ensures { option_map (λ p. (p.0.now, p.1)) result
        ≡ row.asked (json text.now ∷ json api.now ∷ json full.now ∷ []) }
{
    match text {
        Value::Text(text) => match api {
            Value::Text(_api) => match full {
                Value::Text(full) => match asked_by(full) {
                    Some(asked) => Some((text, asked)),
                    None => None,
                },
                _ => None,
            },
            _ => None,
        },
        _ => None,
    }
}

// The text that names a resource, and what is asked of its state.
fn asked(args: &[Value]) -> Option<(&Text, Asked)>
    ensures { option_map (λ p. (p.0.now, p.1)) result ≡ row.asked (map json args.now) }
{
    match args {
        [text] => asked_of_one(text),
        [text, api] => asked_of_two(text, api),
        [text, api, full] => asked_of_three(text, api, full),
        _ => None,
    }
}

// The texts that all of the arguments are.
fn texts_in(alloc: Global, args: &[Value]) -> Result<Option<Texts>, OutOfMemory>
    ensures { IfOk result (λ ts. ts ≡ texts_in (map json args.now)) }
{
    let mut texts = Texts::new(alloc);
    for arg in args {
        match text_of(arg) {
            Some(text) => texts.push(text.copy(alloc)?)?,
            None => return Ok(None),
        }
    }
    Ok(Some(texts))
}

#[tactic(auto, using(crate::proofs::Answers::answers, arm_env::proofs::Words::words))]
fn state_asked<'a, K: Entries>(
    alloc: Global,
    entries: &'a K,
    key: &Key,
    asked: Asked,
) -> Result<Held<'a>, Stop>
    ensures { Gives held_of result (told (K.known entries.now) (state_asked key.now asked)) }
{
    let state = entries.state(alloc, key)?;
    match asked {
        Asked::Properties => lend(state.look("properties")),
        Asked::Whole => Ok(Held::Whole(state)),
    }
}

// A resource, where the key is dropped.
fn state_at<'a, K: Entries>(
    alloc: Global,
    entries: &'a K,
    key: Key,
    asked: Asked,
) -> Result<Held<'a>, Stop>
    ensures { Gives held_of result (told (K.known entries.now) (state_asked key asked)) }
{
    let state = state_asked(alloc, entries, &key, asked);
    let_go(key);
    state
}

// A nested deployment where one is found, or else a resource.
#[tactic(auto, using(crate::proofs::Answers::answers))]
fn found_at<'a, K: Entries>(
    alloc: Global,
    entries: &'a K,
    asked: Asked,
    key: Key,
    is_found: bool,
) -> Result<Held<'a>, Stop>
    ensures { Gives held_of result (told (K.known entries.now) (found_at asked key is_found)) }
{
    if is_found {
        Ok(Held::Deployment(key))
    } else {
        state_at(alloc, entries, key, asked)
    }
}

// A nested deployment, or else a resource.
#[tactic(auto, using(crate::proofs::Answers::answers))]
fn referred<'a, K: Entries>(
    alloc: Global,
    entries: &'a K,
    asked: Asked,
    key: Key,
) -> Result<Held<'a>, Stop>
    ensures { Gives held_of result (told (K.known entries.now) (referred asked key)) }
{
    match entries.is_deployment(alloc, &key) {
        Ok(is_found) => found_at(alloc, entries, asked, key, is_found),
        Err(stop) => stopped(stop, key),
    }
}

// The key of an id, or that which another text stands for.
#[tactic(auto, using(crate::proofs::Answers::answers))]
fn key_meant<K: Entries>(alloc: Global, entries: &K, text: &Text) -> Result<Key, Stop>
    ensures { Gives (λ k. k) result
        (told (K.known entries.now) (key_meant text.now (id_key text.now))) }
{
    match id_key(alloc, text)? {
        Some(key) => Ok(key),
        None => entries.named(alloc, text),
    }
}

#[tactic(auto, using(crate::proofs::Answers::answers))]
fn reference<'a, K: Entries>(
    alloc: Global,
    entries: &'a K,
    text: &Text,
    asked: Asked,
) -> Result<Held<'a>, Stop>
    ensures { Gives held_of result (told (K.known entries.now) (reference (text.now, asked))) }
{
    let key = key_meant(alloc, entries, text)?;
    referred(alloc, entries, asked, key)
}

#[tactic(auto, using(crate::proofs::Answers::answers))]
fn reference_row<'a, K: Entries>(
    alloc: Global,
    entries: &'a K,
    args: &[Value],
) -> Result<Held<'a>, Stop>
    ensures { Gives held_of result (told (K.known entries.now)
        (continued (done (row.asked (map json args.now))) reference)) }
{
    match asked(args) {
        Some((text, asked)) => reference(alloc, entries, text, asked),
        None => Err(Stop::NoValue),
    }
}

#[tactic(auto, using(crate::proofs::Answers::answers))]
fn parameter_row<'a, K: Entries>(
    alloc: Global,
    entries: &'a K,
    args: &[Value],
) -> Result<Held<'a>, Stop>
    ensures { Gives held_of result (told (K.known entries.now)
        (continued (done (row.only_text (map json args.now)))
        (λ name. held_value (seen json_in (parameter (fold name)))))) }
{
    match only_text(args) {
        Some(name) => lend(Some(entries.parameter(alloc, name)?)),
        None => Err(Stop::NoValue),
    }
}

#[tactic(auto, using(crate::proofs::Answers::answers))]
fn variable_row<'a, K: Entries>(
    alloc: Global,
    entries: &'a K,
    args: &[Value],
) -> Result<Held<'a>, Stop>
    ensures { Gives held_of result (told (K.known entries.now)
        (continued (done (row.only_text (map json args.now)))
        (λ name. held_value (seen json_in (variable (fold name)))))) }
{
    match only_text(args) {
        Some(name) => lend(Some(entries.variable(alloc, name)?)),
        None => Err(Stop::NoValue),
    }
}

// `resourceId`.
fn resource_id_row<'a>(alloc: Global, place: &Place, args: &[Value]) -> Result<Held<'a>, Stop>
    ensures { Gives held_of result (id_told (resource_id place.now) (texts_in (map json args.now))) }
{
    match texts_in(alloc, args)? {
        Some(texts) => own(resource_id(alloc, place, texts.as_slice())?),
        None => Err(Stop::NoValue),
    }
}

// `subscriptionResourceId`.
fn subscription_id_row<'a>(alloc: Global, place: &Place, args: &[Value]) -> Result<Held<'a>, Stop>
    ensures { Gives held_of result
        (id_told (subscription_id place.now) (texts_in (map json args.now))) }
{
    match texts_in(alloc, args)? {
        Some(texts) => own(subscription_id(alloc, place, texts.as_slice())?),
        None => Err(Stop::NoValue),
    }
}

// What a function without arguments gives.
#[tactic(auto, using(crate::proofs::Answers::answers))]
fn of_none<'a>(args: &[Value], value: Value) -> Result<Held<'a>, Stop>
    ensures { Gives held_of result (plain_told (of_none (json value) (map json args.now))) }
{
    if args.is_empty() {
        own(Some(value))
    } else {
        stopped(Stop::NoValue, value)
    }
}

// The value of a function that needs more than its arguments.
#[tactic(auto, using(crate::proofs::Answers::answers))]
fn strict_row<'a, K: Entries>(
    alloc: Global,
    entries: &'a K,
    around: &Around,
    function: Strict,
    args: &[Value],
) -> Result<Held<'a>, Stop>
    ensures { Gives held_of result (told (K.known entries.now)
        (strict_row (here around.now) function (map json args.now))) }
{
    match function {
        Strict::Parameters => parameter_row(alloc, entries, args),
        Strict::Variables => variable_row(alloc, entries, args),
        Strict::Reference => reference_row(alloc, entries, args),
        Strict::CopyIndex => own(copy_index(around.loops, args)),
        Strict::ResourceId => resource_id_row(alloc, around.place, args),
        Strict::SubscriptionResourceId => subscription_id_row(alloc, around.place, args),
        Strict::ResourceGroup => of_none(args, resource_group(alloc, around.place)?),
        Strict::Subscription => of_none(args, subscription(alloc, around.place)?),
        Strict::Deployment => of_none(args, deployment(alloc, around.place)?),
    }
}

/// The value of a function of the values of all its arguments.
#[tactic(auto, using(crate::proofs::Answers::answers))]
pub(crate) fn strict_call<'a, K: Entries>(
    alloc: Global,
    entries: &'a K,
    around: &Around,
    name: &Text,
    args: &[Value],
) -> Result<Held<'a>, Stop>
    ensures { Gives held_of result (told (K.known entries.now)
        (strict_call (here around.now) name.now (strict_named name.now) (map json args.now))) }
{
    match strict_named(name) {
        Some(function) => strict_row(alloc, entries, around, function, args),
        None => own(plain_call(alloc, name, args)?),
    }
}
