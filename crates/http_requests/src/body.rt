// The members of bodies.

ghost use Rattle.std.specs.Prelude.{◌≡◌, nat_lt, option_map, true, IfOk, IsErrOf};
ghost use Rattle.std.specs.List.{list_all};
ghost use Rattle.arm_value.specs.Fault.{Gives};
ghost use Rattle.arm_value.specs.Look.{is_same_folded, look};
ghost use Rattle.arm_value.specs.Reading.{reading};
ghost use Rattle.arm_value.specs.View.{json};
ghost use Rattle.http_requests.specs.Bodies.{HasNoJson, fault_of, level_in, mode_in, mode_of, notes_in, text_at};
ghost use Rattle.http_requests.specs.Bodies.{text_in, word_mode};

use crate::fault::BodyFault;
use arm_value::{JsonFault, OutOfMemory, Text, Value};
use lock_rules::Level;
use std::alloc::Global;
use template_parts::Mode;

/// The JSON value that the body spells.
pub(crate) fn read_body(alloc: Global, body: &[u8]) -> Result<Value, BodyFault>
    ensures ok { IfOk result (λ value. Gives (reading body.now) (json value)) }
    ensures bad { IsErrOf result BodyFault.BadBody → HasNoJson body.now }
{
    match Value::from_json(alloc, body) {
        Ok(value) => Ok(value),
        Err(fault) => Err(fault_of(fault)),
    }
}

// Why bytes that give no value are no body.
fn fault_of(fault: JsonFault) -> BodyFault
    ensures { result ≡ fault_of fault }
{
    match fault {
        JsonFault::NotJson => BodyFault::BadBody,
        JsonFault::TooDeep => BodyFault::BadBody,
        JsonFault::NotWhole(_) => BodyFault::BadBody,
        JsonFault::OutOfMemory => BodyFault::OutOfMemory,
    }
}

/// The member of this name, an ASCII word.
pub(crate) fn member<'a>(value: &'a Value, name: &str) -> Option<&'a Value>
    requires { list_all (λ b. nat_lt b 128) name.now ≡ true }
    ensures { option_map (λ v. json v.now) result ≡ look name.now (json value.now) }
{
    value.look(name)
}

// The text that the value is.
fn text_in(value: &Value) -> Option<&Text>
    ensures { option_map (λ text. text.now) result ≡ text_in (json value.now) }
{
    match value {
        Value::Null => None,
        Value::Bool(_) => None,
        Value::Int(_) => None,
        Value::Text(text) => Some(text),
        Value::Array(_) => None,
        Value::Object(_) => None,
    }
}

/// The text at this member of the value, whose name is an ASCII word, if there is one.
pub(crate) fn text_at<'a>(value: &'a Value, name: &str) -> Option<&'a Text>
    requires { list_all (λ b. nat_lt b 128) name.now ≡ true }
    ensures { option_map (λ text. text.now) result ≡ text_at name.now (json value.now) }
{
    match member(value, name) {
        Some(found) => text_in(found),
        None => None,
    }
}

/// The mode that the properties of a deployment have, `Incremental` where they have none; none where it is no mode.
pub(crate) fn mode_in(properties: &Value) -> Option<Mode>
    ensures { result ≡ mode_in (json properties.now) }
{
    match member(properties, "mode") {
        Some(value) => word_mode(text_in(value)),
        None => Some(Mode::Incremental),
    }
}

// The mode of a word, if there is one.
fn word_mode(word: Option<&Text>) -> Option<Mode>
    ensures { result ≡ word_mode (option_map (λ text. text.now) word.entry) }
{
    match word {
        Some(word) => mode_of(word),
        None => None,
    }
}

// The mode of this word, in letters of any case.
fn mode_of(word: &Text) -> Option<Mode>
    ensures { result ≡ mode_of word.now }
{
    if is_word(word, "Incremental") {
        return Some(Mode::Incremental);
    }
    if is_word(word, "Complete") {
        return Some(Mode::Complete);
    }
    None
}

// Whether the text is this ASCII word, in letters of any case.
fn is_word(text: &Text, word: &str) -> bool
    requires { list_all (λ b. nat_lt b 128) word.now ≡ true }
    ensures { result ≡ is_same_folded word.now text.now }
{
    text.equals_ignore_case(word)
}

/// The level that the properties of a lock have, if they have one.
pub(crate) fn level_in(properties: &Value) -> Option<Level>
    ensures { result ≡ level_in (json properties.now) }
{
    match text_at(properties, "level") {
        Some(word) => Level::of(word),
        None => None,
    }
}

/// The notes that the properties of a lock have, empty where there are none; none where they are no text.
pub(crate) fn notes_in(alloc: Global, properties: &Value) -> Result<Option<Text>, OutOfMemory>
    ensures { IfOk result (λ notes. notes ≡ notes_in (json properties.now)) }
{
    match member(properties, "notes") {
        Some(value) => copy_text(alloc, text_in(value)),
        None => Ok(Some(Text::of(alloc, "")?)),
    }
}

// A copy of the text, if there is one.
fn copy_text(alloc: Global, text: Option<&Text>) -> Result<Option<Text>, OutOfMemory>
    ensures { IfOk result (λ copy. copy ≡ option_map (λ text. text.now) text.entry) }
{
    match text {
        Some(text) => Ok(Some(text.copy(alloc)?)),
        None => Ok(None),
    }
}

/// A copy of the value, if there is one.
pub(crate) fn copy_value(alloc: Global, value: Option<&Value>) -> Result<Option<Value>, OutOfMemory>
    ensures { IfOk result (λ copy. option_map json copy ≡ option_map (λ v. json v.now) value.entry) }
{
    match value {
        Some(value) => Ok(Some(value.copy(alloc)?)),
        None => Ok(None),
    }
}
