// What a value that may be missing says in its place.

ghost use Rattle.std.specs.Prelude.{◌≡◌, [], map, option_map, IfOk};
ghost use Rattle.arm_value.specs.View.{json, member};
ghost use Rattle.template_meaning.specs.Values as meaning;
ghost use Rattle.template_meaning.specs.Values.{inside, optional, value_in, text_in, number_in, is_true};
ghost use Rattle.template_meaning.specs.Values.{items_in, members_in, is_word};

use arm_value::{Field, Items, OutOfMemory, Text, Value};
use std::alloc::Global;

/// What is there as the member of this name, exactly or in letters of any case.
pub fn inside<'a>(value: Option<&'a Value>, name: &str) -> Option<&'a Value>
    ensures { option_map (λ v. json v.now) result ≡ inside name.now (option_map (λ v. json v.now) value.entry) }
{
    match value {
        Some(value) => value.look(name),
        None => None,
    }
}

/// A copy of the value, where there is one.
pub fn optional(alloc: Global, value: Option<&Value>) -> Result<Option<Value>, OutOfMemory>
    ensures { IfOk result (λ o. o ≡ optional (option_map (λ v. json v.now) value.entry)) }
{
    match value {
        Some(value) => Ok(Some(value.copy(alloc)?)),
        None => Ok(None),
    }
}

/// A copy of the value, which is `null` where there is none.
pub fn copy_value(alloc: Global, value: Option<&Value>) -> Result<Value, OutOfMemory>
    ensures { IfOk result (λ v. v ≡ value_in (option_map (λ v. json v.now) value.entry)) }
{
    match value {
        Some(value) => value.copy(alloc),
        None => Ok(Value::Null),
    }
}

// The empty text.
fn empty_text(alloc: Global) -> Result<Text, OutOfMemory>
    ensures { IfOk result (λ t. t ≡ []) }
{
    Text::of(alloc, "")
}

/// A copy of the text, which is empty where there is none.
pub fn copy_text(alloc: Global, value: Option<&Value>) -> Result<Text, OutOfMemory>
    ensures { IfOk result (λ t. t ≡ text_in (option_map (λ v. json v.now) value.entry)) }
{
    match value {
        Some(value) => match value {
            Value::Text(text) => text.copy(alloc),
            _ => empty_text(alloc),
        },
        None => empty_text(alloc),
    }
}

/// Whether exactly this text is there, which is not empty.
pub fn text_is(value: Option<&Value>, wanted: &str) -> bool
    ensures { result ≡ meaning.text_is wanted.now (option_map (λ v. json v.now) value.entry) }
{
    match value {
        Some(value) => match value {
            Value::Text(text) => text.equals(wanted),
            _ => false,
        },
        None => false,
    }
}

/// Whether the text of this word is there, in letters of any case.
pub fn is_word(value: Option<&Value>, word: &str) -> bool
    ensures { result ≡ is_word word.now (option_map (λ v. json v.now) value.entry) }
{
    match value {
        Some(value) => match value {
            Value::Text(text) => text.equals_ignore_case(word),
            _ => false,
        },
        None => false,
    }
}

/// The number, where there is one.
pub fn number_in(value: Option<&Value>) -> Option<i64>
    ensures { result ≡ number_in (option_map (λ v. json v.now) value.entry) }
{
    match value {
        Some(value) => match value {
            Value::Int(n) => Some(*n),
            _ => None,
        },
        None => None,
    }
}

/// Whether `true` is there.
pub fn is_true(value: Option<&Value>) -> bool
    ensures { result ≡ is_true (option_map (λ v. json v.now) value.entry) }
{
    match value {
        Some(value) => match value {
            Value::Bool(b) => *b,
            _ => false,
        },
        None => false,
    }
}

/// The items of the array that is there.
pub fn items_in<'a>(value: Option<&'a Value>) -> &'a [Value]
    ensures { map json result.now ≡ items_in (option_map (λ v. json v.now) value.entry) }
{
    match value {
        Some(value) => match value {
            Value::Array(items) => items.as_slice(),
            _ => &[],
        },
        None => &[],
    }
}

/// A copy of the items of the array that is there.
pub fn copy_items(alloc: Global, value: Option<&Value>) -> Result<Items, OutOfMemory>
    ensures { IfOk result (λ js. js ≡ items_in (option_map (λ v. json v.now) value.entry)) }
{
    match value {
        Some(value) => match value {
            Value::Array(items) => items.copy(alloc),
            _ => Ok(Items::new()),
        },
        None => Ok(Items::new()),
    }
}

/// The members of the object that is there.
pub fn members_in<'a>(value: Option<&'a Value>) -> &'a [Field]
    ensures { map member result.now ≡ members_in (option_map (λ v. json v.now) value.entry) }
{
    match value {
        Some(value) => match value {
            Value::Object(fields) => fields.as_slice(),
            _ => &[],
        },
        None => &[],
    }
}
