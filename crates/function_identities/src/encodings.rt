// Texts in base64, and back.
ghost use Rattle.std.specs.Prelude.{◌≡◌, ◌∷◌, [], map, option_map, IfOk};
ghost use Rattle.arm_value.specs.Json.{text};
ghost use Rattle.arm_value.specs.View.{json};
ghost use Rattle.function_numbers.specs.Kinds.{text_of};
ghost use Rattle.function_identities.specs.Encodings as row;
ghost use Rattle.function_identities.specs.Encodings.{encoded, decoded, text_of_bytes};

use arm_value::{OutOfMemory, Text, Value};
use base64::DecodeAllocError;
use base64::engine::general_purpose::STANDARD;
use function_numbers::kinds::text_of;
use std::alloc::{AllocError, Global};

fn encoded(alloc: Global, text: &Text) -> Result<Text, OutOfMemory>
    ensures { IfOk result (λ t. t ≡ encoded text.now) }
{
    let encoded = STANDARD.encode(alloc, text.as_str().as_bytes())?;
    Ok(Text::from_string(encoded))
}

fn value_encoded(alloc: Global, value: &Value) -> Result<Option<Value>, OutOfMemory>
    ensures { IfOk result (λ v. option_map json v
        ≡ option_map (λ s. text (encoded s)) (text_of (json value.now))) }
{
    match text_of(value) {
        Some(text) => Ok(Some(Value::Text(encoded(alloc, text)?))),
        None => Ok(None),
    }
}

/// `base64`: the base64 (RFC 4648, section 4, with padding) of the text's bytes in UTF-8.
pub fn to_base64(alloc: Global, args: &[Value]) -> Result<Option<Value>, OutOfMemory>
    ensures { IfOk result (λ value. option_map json value ≡ row.to_base64 (map json args.now)) }
{
    match args {
        [value] => value_encoded(alloc, value),
        _ => Ok(None),
    }
}

// The text of bytes that are UTF-8.
fn text_of_bytes(bytes: Vec<u8>) -> Option<Text>
    ensures { result ≡ text_of_bytes bytes.items }
{
    match String::from_utf8(bytes) {
        Ok(text) => Some(Text::from_string(text)),
        Err(_) => None,
    }
}

fn decoded(alloc: Global, text: &Text) -> Result<Option<Text>, OutOfMemory>
    ensures { IfOk result (λ t. t ≡ decoded text.now) }
{
    match STANDARD.decode(alloc, text.as_str().as_bytes()) {
        Ok(bytes) => Ok(text_of_bytes(bytes)),
        Err(DecodeAllocError::DecodeError(_)) => Ok(None),
        Err(DecodeAllocError::OutOfMemory) => Err(AllocError),
    }
}

fn text_decoded(alloc: Global, encoded: &Text) -> Result<Option<Value>, OutOfMemory>
    ensures { IfOk result (λ v. option_map json v ≡ option_map text (decoded encoded.now)) }
{
    match decoded(alloc, encoded)? {
        Some(text) => Ok(Some(Value::Text(text))),
        None => Ok(None),
    }
}

fn value_decoded(alloc: Global, value: &Value) -> Result<Option<Value>, OutOfMemory>
    ensures { IfOk result (λ v. option_map json v ≡ row.base64_to_string (json value.now ∷ [])) }
{
    match text_of(value) {
        Some(text) => text_decoded(alloc, text),
        None => Ok(None),
    }
}

/// `base64ToString`: the text whose base64 the text is, as `to_base64` gives it; none where the
/// text is no base64, lacks its padding, or is the base64 of bytes that are not UTF-8.
pub fn base64_to_string(alloc: Global, args: &[Value]) -> Result<Option<Value>, OutOfMemory>
    ensures { IfOk result (λ value. option_map json value
        ≡ row.base64_to_string (map json args.now)) }
{
    match args {
        [value] => value_decoded(alloc, value),
        _ => Ok(None),
    }
}
