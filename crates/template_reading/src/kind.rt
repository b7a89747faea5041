// The types of parameters and outputs.

ghost use Rattle.std.specs.Prelude.{◌≡◌, option_map};
ghost use Rattle.arm_value.specs.View.{json};
ghost use Rattle.template_meaning.specs.Parts.{type_in};

use crate::values::is_word;
use arm_value::Value;
use template_parts::ValueType;

/// The type that the word names, in letters of any case.
pub fn type_in(value: Option<&Value>) -> ValueType
    ensures { result ≡ type_in (option_map (λ v. json v.now) value.entry) }
{
    if is_word(value, "securestring") {
        return ValueType::SecureString;
    }
    if is_word(value, "int") {
        return ValueType::Int;
    }
    if is_word(value, "bool") {
        return ValueType::Bool;
    }
    if is_word(value, "object") {
        return ValueType::Object;
    }
    if is_word(value, "secureobject") {
        return ValueType::SecureObject;
    }
    if is_word(value, "array") {
        return ValueType::Array;
    }
    ValueType::String
}
