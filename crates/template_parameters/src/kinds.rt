// Which types a value is of.

ghost use Rattle.std.specs.Prelude.{◌≡◌};
ghost use Rattle.arm_value.specs.View.{json};
ghost use Rattle.template_parameters.specs.Rule.{is_text, is_int, is_bool, is_of};
ghost use Rattle.arm_value.specs.Kinds.{is_array};
ghost use Rattle.arm_value.specs.Kinds.{is_object};

use arm_value::Value;
use template_parts::ValueType;

fn is_text(value: &Value) -> bool
    ensures { result ≡ is_text (json value.now) }
{
    match value {
        Value::Text(_) => true,
        _ => false,
    }
}

fn is_int(value: &Value) -> bool
    ensures { result ≡ is_int (json value.now) }
{
    match value {
        Value::Int(_) => true,
        _ => false,
    }
}

fn is_bool(value: &Value) -> bool
    ensures { result ≡ is_bool (json value.now) }
{
    match value {
        Value::Bool(_) => true,
        _ => false,
    }
}

fn is_object(value: &Value) -> bool
    ensures { result ≡ is_object (json value.now) }
{
    match value {
        Value::Object(_) => true,
        _ => false,
    }
}

fn is_array(value: &Value) -> bool
    ensures { result ≡ is_array (json value.now) }
{
    match value {
        Value::Array(_) => true,
        _ => false,
    }
}

/// Whether the value is of the type.
pub fn is_of(kind: ValueType, value: &Value) -> bool
    ensures { result ≡ is_of kind (json value.now) }
{
    match kind {
        ValueType::String => is_text(value),
        ValueType::SecureString => is_text(value),
        ValueType::Int => is_int(value),
        ValueType::Bool => is_bool(value),
        ValueType::Object => is_object(value),
        ValueType::SecureObject => is_object(value),
        ValueType::Array => is_array(value),
    }
}
