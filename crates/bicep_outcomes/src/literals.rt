//! Values that are one token.
ghost use Rattle.std.specs.Prelude.{Some};
ghost use Rattle.arm_value.specs.Json.{text};
ghost use Rattle.arm_value.specs.View.{json};
ghost use Rattle.bicep_meaning.specs.Rows.{literal_value};
ghost use Rattle.bicep_outcomes.specs.Outcomes.{IsFound};

use crate::stop::Stop;
use arm_value::{Text, Value};
use bicep_tree::Literal;
use std::alloc::Global;

fn text_value(alloc: Global, characters: &Text) -> Result<Value, Stop>
    ensures { IsFound json (Some (text characters.now)) result }
{
    Ok(Value::Text(characters.copy(alloc)?))
}

/// The value of a literal.
pub fn literal(alloc: Global, literal: &Literal) -> Result<Value, Stop>
    ensures { IsFound json (Some (literal_value literal.now)) result }
{
    match literal {
        Literal::Number(number) => Ok(Value::Int(*number)),
        Literal::Text(text) => text_value(alloc, text),
        Literal::True => Ok(Value::Bool(true)),
        Literal::False => Ok(Value::Bool(false)),
        Literal::Null => Ok(Value::Null),
    }
}
