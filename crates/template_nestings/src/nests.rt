//! Parts of a template that nest.
ghost use Rattle.std.specs.Prelude.{◌≡◌};
ghost use Rattle.template_nestings.specs.Nestings as spec;

use crate::parts::{allowed, greater, looped, optional, up, value};
use template_parts::{Argument, Content, Output, Parameter, Variable};

/// A part of a template, with how deep nests what is written of it.
pub(crate) trait Nests {
    ghost use Rattle.std.specs.Prelude.{◌≡◌, ℕ};

    /// How deep it nests.
    ghost nesting_of: { Self → ℕ };

    /// How deep it nests.
    fn nesting(&self) -> u64
        ensures { result ≡ nesting_of self.now };
}

// Of the value of a variable or an argument.
fn content(content: &Content) -> u64
    ensures { result ≡ spec.content_nesting content.now }
{
    match content {
        Content::Value(plain) => value(plain),
        Content::Copy(count, input) => up(looped(count, input)),
    }
}

// Of the value of an output.
fn output_content(content: &Content) -> u64
    ensures { result ≡ spec.output_content content.now }
{
    match content {
        Content::Value(plain) => value(plain),
        Content::Copy(count, input) => looped(count, input),
    }
}

impl Nests for Parameter {
    ghost use Rattle.template_nestings.specs.Nestings.{parameter_nesting};

    ghost nesting_of = { parameter_nesting };

    fn nesting(&self) -> u64 {
        let rest = greater(allowed(&self.allowed_values), optional(&self.metadata));
        up(greater(optional(&self.default_value), rest))
    }
}

impl Nests for Variable {
    ghost use Rattle.template_nestings.specs.Nestings.{variable_nesting};

    ghost nesting_of = { variable_nesting };

    fn nesting(&self) -> u64 {
        content(&self.content)
    }
}

impl Nests for Output {
    ghost use Rattle.template_nestings.specs.Nestings.{output_nesting};

    ghost nesting_of = { output_nesting };

    fn nesting(&self) -> u64 {
        let rest = greater(optional(&self.condition), optional(&self.metadata));
        up(greater(output_content(&self.content), rest))
    }
}

impl Nests for Argument {
    ghost use Rattle.template_nestings.specs.Nestings.{argument_nesting};

    ghost nesting_of = { argument_nesting };

    fn nesting(&self) -> u64 {
        up(content(&self.content))
    }
}
