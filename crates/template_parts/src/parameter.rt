// The parameters of a template.
ghost use Rattle.std.specs.Prelude.{◌≡◌, IfOk};

use crate::copied::{Copied, copy_option, run_out};
use crate::value_type::ValueType;
use arm_value::{Items, OutOfMemory, Text, Value};
use std::alloc::Global;

/// The bounds of a parameter's value. One that is not there bounds nothing.
#[derive(Clone, Copy, Debug)]
pub struct Bounds {
    /// The least number.
    pub min_value: Option<i64>,
    /// The greatest number.
    pub max_value: Option<i64>,
    /// The least length of a text in characters, or of an array.
    pub min_length: Option<i64>,
    /// The greatest length of a text in characters, or of an array.
    pub max_length: Option<i64>,
}

/// A parameter of a template.
#[derive(Drop)]
pub struct Parameter {
    /// Its name. The names of a template's parameters differ after ASCII case folding.
    pub name: Text,
    /// Its type.
    pub kind: ValueType,
    /// Its default, which may have expressions and loops in it; without one a value must be given.
    pub default_value: Option<Value>,
    /// The values that are allowed, each text as it is meant; without them all values are.
    pub allowed_values: Option<Items>,
    /// `minValue`, `maxValue`, `minLength` and `maxLength`.
    pub bounds: Bounds,
    /// Metadata, which is not used.
    pub metadata: Option<Value>,
}

impl Parameter {
    // The parameter again, with this name and this default.
    fn copy_with(
        &self,
        alloc: Global,
        name: Text,
        default_value: Option<Value>,
    ) -> Result<Parameter, OutOfMemory>
        ensures { IfOk result (λ p. p ≡ record self.now { name = name; default_value = default_value }) }
    {
        match copy_option(alloc, &self.allowed_values) {
            Ok(allowed_values) => match copy_option(alloc, &self.metadata) {
                Ok(metadata) => Ok(Parameter {
                    name,
                    kind: self.kind,
                    default_value,
                    allowed_values,
                    bounds: self.bounds,
                    metadata,
                }),
                Err(_) => run_out((name, default_value, allowed_values)),
            },
            Err(_) => run_out((name, default_value)),
        }
    }
}

impl Copied for Parameter {
    fn copied(&self, alloc: Global) -> Result<Parameter, OutOfMemory> {
        let name = self.name.copy(alloc)?;
        match copy_option(alloc, &self.default_value) {
            Ok(default_value) => self.copy_with(alloc, name, default_value),
            Err(_) => run_out(name),
        }
    }
}
