// The values that are given for the parameters of a template, and what each parameter has then.

use crate::copied::{Copied, run_out};
use arm_value::{ListOf, OutOfMemory, Text, Value};
use std::alloc::Global;

/// A value that is given for a parameter.
#[derive(Drop)]
pub struct GivenValue {
    /// The parameter's name, in letters of any case.
    pub name: Text,
    /// The value, which is taken unchanged: no text in it is an expression.
    pub value: Value,
}

/// The values that are given for the parameters of a template. The names differ after ASCII case folding.
pub type Given = ListOf<GivenValue>;

/// What a parameter has before a deployment.
#[derive(Drop)]
pub enum BoundValue {
    /// This value.
    Known(Value),
    /// The value of this default, which has expressions or loops in it.
    Default(Value),
}

/// A parameter with what it has before a deployment.
#[derive(Drop)]
pub struct BoundParameter {
    /// Its name, as the template spells it.
    pub name: Text,
    /// What it has.
    pub value: BoundValue,
}

/// What each parameter of a template has before a deployment, in the order of the template.
pub type Bound = ListOf<BoundParameter>;

impl Copied for GivenValue {
    fn copied(&self, alloc: Global) -> Result<GivenValue, OutOfMemory> {
        let name = self.name.copy(alloc)?;
        match self.value.copy(alloc) {
            Ok(value) => Ok(GivenValue { name, value }),
            Err(_) => run_out(name),
        }
    }
}

impl Copied for BoundValue {
    fn copied(&self, alloc: Global) -> Result<BoundValue, OutOfMemory> {
        match self {
            BoundValue::Known(value) => Ok(BoundValue::Known(value.copy(alloc)?)),
            BoundValue::Default(value) => Ok(BoundValue::Default(value.copy(alloc)?)),
        }
    }
}

impl Copied for BoundParameter {
    fn copied(&self, alloc: Global) -> Result<BoundParameter, OutOfMemory> {
        let name = self.name.copy(alloc)?;
        match self.value.copied(alloc) {
            Ok(value) => Ok(BoundParameter { name, value }),
            Err(_) => run_out(name),
        }
    }
}
