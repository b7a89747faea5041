// The value of a variable, an output or an argument: a value, or what a loop gives.

use crate::copied::{Copied, run_out};
use arm_value::{OutOfMemory, Text, Value};
use std::alloc::Global;

/// What a variable, an output or an argument has as its value.
#[derive(Drop)]
pub enum Content {
    /// The value, which may have expressions and loops in it.
    Value(Value),
    /// The array of the values of the second, the input, for each index of a loop whose count is the first.
    Copy(Value, Value),
}

/// What a nested deployment gives for a parameter of its template.
#[derive(Drop)]
pub struct Argument {
    /// The parameter's name, as it is spelled there.
    pub name: Text,
    /// The value.
    pub content: Content,
}

impl Copied for Content {
    fn copied(&self, alloc: Global) -> Result<Content, OutOfMemory> {
        match self {
            Content::Value(value) => Ok(Content::Value(value.copy(alloc)?)),
            Content::Copy(count, input) => {
                let count = count.copy(alloc)?;
                match input.copy(alloc) {
                    Ok(input) => Ok(Content::Copy(count, input)),
                    Err(_) => run_out(count),
                }
            }
        }
    }
}

impl Copied for Argument {
    fn copied(&self, alloc: Global) -> Result<Argument, OutOfMemory> {
        let name = self.name.copy(alloc)?;
        match self.content.copied(alloc) {
            Ok(content) => Ok(Argument { name, content }),
            Err(_) => run_out(name),
        }
    }
}
