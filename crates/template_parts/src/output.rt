// The outputs of a template.
ghost use Rattle.std.specs.Prelude.{◌≡◌, IfOk};

use crate::content::Content;
use crate::copied::{Copied, copy_option, run_out};
use crate::value_type::ValueType;
use arm_value::{OutOfMemory, Text, Value};
use std::alloc::Global;

/// An output of a template.
#[derive(Drop)]
pub struct Output {
    /// Its name. The names of a template's outputs differ after ASCII case folding.
    pub name: Text,
    /// Its type.
    pub kind: ValueType,
    /// Its value.
    pub content: Content,
    /// Its condition; without one the output is always there.
    pub condition: Option<Value>,
    /// Metadata, which is not used.
    pub metadata: Option<Value>,
}

impl Output {
    // The output again, with this name and this value.
    fn copy_with(&self, alloc: Global, name: Text, content: Content) -> Result<Output, OutOfMemory>
        ensures { IfOk result (λ o. o ≡ record self.now { name = name; content = content }) }
    {
        match copy_option(alloc, &self.condition) {
            Ok(condition) => match copy_option(alloc, &self.metadata) {
                Ok(metadata) => Ok(Output {
                    name,
                    kind: self.kind,
                    content,
                    condition,
                    metadata,
                }),
                Err(_) => run_out((name, content, condition)),
            },
            Err(_) => run_out((name, content)),
        }
    }
}

impl Copied for Output {
    fn copied(&self, alloc: Global) -> Result<Output, OutOfMemory> {
        let name = self.name.copy(alloc)?;
        match self.content.copied(alloc) {
            Ok(content) => self.copy_with(alloc, name, content),
            Err(_) => run_out(name),
        }
    }
}
