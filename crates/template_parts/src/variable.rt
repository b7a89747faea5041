// The variables of a template.

use crate::content::Content;
use crate::copied::{Copied, run_out};
use arm_value::{OutOfMemory, Text};
use std::alloc::Global;

/// A variable of a template.
#[derive(Drop)]
pub struct Variable {
    /// Its name. The names of a template's variables differ after ASCII case folding.
    pub name: Text,
    /// Its value, which reads no state of a resource.
    pub content: Content,
}

impl Copied for Variable {
    fn copied(&self, alloc: Global) -> Result<Variable, OutOfMemory> {
        let name = self.name.copy(alloc)?;
        match self.content.copied(alloc) {
            Ok(content) => Ok(Variable { name, content }),
            Err(_) => run_out(name),
        }
    }
}
