// The loop of a resource.

use crate::copied::{Copied, run_out};
use arm_value::{OutOfMemory, Text, Value};
use std::alloc::Global;

/// When the instances of a looped resource may begin.
#[derive(Clone, Copy, Debug, PartialEq, Eq)]
pub enum Batches {
    /// All at once.
    Parallel,
    /// Batches of this size, 1 to 800, one after another.
    Serial(u32),
}

/// The loop of a resource, which has one instance for each index from 0 below the count.
#[derive(Drop)]
pub struct ResourceCopy {
    /// Its name. The names of a template's loops differ after ASCII case folding.
    pub name: Text,
    /// The count, which may be an expression.
    pub count: Value,
    /// `mode` and `batchSize`.
    pub batches: Batches,
}

impl Copied for ResourceCopy {
    fn copied(&self, alloc: Global) -> Result<ResourceCopy, OutOfMemory> {
        let name = self.name.copy(alloc)?;
        match self.count.copy(alloc) {
            Ok(count) => Ok(ResourceCopy {
                name,
                count,
                batches: self.batches,
            }),
            Err(_) => run_out(name),
        }
    }
}
