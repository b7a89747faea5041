// `copy`, which may run out of memory.
ghost use Rattle.std.specs.Prelude.{◌≡◌, IfOk};

use crate::memory::OutOfMemory;
use crate::value::{Fields, Items, Value};
use std::alloc::Global;

impl Value {
    /// The same value again.
    #[cycle(copy)]
    pub fn copy(&self, alloc: Global) -> Result<Value, OutOfMemory>
        ensures { IfOk result (λ v. v ≡ self.now) }
    {
        match self {
            Value::Null => Ok(Value::Null),
            Value::Bool(b) => Ok(Value::Bool(*b)),
            Value::Int(n) => Ok(Value::Int(*n)),
            Value::Text(text) => Ok(Value::Text(text.copy(alloc)?)),
            Value::Array(items) => Ok(Value::Array(items.copy(alloc)?)),
            Value::Object(fields) => Ok(Value::Object(fields.copy(alloc)?)),
        }
    }
}

impl Items {
    /// The same items again.
    #[cycle(copy)]
    pub fn copy(&self, alloc: Global) -> Result<Items, OutOfMemory>
        ensures { IfOk result (λ v. v ≡ self.now) }
    {
        let mut copies = Items::new();
        for item in self.as_slice() {
            copies.push(alloc, item.copy(alloc)?)?;
        }
        Ok(copies)
    }
}

impl Fields {
    /// The same members again.
    #[cycle(copy)]
    pub fn copy(&self, alloc: Global) -> Result<Fields, OutOfMemory>
        ensures { IfOk result (λ v. v ≡ self.now) }
    {
        let mut copies = Fields::new();
        for field in self.as_slice() {
            let name = field.name.copy(alloc)?;
            let value = field.value.copy(alloc)?;
            copies.push_last(alloc, name, value)?;
        }
        Ok(copies)
    }
}
