// A resource as a store holds it.
ghost use Rattle.std.specs.Prelude.{◌≡◌, IfOk};

use crate::segment::copy_pair;
use arm_value::{OutOfMemory, Text, Value};
use std::alloc::Global;

/// A resource as a store holds it.
#[derive(Drop)]
pub struct Entry {
    /// The id, with its letters as they were spelled when the resource was put.
    pub id: Text,
    /// The API version with which the resource was put.
    pub api: Text,
    /// The body that was put.
    pub body: Value,
    /// The state that the provider answered.
    pub state: Value,
}

impl Entry {
    /// An equal entry.
    pub fn copy(&self, alloc: Global) -> Result<Entry, OutOfMemory>
        ensures { IfOk result (λ e. e ≡ self.now) }
    {
        let (body, state) = copy_values(alloc, &self.body, &self.state)?;
        entry_of(alloc, &self.id, &self.api, body, state)
    }
}

// The entry of copies of the texts, and of the values.
fn entry_of(
    alloc: Global,
    id: &Text,
    api: &Text,
    body: Value,
    state: Value,
) -> Result<Entry, OutOfMemory>
    ensures { IfOk result (λ e. e ≡ record {
      id = id.now;
      api = api.now;
      body = body;
      state = state;
    }) }
{
    let (id, api) = copy_pair(alloc, id, api)?;
    Ok(Entry {
        id,
        api,
        body,
        state,
    })
}

// Copies of both values.
fn copy_values(alloc: Global, one: &Value, other: &Value) -> Result<(Value, Value), OutOfMemory>
    ensures { IfOk result (λ p. (p.0 ≡ one.now) × (p.1 ≡ other.now)) }
{
    let one = one.copy(alloc)?;
    Ok((one, other.copy(alloc)?))
}
