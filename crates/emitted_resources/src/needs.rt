//! What resources of a template have beside what their declarations say.

use arm_value::{Items, Text, Value};
use template_parts::Batches;

/// What a resource or a module has in a template beside what its declaration says.
#[derive(Drop)]
pub struct Needs {
    /// Its symbolic name, in a template that has such.
    pub symbol: Option<Text>,
    /// What it depends on by name.
    pub depends_on: Items,
    /// When the instances of its loop may begin.
    pub batches: Batches,
    /// Its metadata.
    pub metadata: Option<Value>,
}
