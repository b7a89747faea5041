// What became known of cells after the start.

use arm_ids::Key;
use arm_value::Value;
use tag_places::Places;

/// What became known by the line of a cell: of a parameter or a variable, or of the output whose condition the line is.
#[derive(Drop)]
pub enum Entry {
    /// Nothing.
    Missing,
    /// The value. An output has it, and its condition is true.
    Value(Value),
    /// That it has no value: the condition of the output is false, or the parameter or variable has none.
    Away,
}

/// A state that is known.
#[derive(Drop)]
pub struct StateAt {
    /// The key of the resource.
    pub key: Key,
    /// Its state, or that it has none.
    pub state: Option<Value>,
}

/// What became known after the start.
#[derive(Drop)]
pub struct Later {
    /// An entry for each line of the table of the start.
    pub entries: Vec<Entry>,
    /// The states that are known.
    pub states: Vec<StateAt>,
    /// For each key the place of its state among these.
    pub places: Places,
}
