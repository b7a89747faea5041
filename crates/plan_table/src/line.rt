// The lines of a table: each is a cell, and how far it is.

use arm_ids::Key;
use arm_value::Value;

/// A cell of a scope that is there, by the number of the scope's frame.
#[derive(Clone, Copy)]
pub enum Spot {
    /// The parameter at this place among those of the template.
    Parameter(usize, usize),
    /// The variable at this place among those of the template.
    Variable(usize, usize),
    /// Whether the condition of the output at this place is true.
    Offered(usize, usize),
    /// The output at this place among those of the template.
    Output(usize, usize),
    /// How many instances the resource of this number has.
    Count(usize, usize),
    /// Whether an instance is included: the number of its resource, and its index.
    Included(usize, usize, usize),
    /// The name of an instance: the number of its resource, and its index.
    Name(usize, usize, usize),
    /// The nested deployments.
    Deployments(usize),
}

/// How far a cell is.
#[derive(Drop)]
pub enum State {
    /// Not begun.
    New,
    /// Begun, and what it waits for is on the way.
    Open,
    /// It has this value.
    Value(Value),
    /// It has no value.
    Empty,
    /// It waits for the state at this key.
    Late(Key),
}

/// A cell, and how far it is.
#[derive(Drop)]
pub struct Line {
    /// Which cell it is.
    pub spot: Spot,
    /// How far it is.
    pub state: State,
    /// The number of the frame that its value opened, where it is an instance of a nested deployment that is included.
    pub opened: usize,
}
