// The cells that an expression looks at.

use arm_ids::Key;
use arm_value::Text;

/// A cell that an expression looks at. Names of parameters, variables and outputs are compared
/// whatever the case of ASCII letters.
#[derive(Drop)]
pub enum Cell {
    /// The parameter of this name.
    Parameter(Text),
    /// The variable of this name.
    Variable(Text),
    /// The output of this name of the nested deployment at a key.
    Output(Key, Text),
    /// The state of the resource at a key.
    State(Key),
    /// What a text of `reference` that is no id stands for.
    Named(Text),
    /// Whether a nested deployment can be seen at a key.
    Deployment(Key),
    /// The outputs that the nested deployment at a key has.
    Outputs(Key),
}
