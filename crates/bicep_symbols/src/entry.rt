// Symbols as they are written.

use arm_value::Text;
use bicep_names::Kind;

/// A symbol of a file.
#[derive(Drop)]
pub struct Entry {
    /// The offset of its name, in bytes.
    pub at: usize,
    /// Its name.
    pub name: Text,
    /// Its kind.
    pub kind: Kind,
}
