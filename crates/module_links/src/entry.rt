// Files that were named.

use arm_value::Text;

/// A file that was named, and where first.
#[derive(Drop)]
pub struct Entry {
    /// The path of the file from the folder of all files on.
    pub name: Text,
    /// The file that named it first.
    pub by: Text,
    /// The path that is written there.
    pub path: Text,
}
