//! What is known of a symbol before the table is filled.

use template_parts::Batches;

/// What is known of a symbol before the table is filled.
#[derive(Clone, Copy)]
pub struct Mark {
    /// Whether it is a variable that has an entry in the template.
    pub has_entry: bool,
    /// When the instances of its loop may begin.
    pub batches: Batches,
}
