//! Entries of a table.

use kept_parts::{Kept, KeptHoles};

/// What a declaration becomes where expressions and other declarations use it, and the whole name and the condition
/// that it has in a template.
#[derive(Drop)]
pub struct Entry {
    /// Of a variable; of what is no variable an expression without a value.
    pub variable: Kept,
    /// What a loop of resources or modules runs over; without a loop an expression without a value.
    pub items: Kept,
    /// The name of a resource or a module; of any other declaration an expression without a value. This and what
    /// follows have holes for the loop around the declaration.
    pub name: KeptHoles,
    /// The whole name of a resource or a module, after those of the resources that it is a child of.
    pub full_name: KeptHoles,
    /// The condition of a resource or a module, with that of the resource around it.
    pub condition: KeptHoles,
    /// The parts of the name in the id of a resource.
    pub parts: Vec<KeptHoles>,
    /// Whether the declaration is a resource.
    pub is_resource: bool,
}
