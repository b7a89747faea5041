// What a provider is asked to do.

/// What a provider is asked to do with a resource.
#[derive(Clone, Copy, Debug, PartialEq, Eq)]
pub enum Act {
    /// Create or replace the resource, as its body says.
    Put,
    /// Delete the resource.
    Delete,
}
