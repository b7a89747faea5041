// Where things are.

/// Where an expression is.
#[derive(Clone, Copy, PartialEq, Eq)]
pub enum Spot {
    /// In no resource and no module.
    Outside,
    /// The value of a field of a resource or a module, or in objects and arrays of it.
    Field,
    /// Elsewhere in a resource or a module.
    Inside,
}

/// What has fields.
#[derive(Clone, Copy, PartialEq, Eq)]
pub enum Owner {
    /// A resource that is not nested.
    Resource,
    /// A resource in the body of another.
    Nested,
    /// A module.
    Module,
}

/// Whether a body is that of a loop.
#[derive(Clone, Copy, PartialEq, Eq)]
pub enum Repeated {
    /// It is that of no loop.
    Once,
    /// It is that of a loop.
    Each,
}
