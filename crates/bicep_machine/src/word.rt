// The words that begin declarations.

/// What a declaration begins with.
#[derive(Clone, Copy, PartialEq, Eq)]
pub enum Word {
    /// `metadata`
    Metadata,
    /// `targetScope`
    TargetScope,
    /// `param`
    Param,
    /// `var`
    Var,
    /// `output`
    Output,
    /// `resource` in a file.
    Resource,
    /// `resource` in an object.
    Child,
    /// `module`
    Module,
}

/// What a body belongs to.
#[derive(Clone, Copy, PartialEq, Eq)]
pub enum Owner {
    /// A resource of a file, an existing one or not.
    Resource(bool),
    /// A resource of an object, an existing one or not.
    Child(bool),
    /// A module.
    Module,
}
