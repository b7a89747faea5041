//! What names and fields stand for.

use arm_value::Text;

/// What a name stands for that is no resource and no module. A symbol has a number: its place among the symbols of its
/// file, which are its parameters, variables, resources and modules in source order.
#[derive(Clone, Copy, PartialEq, Eq)]
pub enum Meaning {
    /// The parameter of that number.
    Parameter(usize),
    /// The variable of that number.
    Variable(usize),
    /// The item of a loop, by how many loops are between it and the name.
    Item(usize),
    /// The index of a loop, by how many loops are between it and the name.
    Index(usize),
}

/// A resource or a module, by its number among the symbols of its file.
#[derive(Clone, Copy, PartialEq, Eq)]
pub enum Target {
    /// A resource that is no loop.
    Resource(usize),
    /// The resources of a loop.
    ResourceLoop(usize),
    /// A module that is no loop, and the number of its file in the program.
    Module(usize, usize),
    /// The modules of a loop, and the number of their file in the program.
    ModuleLoop(usize, usize),
}

/// A field of a resource or a module, after its `.`.
#[derive(Drop)]
pub enum Field {
    /// `id` of a resource.
    Id,
    /// `name`
    Name,
    /// `type` of a resource.
    Type,
    /// `apiVersion` of a resource.
    ApiVersion,
    /// `properties` of a resource.
    Properties,
    /// `outputs` of a module.
    Outputs,
    /// Any other: of a resource a member of its state, of a module one that it does not have.
    Other(Text),
}

/// How a part of a value is named, after the value.
#[derive(Clone, Copy, PartialEq, Eq)]
pub enum Selector {
    /// `.`
    Plain,
    /// `.?`
    Safe,
}
