//! Statements of a file.

use crate::expr::{Body, Decorator, Expr, Resource, Value};
use crate::leaf::{Name, Quoted, TypeName};

/// A declaration. A number in front of a variant is the offset of the declaration's first word in the
/// source, in bytes; a resource has its own (`Declaration::at`).
#[derive(Drop)]
pub enum Declaration {
    /// `metadata name = e`
    Metadata(usize, Name, Expr),
    /// `targetScope = e`
    TargetScope(usize, Expr),
    /// `param name type`
    Param(usize, Name, TypeName),
    /// `param name type = e`
    ParamWith(usize, Name, TypeName, Expr),
    /// `var name = value`
    Var(usize, Name, Value),
    /// `output name type = value`
    Output(usize, Name, TypeName, Value),
    /// `resource name 'type@version' = body`
    Resource(Resource),
    /// `module name 'path' = body`
    Module(usize, Name, Quoted, Body),
}

/// A declaration after its decorators.
#[derive(Drop)]
pub struct Statement {
    /// Its decorators in order.
    pub decorators: Vec<Decorator>,
    /// The declaration.
    pub declaration: Declaration,
}

/// The statements of a file in order.
pub type File = Vec<Statement>;
