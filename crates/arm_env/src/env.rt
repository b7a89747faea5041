// The environment of an expression.

use arm_ids::{Key, Place};
use arm_value::{Text, Value};

/// What is known of a parameter, a variable or an output.
#[derive(Drop)]
pub enum Slot {
    /// It has this value.
    Known(Value),
    /// It has no value.
    Absent,
    /// It is not known yet.
    Late,
}

/// What is known of the state of a resource.
#[derive(Drop)]
pub enum Seen {
    /// This is the state.
    Now(Value),
    /// There is no such state.
    Never,
    /// It is not known yet.
    Later,
}

/// A parameter or a variable. Names are compared whatever the case of ASCII letters.
#[derive(Drop)]
pub struct Named {
    /// Its name, as it is spelled.
    pub name: Text,
    /// What is known of its value.
    pub slot: Slot,
}

/// A loop around an expression.
#[derive(Drop)]
pub struct Looping {
    /// An output's loop has no name.
    pub name: Option<Text>,
    /// Counted from 0.
    pub index: u32,
    /// Whether it is the loop of a resource or of an output.
    pub main: bool,
}

/// The state of the resource at a key.
#[derive(Drop)]
pub struct StateAt {
    /// The key of the resource.
    pub key: Key,
    /// What is known of its state.
    pub seen: Seen,
}

/// A resource of the template.
#[derive(Drop)]
pub struct Spelled {
    /// Its type and its name with a `/` between, as they are spelled.
    pub spelling: Text,
    /// The key that it is deployed at.
    pub key: Key,
}

/// A nested deployment, with its outputs.
#[derive(Drop)]
pub struct ModuleAt {
    /// The key of the deployment.
    pub key: Key,
    /// Its outputs; one that is left away by its condition is not listed.
    pub outputs: Vec<OutputAt>,
}

/// An output of a nested deployment.
#[derive(Drop)]
pub struct OutputAt {
    /// Its name, as it is spelled.
    pub name: Text,
    /// Its type, as it is spelled.
    pub kind: Text,
    /// What is known of its value.
    pub slot: Slot,
}

/// A resource of a template of the second form, by its symbolic name.
#[derive(Drop)]
pub struct Symbol {
    /// The symbolic name. Symbolic names are compared exactly.
    pub name: Text,
    /// The type of the resource.
    pub kind: Text,
    /// The text of its name, which may be an expression.
    pub title: Text,
    /// Whether it has a loop.
    pub looped: bool,
}

/// The environment of an expression.
///
/// Of entries of one name, or of one key, the first counts. A parameter, variable or output that is
/// not listed has no value.
#[derive(Drop)]
pub struct Env<'a> {
    /// The parameters of the template instance; one that is not listed has no value.
    pub parameters: Vec<Named>,
    /// The variables of the template instance; one that is not listed has no value.
    pub variables: Vec<Named>,
    /// The loops around, the nearest first.
    pub loops: Vec<Looping>,
    /// Where the template is deployed.
    pub place: &'a Place,
    /// The states of resources; a key that is not listed has no state.
    pub states: Vec<StateAt>,
    /// The resources of the template instance that has the expression. The nested
    /// deployments of that instance are among them, so that a text which two of them match has no
    /// value.
    pub names: Vec<Spelled>,
    /// The nested deployments of that instance, and after them those of the instances around that
    /// an expression in an `outer` scope can see (not those around an `inner` scope).
    pub modules: Vec<ModuleAt>,
    /// The resources of a template of the second form; none where it is of the first form.
    pub symbols: Vec<Symbol>,
    /// Whether a text of `reference` is an id and nothing else, as inside the name of a resource.
    pub inside_name: bool,
}
