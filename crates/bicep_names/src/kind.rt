// Kinds of symbols, and what a name may stand for.
ghost use Rattle.std.specs.Prelude.{◌≡◌};
ghost use Rattle.bicep_names.specs.Scope.{symbol, nested_by, is_inside};

use bicep_resolved::{Meaning, Target};

/// The kind of a symbol.
#[derive(Clone, Copy, PartialEq, Eq)]
pub enum Kind {
    /// A parameter.
    Parameter,
    /// A variable.
    Variable,
    /// A resource that is no loop, and the number of the resource in which it is nested.
    Resource(Option<usize>),
    /// The resources of a loop, and the number of the resource in which they are nested.
    ResourceLoop(Option<usize>),
    /// A module that is no loop, and the number of its file in the program.
    Module(usize),
    /// The modules of a loop, and the number of their file in the program.
    ModuleLoop(usize),
}

/// What a name stands for.
#[derive(Clone, Copy, PartialEq, Eq)]
pub enum Named {
    /// A parameter, a variable, or the item or the index of a loop.
    Value(Meaning),
    /// A resource, a module, or all of a loop.
    Instance(Target),
}

// What the symbol of that kind and number is.
pub(crate) fn symbol(kind: Kind, number: usize) -> Named
    ensures { result ≡ symbol kind number }
{
    match kind {
        Kind::Parameter => Named::Value(Meaning::Parameter(number)),
        Kind::Variable => Named::Value(Meaning::Variable(number)),
        Kind::Resource(_) => Named::Instance(Target::Resource(number)),
        Kind::ResourceLoop(_) => Named::Instance(Target::ResourceLoop(number)),
        Kind::Module(file) => Named::Instance(Target::Module(number, file)),
        Kind::ModuleLoop(file) => Named::Instance(Target::ModuleLoop(number, file)),
    }
}

fn is_inside(around: usize, inside: Option<usize>) -> bool
    ensures { result ≡ is_inside around inside }
{
    match inside {
        Some(number) => number == around,
        None => false,
    }
}

// The resource of that kind and number, where it is nested in the one of the number `around`.
pub(crate) fn nested_by(around: usize, number: usize, kind: Kind) -> Option<Target>
    ensures { result ≡ nested_by around number kind }
{
    match kind {
        Kind::Resource(inside) => if is_inside(around, inside) {
            Some(Target::Resource(number))
        } else {
            None
        },
        Kind::ResourceLoop(inside) => if is_inside(around, inside) {
            Some(Target::ResourceLoop(number))
        } else {
            None
        },
        Kind::Parameter | Kind::Variable | Kind::Module(_) | Kind::ModuleLoop(_) => None,
    }
}
