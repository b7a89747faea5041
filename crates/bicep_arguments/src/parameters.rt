//! The parameters of a file.
ghost use Rattle.std.specs.Prelude.{◌≡◌, ◌++◌, option_map, option_to_list, IfOk, OnOk};
ghost use Rattle.bicep_tree.specs.View as view;
ghost use Rattle.bicep_arguments.specs.Parameters as spec;
ghost use Rattle.bicep_arguments.specs.View.{parameters_tree};

use arm_value::{OutOfMemory, Text};
use bicep_tree::{Declaration, Statement};
use name_set::NameSet;
use std::alloc::Global;

/// The parameters of a file.
#[derive(Drop)]
pub struct Parameters {
    /// The names of all.
    pub names: NameSet,
    /// The names of those that have no default.
    pub required: Vec<Text>,
}

fn parameter_of(declaration: &Declaration) -> Option<&Text>
    ensures { option_map (λ t. t.now) result ≡ spec.parameter_of (view.declaration_of declaration.now) }
{
    match declaration {
        Declaration::Param(_, name, _) | Declaration::ParamWith(_, name, _, _) => Some(&name.text),
        Declaration::Metadata(_, _, _)
        | Declaration::TargetScope(_, _)
        | Declaration::Var(_, _, _)
        | Declaration::Output(_, _, _, _)
        | Declaration::Resource(_)
        | Declaration::Module(_, _, _, _) => None,
    }
}

fn required_of(declaration: &Declaration) -> Option<&Text>
    ensures { option_map (λ t. t.now) result ≡ spec.required_of (view.declaration_of declaration.now) }
{
    match declaration {
        Declaration::Param(_, name, _) => Some(&name.text),
        Declaration::ParamWith(_, _, _, _)
        | Declaration::Metadata(_, _, _)
        | Declaration::TargetScope(_, _)
        | Declaration::Var(_, _, _)
        | Declaration::Output(_, _, _, _)
        | Declaration::Resource(_)
        | Declaration::Module(_, _, _, _) => None,
    }
}

// The names with one more, where there is one.
fn with_some(alloc: Global, names: NameSet, name: Option<&Text>) -> Result<NameSet, OutOfMemory>
    ensures { IfOk result (λ s. s ≡ names ++ option_to_list (option_map (λ t. t.now) name.entry)) }
{
    match name {
        Some(name) => names.with(alloc, name),
        None => Ok(names),
    }
}

// Puts a copy of a name last, where there is one.
fn push_some(alloc: Global, names: &mut Vec<Text>, name: Option<&Text>) -> Result<(), OutOfMemory>
    ensures { OnOk result (names.new.items
        ≡ names.old.items ++ option_to_list (option_map (λ t. t.now) name.entry)) }
{
    match name {
        Some(name) => {
            names.push(name.copy(alloc)?)?;
            Ok(())
        }
        None => Ok(()),
    }
}

fn all_names(alloc: Global, file: &[Statement]) -> Result<NameSet, OutOfMemory>
    ensures { IfOk result (λ s. s ≡ spec.parameters_of (view.file_of file.now)) }
{
    let mut names = NameSet::new(alloc);
    for statement in file {
        names = with_some(alloc, names, parameter_of(&statement.declaration))?;
    }
    Ok(names)
}

fn all_required(alloc: Global, file: &[Statement]) -> Result<Vec<Text>, OutOfMemory>
    ensures { IfOk result (λ v. v.items ≡ spec.all_required (view.file_of file.now)) }
{
    let mut names = Vec::new(alloc);
    for statement in file {
        push_some(alloc, &mut names, required_of(&statement.declaration))?;
    }
    Ok(names)
}

/// The parameters of a file.
///
/// # Errors
///
/// `OutOfMemory`.
pub fn parameters_of(alloc: Global, file: &[Statement]) -> Result<Parameters, OutOfMemory>
    ensures { IfOk result (λ p. parameters_tree p ≡ spec.file_parameters (view.file_of file.now)) }
{
    let names = all_names(alloc, file)?;
    let required = all_required(alloc, file)?;
    Ok(Parameters { names, required })
}
