// The modules of a file.
ghost use Rattle.std.specs.Prelude.{◌≡◌, ◌++◌, map, option_map, option_to_list, IfOk, OnOk};
ghost use Rattle.bicep_tree.specs.View as view;
ghost use Rattle.bicep_arguments.specs.Arguments as spec;
ghost use Rattle.bicep_arguments.specs.View.{parameters_tree, module_tree};

use crate::arguments::bad_body;
use crate::fault::ArgumentFault;
use crate::parameters::Parameters;
use arm_value::OutOfMemory;
use bicep_tree::{Body, Declaration, Statement};
use std::alloc::Global;

/// A module of a file.
#[derive(Clone, Copy)]
pub(crate) struct Module<'a> {
    /// The offset of its name, in bytes.
    pub(crate) at: usize,
    /// Its body.
    pub(crate) body: &'a Body,
}

// The module that a declaration is.
fn module_of(declaration: &Declaration) -> Option<Module<'_>>
    ensures { option_map module_tree result ≡ spec.module_of (view.declaration_of declaration.now) }
{
    match declaration {
        Declaration::Module(_, name, _, body) => Some(Module { at: name.at, body }),
        Declaration::Metadata(_, _, _)
        | Declaration::TargetScope(_, _)
        | Declaration::Param(_, _, _)
        | Declaration::ParamWith(_, _, _, _)
        | Declaration::Var(_, _, _)
        | Declaration::Output(_, _, _, _)
        | Declaration::Resource(_) => None,
    }
}

// Puts a module last, where there is one.
fn push_some<'a>(
    modules: &mut Vec<Module<'a>>,
    found: Option<Module<'a>>,
) -> Result<(), OutOfMemory>
    ensures { OnOk result (map module_tree modules.new.items
        ≡ map module_tree modules.old.items ++ option_to_list (option_map module_tree found.entry)) }
{
    match found {
        Some(found) => {
            modules.push(found)?;
            Ok(())
        }
        None => Ok(()),
    }
}

// The modules of a file in source order.
fn modules_of(alloc: Global, file: &[Statement]) -> Result<Vec<Module<'_>>, OutOfMemory>
    ensures { IfOk result (λ v. map module_tree v.items ≡ spec.modules_of (view.file_of file.now)) }
{
    let mut modules = Vec::new(alloc);
    for statement in file {
        push_some(&mut modules, module_of(&statement.declaration))?;
    }
    Ok(modules)
}

// The parameters of the file of the first number.
#[tactic(auto, using(crate::proofs::PlaceLemmas::places))]
fn parameters_at<'a>(parameters: &'a [Parameters], numbers: &[u32]) -> Option<&'a Parameters>
    ensures { option_map (λ p. parameters_tree p.now) result
        ≡ spec.parameters_at (map parameters_tree parameters.now) (spec.first_of numbers.now) }
{
    match numbers {
        [number, ..] => match parameters.get(*number as usize) {
            Some(found) => Some(found),
            None => None,
        },
        [] => None,
    }
}

fn rest_of(numbers: &[u32]) -> &[u32]
    ensures { result.now ≡ spec.rest_of numbers.now }
{
    match numbers {
        [_, rest @ ..] => rest,
        [] => numbers,
    }
}

fn bad_module(
    alloc: Global,
    parameters: Option<&Parameters>,
    found: Module<'_>,
) -> Result<Option<ArgumentFault>, OutOfMemory>
    ensures { IfOk result (λ o. o ≡ spec.bad_module (option_map (λ p. parameters_tree p.now) parameters.entry)
        (module_tree found.entry)) }
{
    match parameters {
        Some(parameters) => bad_body(alloc, parameters, found.at, found.body),
        None => Ok(None),
    }
}

// The first fault of the arguments of modules, of which each has the file of the next number.
fn bad_modules(
    alloc: Global,
    parameters: &[Parameters],
    numbers: &[u32],
    modules: &[Module<'_>],
) -> Result<Option<ArgumentFault>, OutOfMemory>
    ensures { IfOk result (λ o. o ≡ spec.bad_modules (map parameters_tree parameters.now) numbers.now
        (map module_tree modules.now)) }
{
    let mut rest = numbers;
    for found in modules {
        match bad_module(alloc, parameters_at(parameters, rest), *found)? {
            Some(fault) => return Ok(Some(fault)),
            None => {}
        }
        rest = rest_of(rest);
    }
    Ok(None)
}

/// The first fault of the arguments of the modules of a file, none where there is none. `numbers` has for each module
/// of the file, in order, the number of its file in the program, and `parameters` the parameters of each file of the
/// program.
///
/// # Errors
///
/// `OutOfMemory`.
pub fn bad_argument(
    alloc: Global,
    parameters: &[Parameters],
    numbers: &[u32],
    file: &[Statement],
) -> Result<Option<ArgumentFault>, OutOfMemory>
    ensures { IfOk result (λ o. o
        ≡ spec.bad_argument (map parameters_tree parameters.now) numbers.now (view.file_of file.now)) }
{
    let modules = modules_of(alloc, file)?;
    bad_modules(alloc, parameters, numbers, modules.as_slice())
}
