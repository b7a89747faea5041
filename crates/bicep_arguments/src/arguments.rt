// Which arguments are wrong.
ghost use Rattle.std.specs.Prelude.{◌≡◌, [], map, option_map, IfOk};
ghost use Rattle.bicep_tree.specs.Tree as tree;
ghost use Rattle.bicep_tree.specs.View as view;
ghost use Rattle.bicep_arguments.specs.Arguments as spec;
ghost use Rattle.bicep_arguments.specs.View.{parameters_tree};

use crate::fault::ArgumentFault;
use crate::fields::{body_members, object_of, params_in};
use crate::parameters::Parameters;
use arm_value::{OutOfMemory, Text};
use bicep_tree::{Body, Member};
use name_set::NameSet;
use std::alloc::Global;

// The offset of an argument that names none of these.
#[tactic(auto, using(bicep_tree::proofs::ViewLemmas::enums))]
fn extra_of(alloc: Global, names: &NameSet, argument: &Member) -> Result<Option<usize>, OutOfMemory>
    ensures { IfOk result (λ o. o ≡ spec.extra_of names.now (view.member_of argument.now)) }
{
    match argument {
        Member::Property(label, _) => {
            if names.has(alloc, label.text())? {
                return Ok(None);
            }
            Ok(Some(label.at()))
        }
        Member::Child(_, _) => Ok(None),
    }
}

// The offset of the first argument that names none of these.
fn extra_in(
    alloc: Global,
    names: &NameSet,
    arguments: &[Member],
) -> Result<Option<usize>, OutOfMemory>
    ensures { IfOk result (λ o. o ≡ spec.extra_in names.now (tree.members (map view.member_of arguments.now))) }
{
    for argument in arguments {
        match extra_of(alloc, names, argument)? {
            Some(at) => return Ok(Some(at)),
            None => {}
        }
    }
    Ok(None)
}

// The names with that of an argument.
#[tactic(auto, using(bicep_tree::proofs::ViewLemmas::enums))]
fn with_argument(alloc: Global, names: NameSet, argument: &Member) -> Result<NameSet, OutOfMemory>
    ensures { IfOk result (λ s. s ≡ spec.with_argument names (view.member_of argument.now)) }
{
    match argument {
        Member::Property(label, _) => names.with(alloc, label.text()),
        Member::Child(_, _) => Ok(names),
    }
}

// The names of arguments.
fn given(alloc: Global, arguments: &[Member]) -> Result<NameSet, OutOfMemory>
    ensures { IfOk result (λ s. s ≡ spec.given_after [] (tree.members (map view.member_of arguments.now))) }
{
    let mut names = NameSet::new(alloc);
    for argument in arguments {
        names = with_argument(alloc, names, argument)?;
    }
    Ok(names)
}

// Whether one of the required names is not given.
fn lacks_one(alloc: Global, given: &NameSet, required: &[Text]) -> Result<bool, OutOfMemory>
    ensures { IfOk result (λ b. b ≡ spec.lacks_one given.now required.now) }
{
    for name in required {
        if !given.has(alloc, name)? {
            return Ok(true);
        }
    }
    Ok(false)
}

fn missing_at(
    alloc: Global,
    at: usize,
    required: &[Text],
    arguments: &[Member],
) -> Result<Option<ArgumentFault>, OutOfMemory>
    ensures { IfOk result (λ o. o ≡ spec.missing_at at
        (spec.given_after [] (tree.members (map view.member_of arguments.now))) required.now) }
{
    let given = given(alloc, arguments)?;
    if lacks_one(alloc, &given, required)? {
        return Ok(Some(ArgumentFault::Missing(at)));
    }
    Ok(None)
}

fn bad_arguments(
    alloc: Global,
    parameters: &Parameters,
    at: usize,
    arguments: &[Member],
) -> Result<Option<ArgumentFault>, OutOfMemory>
    ensures { IfOk result (λ o. o ≡ spec.bad_arguments (parameters_tree parameters.now) at
        (tree.members (map view.member_of arguments.now))) }
{
    match extra_in(alloc, &parameters.names, arguments)? {
        Some(at) => Ok(Some(ArgumentFault::Extra(at))),
        None => missing_at(alloc, at, parameters.required.as_slice(), arguments),
    }
}

fn bad_given(
    alloc: Global,
    parameters: &Parameters,
    at: usize,
    arguments: Option<&[Member]>,
) -> Result<Option<ArgumentFault>, OutOfMemory>
    ensures { IfOk result (λ o. o ≡ spec.bad_given (parameters_tree parameters.now) at
        (option_map (λ ms. tree.members (map view.member_of ms.now)) arguments.entry)) }
{
    match arguments {
        Some(arguments) => bad_arguments(alloc, parameters, at, arguments),
        None => Ok(None),
    }
}

/// The fault of the arguments of a module for a file of these parameters; the name of the module is at that offset.
pub(crate) fn bad_body(
    alloc: Global,
    parameters: &Parameters,
    at: usize,
    body: &Body,
) -> Result<Option<ArgumentFault>, OutOfMemory>
    ensures { IfOk result (λ o. o ≡ spec.bad_given (parameters_tree parameters.now) at
        (spec.arguments_of (view.body_of body.now))) }
{
    match params_in(body_members(body)) {
        Some(value) => bad_given(alloc, parameters, at, object_of(value)),
        None => bad_arguments(alloc, parameters, at, &[]),
    }
}
