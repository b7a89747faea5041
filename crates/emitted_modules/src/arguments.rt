//! Arguments that are built.
ghost use Rattle.std.specs.Prelude.{◌≡◌, map, IfOk};
ghost use Rattle.bicep_resolved.specs.View.{property_of, value_of, properties};
ghost use Rattle.declaration_laws.specs.Sound.{IsSound};
ghost use Rattle.emitted_expressions.specs.Sight.{frames_of};
ghost use Rattle.emitted_resources.specs.Values.{IsContent};
ghost use Rattle.emitted_resources.specs.Buildable.{MayBeBuilt};
ghost use Rattle.emitted_resources.specs.Seen.{file_in};
ghost use Rattle.emitted_resources.specs.Filled.{IsFilled, emission_sight};
ghost use Rattle.emitted_modules.specs.Arguments.{argument_value, ArgumentsFit, IsArgumentOf, AreArguments, IsNext};
ghost use Rattle.emitted_modules.specs.Arguments as spec;

use crate::fields::{name_in, value_in};
use arm_value::{ListOf, OutOfMemory, Text};
use bicep_resolved::{Property, SourceValue};
use emitted_expressions::Turn;
use emitted_parts::{lacks, letting_go};
use emitted_resources::{Table, content};
use named_parts::with_part;
use std::alloc::Global;
use template_parts::{Argument, Content};

// The content of an argument: a loop has the name `value`.
fn argument_content(
    alloc: Global,
    table: &Table,
    value: &SourceValue,
    turns: &[Turn],
) -> Result<Content, OutOfMemory>
    requires filled { IsFilled table.now }
    requires sound { IsSound (file_in table.now) }
    requires fits { MayBeBuilt (argument_value (emission_sight table.now) (value_of value.now) (frames_of turns.now)) }
    ensures { IfOk result (IsContent (argument_value (emission_sight table.now) (value_of value.now)
        (frames_of turns.now))) }
{
    match Text::of(alloc, "value") {
        Ok(name) => letting_go(content(alloc, table, Some(&name), value, turns), name),
        Err(error) => Err(error),
    }
}

// The argument of a name and a content.
fn named(alloc: Global, name: &Text, content: Content) -> Result<Argument, OutOfMemory>
    ensures name { IfOk result (λ a. a.name ≡ name.now) }
    ensures content { IfOk result (λ a. a.content ≡ content) }
{
    match name.copy(alloc) {
        Ok(name) => Ok(Argument { name, content }),
        Err(_) => lacks(content),
    }
}

// The argument of a member of `params`.
fn argument(
    alloc: Global,
    table: &Table,
    member: &Property,
    turns: &[Turn],
) -> Result<Argument, OutOfMemory>
    requires filled { IsFilled table.now }
    requires sound { IsSound (file_in table.now) }
    requires fits { MayBeBuilt (argument_value (emission_sight table.now) (property_of member.now).2
        (frames_of turns.now)) }
    ensures { IfOk result (IsArgumentOf (emission_sight table.now) (frames_of turns.now) (property_of member.now).1
        (property_of member.now).2) }
{
    match argument_content(alloc, table, value_in(member), turns) {
        Ok(content) => named(alloc, name_in(member), content),
        Err(error) => Err(error),
    }
}

// Whether one of these arguments has the name, but for the case of ASCII letters.
fn has_argument(arguments: &[Argument], name: &Text) -> bool
    ensures { result ≡ spec.has_argument name.now arguments.now }
{
    for argument in arguments {
        if argument.name.equals_ignore_case(name.as_str()) {
            return true;
        }
    }
    false
}

// The arguments with one more in its place, where none of them has its name.
fn with_first(
    arguments: ListOf<Argument>,
    argument: Argument,
) -> Result<ListOf<Argument>, OutOfMemory>
    ensures { IfOk result (λ xs. xs ≡ spec.with_first argument arguments) }
{
    if has_argument(arguments.as_slice(), &argument.name) {
        letting_go(Ok(arguments), argument)
    } else {
        with_part(arguments, argument)
    }
}

// The arguments with one that was made.
fn with_argument(
    arguments: ListOf<Argument>,
    argument: Result<Argument, OutOfMemory>,
) -> Result<ListOf<Argument>, OutOfMemory>
    ensures { IfOk result (IsNext arguments argument) }
{
    match argument {
        Ok(argument) => with_first(arguments, argument),
        Err(_) => lacks(arguments),
    }
}

/// The arguments of these members of `params`, in byte order of their names, inside the loop around the module, where
/// there is one. The first member of a name counts.
pub(crate) fn arguments(
    alloc: Global,
    table: &Table,
    members: &[Property],
    turns: &[Turn],
) -> Result<ListOf<Argument>, OutOfMemory>
    requires filled { IsFilled table.now }
    requires sound { IsSound (file_in table.now) }
    requires fits { ArgumentsFit (emission_sight table.now) (frames_of turns.now)
        (properties (map property_of members.now)) }
    ensures { IfOk result (AreArguments (emission_sight table.now) (frames_of turns.now)
        (properties (map property_of members.now))) }
{
    let mut all = ListOf::new(alloc);
    for member in members {
        match with_argument(all, argument(alloc, table, member, turns)) {
            Ok(more) => all = more,
            Err(error) => return Err(error),
        }
    }
    Ok(all)
}
