// Names that are given twice in one object or in one loop.
ghost use Rattle.std.specs.Prelude.{◌≡◌, IfOk, map};
ghost use Rattle.bicep_tree.specs.Tree as tree;
ghost use Rattle.bicep_tree.specs.View as view;
ghost use Rattle.bicep_members.specs.Labels as spec;
ghost use Rattle.bicep_members.specs.Steps.{StepsTo, StepsToFolded};

use arm_value::OutOfMemory;
use bicep_tree::{LoopNames, Member};
use name_set::{NameSet, TextSet};
use std::alloc::Global;

/// What a member adds to the names before it.
#[derive(Drop)]
pub(crate) enum Step<S> {
    /// Its name is there, at that offset.
    Twice(usize),
    /// The names with its own, where it has one.
    Next(S),
}

// Drops the names, since one is given twice.
fn twice<S: Drop>(_before: S, at: usize) -> Step<S>
    ensures { result ≡ Step.Twice at }
{
    Step::Twice(at)
}

// The names with that of a member, which are compared letter by letter.
#[tactic(auto, using(bicep_tree::proofs::ViewLemmas::enums))]
fn step_exact(alloc: Global, before: TextSet, member: &Member) -> Result<Step<TextSet>, OutOfMemory>
    ensures { IfOk result (StepsTo before (view.member_of member.now)) }
{
    match member {
        Member::Property(label, _) => {
            let text = label.text();
            if before.has(alloc, text)? {
                return Ok(twice(before, label.at()));
            }
            Ok(Step::Next(before.with(alloc, text)?))
        }
        Member::Child(_, _) => Ok(Step::Next(before)),
    }
}

/// The first property of an object whose name another before it has, letter by letter.
pub(crate) fn repeated_label(
    alloc: Global,
    members: &[Member],
) -> Result<Option<usize>, OutOfMemory>
    ensures { IfOk result (λ o. o ≡ spec.repeated_label (tree.members (map view.member_of members.now))) }
{
    let mut before = TextSet::new(alloc);
    for member in members {
        match step_exact(alloc, before, member) {
            Ok(Step::Next(more)) => before = more,
            Ok(Step::Twice(at)) => return Ok(Some(at)),
            Err(fault) => return Err(fault),
        }
    }
    Ok(None)
}

// The names with that of a member, which are compared after ASCII case folding.
#[tactic(auto, using(bicep_tree::proofs::ViewLemmas::enums))]
fn step_folded(
    alloc: Global,
    before: NameSet,
    member: &Member,
) -> Result<Step<NameSet>, OutOfMemory>
    ensures { IfOk result (StepsToFolded before (view.member_of member.now)) }
{
    match member {
        Member::Property(label, _) => {
            let text = label.text();
            if before.has(alloc, text)? {
                return Ok(twice(before, label.at()));
            }
            Ok(Step::Next(before.with(alloc, text)?))
        }
        Member::Child(_, _) => Ok(Step::Next(before)),
    }
}

/// The first property of an object whose name another before it has, whatever the case of its ASCII letters.
pub(crate) fn repeated_folded(
    alloc: Global,
    members: &[Member],
) -> Result<Option<usize>, OutOfMemory>
    ensures { IfOk result (λ o. o ≡ spec.repeated_folded (tree.members (map view.member_of members.now))) }
{
    let mut before = NameSet::new(alloc);
    for member in members {
        match step_folded(alloc, before, member) {
            Ok(Step::Next(more)) => before = more,
            Ok(Step::Twice(at)) => return Ok(Some(at)),
            Err(fault) => return Err(fault),
        }
    }
    Ok(None)
}

/// The index of a loop that has the name of its item.
pub(crate) fn repeated_index(names: &LoopNames) -> Option<usize>
    ensures { result ≡ spec.repeated_index names.now }
{
    match names {
        LoopNames::Item(_) => None,
        LoopNames::Both(item, index) => {
            if index.text.equals_ignore_case(item.text.as_str()) {
                return Some(index.at);
            }
            None
        }
    }
}
