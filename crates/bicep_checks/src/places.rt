// What is misplaced in a program.
ghost use Rattle.std.specs.Prelude.{◌≡◌, map, IfOk};
ghost use Rattle.bicep_program.specs.Program.{program_file};
ghost use Rattle.resolved_program.specs.Programs.{IsResolved};
ghost use Rattle.resolved_program.specs.Faults.{first_in};
ghost use Rattle.resolved_program.specs.View.{file_view};
ghost use Rattle.bicep_checks.specs.Faults as spec;
ghost use Rattle.bicep_checks.specs.Order.{HasNone, Passes};

use crate::fault::CheckFault;
use arm_value::OutOfMemory;
use bicep_misplaced::misplaced;
use bicep_placed::misplaced_link;
use bicep_program::SourceFile;
use bicep_type_texts::bad_type;
use resolved_program::ResolvedFile;
use std::alloc::Global;

fn text_place(alloc: Global, file: &SourceFile) -> Result<Option<usize>, OutOfMemory>
    ensures { IfOk result (λ o. o ≡ spec.text_place (program_file file.now)) }
{
    match misplaced(file.file.as_slice()) {
        Some(at) => Ok(Some(at)),
        None => bad_type(alloc, file.file.as_slice()),
    }
}

// The first thing that is misplaced whatever names stand for.
fn first_text_place(
    alloc: Global,
    files: &[SourceFile],
) -> Result<Option<(usize, usize)>, OutOfMemory>
    ensures { IfOk result (λ o. o ≡ first_in spec.text_place (map program_file files.now)) }
{
    for (number, file) in files.iter().enumerate() {
        match text_place(alloc, file)? {
            Some(at) => return Ok(Some((number, at))),
            None => {}
        }
    }
    Ok(None)
}

#[tactic(auto, using(crate::proofs::KindLemmas::kinds))]
fn link_place(alloc: Global, file: &ResolvedFile) -> Result<Option<usize>, OutOfMemory>
    ensures { IfOk result (λ o. o ≡ spec.link_place (file_view file.now)) }
{
    misplaced_link(
        alloc,
        file.entries.as_slice(),
        file.declared.declarations.as_slice(),
    )
}

// The first thing that is misplaced by what its names stand for.
fn first_link_place(
    alloc: Global,
    files: &[ResolvedFile],
) -> Result<Option<(usize, usize)>, OutOfMemory>
    ensures { IfOk result (λ o. o ≡ first_in spec.link_place (map file_view files.now)) }
{
    for (number, file) in files.iter().enumerate() {
        match link_place(alloc, file)? {
            Some(at) => return Ok(Some((number, at))),
            None => {}
        }
    }
    Ok(None)
}

// The first thing that is misplaced. `state_place` is the first variable that reads state and is a for-expression.
fn first_place(
    alloc: Global,
    files: &[SourceFile],
    resolved: &[ResolvedFile],
    state_place: Option<(usize, usize)>,
) -> Result<Option<(usize, usize)>, OutOfMemory>
    ensures { IfOk result (λ o. o ≡ spec.either (first_in spec.text_place (map program_file files.now))
        (spec.either (first_in spec.link_place (map file_view resolved.now)) state_place)) }
{
    match first_text_place(alloc, files)? {
        Some(place) => Ok(Some(place)),
        None => match first_link_place(alloc, resolved)? {
            Some(place) => Ok(Some(place)),
            None => Ok(state_place),
        },
    }
}

/// That nothing is misplaced.
pub(crate) fn check_places(
    alloc: Global,
    files: &[SourceFile],
    resolved: &[ResolvedFile],
    state_place: Option<(usize, usize)>,
) -> Result<(), CheckFault>
    requires before { HasNone 4 (map program_file files.now) }
    requires resolved { IsResolved (map program_file files.now) (map file_view resolved.now) }
    requires state { state_place ≡ first_in spec.state_place (map file_view resolved.now) }
    ensures { Passes 5 (map program_file files.now) result }
{
    match first_place(alloc, files, resolved, state_place) {
        Ok(Some((number, at))) => Err(CheckFault::BadForPlace(number, at)),
        Ok(None) => Ok(()),
        Err(_) => Err(CheckFault::OutOfMemory),
    }
}
