//! Whole names and conditions.
ghost use Rattle.std.specs.Prelude.{◌≡◌, ◌∷◌, [], Some, List, option_map, option_and_then, IfOk};
ghost use Rattle.arm_expr.specs.Tree.{Tree};
ghost use Rattle.bicep_resolved.specs.Source.{SourceTree};
ghost use Rattle.bicep_resolved.specs.View.{source_of};
ghost use Rattle.bicep_declared.specs.View.{declared_tree};
ghost use Rattle.bicep_meaning.specs.Declared.{body_of as body_of_tree};
ghost use Rattle.bicep_meaning.specs.Files.{declaration, parent, inside};
ghost use Rattle.bicep_emission.specs.Emittable.{IsEmittable};
ghost use Rattle.bicep_emission.specs.Emitted.{Frame};
ghost use Rattle.declaration_laws.specs.Sound.{IsSound};
ghost use Rattle.emitted_declarations.specs.Declared as spec;
ghost use Rattle.emission_laws.specs.Holes.{holes, nearest, IsRun};
ghost use Rattle.kept_expressions.specs.Kept.{IsKeptHoles};
ghost use Rattle.kept_parts.specs.Frames.{IsKeptFrame};
ghost use Rattle.declared_table.specs.Seen.{file_in, files_in, emission_in};
ghost use Rattle.kept_heads.specs.Joints.{joined as joined_tree};
ghost use Rattle.kept_heads.specs.declared.joints.Joint.TheVariants.{And as and_joint};
ghost use Rattle.declared_entries.specs.Heads.{own_or_always, HasParent};
ghost use Rattle.declared_entries.specs.Parents.{parent_of as parent_tree};

use crate::parents::Up;
use crate::reaching::{own_expression, reached};
use crate::variables::body_of;
use arm_value::OutOfMemory;
use bicep_declared::Declared;
use bicep_resolved::Source;
use declared_table::Table;
use emitted_parts::{lacks, letting_go};
use kept_expressions::KeptHoles;
use kept_heads::{Joint, always, joined};
use kept_parts::{KeptFrame, copied_holes, kept_nothing, no_frame, placed};
use std::alloc::Global;

// ---- whole names

// The whole name of a symbol with this run in its holes.
fn placed_name(
    alloc: Global,
    table: &Table,
    number: usize,
    frame: &KeptFrame,
) -> Result<KeptHoles, OutOfMemory>
    requires sound { IsSound (file_in table.now) }
    ensures { (fs : List Frame) → IsRun fs → IsKeptFrame (nearest fs) frame.now
        → IfOk result (IsKeptHoles ((emission_in table.now).full_name number fs)) }
{
    match table.entry(number) {
        Some(entry) => placed(alloc, &entry.full_name, frame),
        None => kept_nothing(alloc),
    }
}

// A name after the whole name of a symbol with this run in its holes.
fn name_below(
    alloc: Global,
    table: &Table,
    number: usize,
    frame: &KeptFrame,
    own: &KeptHoles,
) -> Result<KeptHoles, OutOfMemory>
    requires sound { IsSound (file_in table.now) }
    ensures { (fs : List Frame) (a : Tree) → IsRun fs → IsKeptFrame (nearest fs) frame.now → IsKeptHoles a own.now
        → IfOk result (IsKeptHoles (spec.with_slash ((emission_in table.now).full_name number fs) a)) }
{
    match placed_name(alloc, table, number, frame) {
        Ok(upper) => letting_go(joined(alloc, Joint::Slash, &upper, own), upper),
        Err(error) => Err(error),
    }
}

// A name after that of the resource of a number, which is used in this loop.
fn name_after(
    alloc: Global,
    table: &Table,
    number: usize,
    frame: Result<KeptFrame, OutOfMemory>,
    own: &KeptHoles,
) -> Result<KeptHoles, OutOfMemory>
    requires sound { IsSound (file_in table.now) }
    ensures { (fs : List Frame) (a : Tree) → IsRun fs → IfOk frame (IsKeptFrame (nearest fs)) → IsKeptHoles a own.now
        → IfOk result (IsKeptHoles (spec.with_slash ((emission_in table.now).full_name number fs) a)) }
{
    match frame {
        Ok(frame) => letting_go(name_below(alloc, table, number, &frame, own), frame),
        Err(error) => Err(error),
    }
}

/// The whole name of a declaration: its name, after that of its parent.
pub(crate) fn full_name(
    alloc: Global,
    table: &Table,
    up: Up,
    own: &KeptHoles,
) -> Result<KeptHoles, OutOfMemory>
    requires sound { IsSound (file_in table.now) }
    requires parent { HasParent (parent_tree up) }
    ensures { (a : Tree) → IsKeptHoles a own.now → IfOk result (IsKeptHoles (spec.full_name_by (file_in table.now)
        (files_in table.now) (emission_in table.now) (parent_tree up.entry) a (holes ∷ []))) }
{
    match up {
        Up::Nothing => copied_holes(alloc, own),
        Up::Inside(around) => name_after(alloc, table, around, no_frame(alloc), own),
        Up::Below(reach) => {
            let number = reach.target().number();
            name_after(alloc, table, number, reached(alloc, table, reach), own)
        }
    }
}

// ---- conditions

// The condition of a symbol, which is used without a loop.
fn condition_at(alloc: Global, table: &Table, number: usize) -> Result<KeptHoles, OutOfMemory>
    requires sound { IsSound (file_in table.now) }
    ensures { IfOk result (IsKeptHoles ((emission_in table.now).condition number [])) }
{
    match no_frame(alloc) {
        Ok(frame) => letting_go(placed_condition(alloc, table, number, &frame), frame),
        Err(error) => Err(error),
    }
}

fn placed_condition(
    alloc: Global,
    table: &Table,
    number: usize,
    frame: &KeptFrame,
) -> Result<KeptHoles, OutOfMemory>
    requires sound { IsSound (file_in table.now) }
    ensures { IsKeptFrame (nearest []) frame.now
        → IfOk result (IsKeptHoles ((emission_in table.now).condition number [])) }
{
    match table.entry(number) {
        Some(entry) => placed(alloc, &entry.condition, frame),
        None => kept_nothing(alloc),
    }
}

// Both conditions.
fn both_hold(
    alloc: Global,
    upper: Result<KeptHoles, OutOfMemory>,
    own: &KeptHoles,
) -> Result<KeptHoles, OutOfMemory>
    ensures { (a b : Tree) → IfOk upper (IsKeptHoles a) → IsKeptHoles b own.now
        → IfOk result (IsKeptHoles (joined_tree and_joint a b)) }
{
    match upper {
        Ok(upper) => letting_go(joined(alloc, Joint::And, &upper, own), upper),
        Err(error) => Err(error),
    }
}

// The condition of a resource that is nested in the one of a number.
fn nested_condition(
    alloc: Global,
    table: &Table,
    around: usize,
    own: Option<&Source>,
) -> Result<KeptHoles, OutOfMemory>
    requires sound { IsSound (file_in table.now) }
    requires own { (c : SourceTree) → option_map (λ e. source_of e.now) own ≡ Some c → IsEmittable c }
    ensures { IfOk result (IsKeptHoles (spec.condition_by (file_in table.now) (files_in table.now)
        (emission_in table.now) (inside around) (option_map (λ e. source_of e.now) own.entry) (holes ∷ []))) }
{
    let upper = condition_at(alloc, table, around);
    match own {
        Some(own) => match own_expression(alloc, table, own) {
            Ok(own) => letting_go(both_hold(alloc, upper, &own), own),
            Err(_) => lacks(upper),
        },
        None => upper,
    }
}

// The condition of a resource or a module that is nested in no resource.
fn outer_condition(
    alloc: Global,
    table: &Table,
    own: Option<&Source>,
) -> Result<KeptHoles, OutOfMemory>
    requires sound { IsSound (file_in table.now) }
    requires own { (c : SourceTree) → option_map (λ e. source_of e.now) own ≡ Some c → IsEmittable c }
    ensures { IfOk result (IsKeptHoles (own_or_always (file_in table.now) (files_in table.now)
        (emission_in table.now) (option_map (λ e. source_of e.now) own.entry))) }
{
    match own {
        Some(own) => own_expression(alloc, table, own),
        None => always(alloc),
    }
}

fn body_condition(
    alloc: Global,
    table: &Table,
    up: Up,
    own: Option<&Source>,
) -> Result<KeptHoles, OutOfMemory>
    requires sound { IsSound (file_in table.now) }
    requires own { (c : SourceTree) → option_map (λ e. source_of e.now) own ≡ Some c → IsEmittable c }
    ensures { IfOk result (IsKeptHoles (spec.condition_by (file_in table.now) (files_in table.now)
        (emission_in table.now) (parent_tree up.entry) (option_map (λ e. source_of e.now) own.entry) (holes ∷ []))) }
{
    match up {
        Up::Inside(around) => nested_condition(alloc, table, around, own),
        Up::Nothing | Up::Below(_) => outer_condition(alloc, table, own),
    }
}

/// The condition of a resource or a module, with that of the resource around it; any other declaration has an
/// expression without a value.
pub(crate) fn condition(
    alloc: Global,
    table: &Table,
    number: usize,
    up: Up,
    declared: Option<&Declared>,
) -> Result<KeptHoles, OutOfMemory>
    requires sound { IsSound (file_in table.now) }
    requires declared { declaration (file_in table.now) number ≡ option_map (λ d. declared_tree d.now) declared }
    requires parent { parent_tree up ≡ parent (file_in table.now) number }
    ensures { IfOk result (IsKeptHoles (spec.condition_of (file_in table.now) (files_in table.now)
        (emission_in table.now) number
        (option_and_then body_of_tree (option_map (λ d. declared_tree d.now) declared.entry)) (holes ∷ []))) }
{
    match body_of(declared) {
        Some(body) => body_condition(alloc, table, up, body.condition.as_ref()),
        None => kept_nothing(alloc),
    }
}
