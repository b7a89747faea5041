// Whether an element of `dependsOn` names something, and no two keys.
ghost use Rattle.std.specs.Prelude.{◌≡◌, ◌<◌, List, true, length, IfOk, IfErr};
ghost use Rattle.arm_value.specs.View.{json};
ghost use Rattle.arm_ids.specs.Held.{HeldResource};
ghost use Rattle.template_parts.specs.declared.mode.Mode.{Mode};
ghost use Rattle.deploy_cells.specs.Cells.{step};
ghost use Rattle.tag_needs.specs.Tags.{tags_of};
ghost use Rattle.tag_holders.specs.Holders.{classes_in};
ghost use Rattle.plan_cells.specs.Scopes.{template_at};
ghost use Rattle.plan_cells.specs.Sites.{form_at};
ghost use Rattle.plan_codes.specs.NameCodes.{value_asks};
ghost use Rattle.plan_table.specs.Whole.{whole_of};
ghost use Rattle.plan_table.specs.Found.{scope_at};
ghost use Rattle.plan_tasks.specs.InOrder.{is_in};
ghost use Rattle.plan_tasks.specs.Start.{start_of, IsStartTable, IsInstance};
ghost use Rattle.plan_faults.specs.Dependencies.{is_title_at};
ghost use Rattle.plan_faults.specs.Faults.{IsFault};
ghost use Rattle.dependency_faults.specs.Names.{AreNames};
ghost use Rattle.dependency_faults.specs.Met.{IsMet, IsReadAt};

use crate::fault::{ambiguous_fault, unknown_fault};
use arm_value::{OutOfMemory, Value};
use dependency_titles::{ScopeTitles, is_title};
use name_tags::push_asks;
use plan_faults::PlanFault;
use plan_openers::Opener;
use plan_table::table::Table;
use std::alloc::Global;
use std::slice::from_ref;
use tag_holders::{Found, Holders, find_holders};

/// Who has which name, the keys of all instances, and the titles of all scopes.
#[derive(Clone, Copy)]
pub struct Names<'n, 'a> {
    /// The numbers of the lines of the names of the instances that have each name.
    pub holders: &'n Holders<'a>,
    /// The key of the instance of each line.
    pub classes: &'n [Vec<usize>],
    /// The titles of each scope, by the number of its frame.
    pub titles: &'n [ScopeTitles],
}

// Whether a value is a title of a scope; one that is no text is none.
fn is_title_of(
    alloc: Global,
    table: &Table,
    names: &Names,
    frame: usize,
    value: &Value,
) -> Result<bool, OutOfMemory>
    requires table { IsStartTable table.now }
    requires names { AreNames table.now names.now.holders.now (classes_in names.now.classes.now)
        names.now.titles.now }
    requires there { frame < length table.now.frames.items }
    ensures { IfOk result (λ b. b ≡ is_title_at (whole_of table.now) (start_of table.now)
        (scope_at table.now frame).position (json value.now)) }
{
    match value {
        Value::Text(text) => {
            let form = table.frames[frame].template.form;
            is_title(alloc, form, &names.titles[frame], text)
        }
        _ => Ok(false),
    }
}

// The names for which a value asks in a scope.
fn asks_of(
    alloc: Global,
    table: &Table,
    names: &Names,
    frame: usize,
    value: &Value,
) -> Result<Vec<Vec<usize>>, OutOfMemory>
    requires table { IsStartTable table.now }
    requires names { AreNames table.now names.now.holders.now (classes_in names.now.classes.now)
        names.now.titles.now }
    requires there { frame < length table.now.frames.items }
    ensures { IfOk result (λ v. tags_of v ≡ value_asks frame
        (form_at (template_at (whole_of table.now).template (scope_at table.now frame).position))
        (template_at (whole_of table.now).template (scope_at table.now frame).position) (json value.now)) }
{
    let form = table.frames[frame].template.form;
    let mut asks = Vec::new(alloc);
    push_asks(
        alloc,
        &mut asks,
        frame,
        form,
        &names.titles[frame].loops,
        from_ref(value),
    )?;
    Ok(asks)
}

/// Nothing exactly where the value of an element of an instance is a title, or names instances, all of one key; else
/// why there is no plan.
pub fn check_value(
    alloc: Global,
    table: &Table,
    names: &Names,
    opener: Opener,
    number: usize,
    value: &Value,
) -> Result<(), PlanFault>
    requires table { IsStartTable table.now }
    requires names { AreNames table.now names.now.holders.now (classes_in names.now.classes.now)
        names.now.titles.now }
    requires instance { IsInstance table.now opener.frame opener.resource opener.copy }
    requires included { is_in (start_of table.now) (scope_at table.now opener.frame).position
        (step opener.resource opener.copy) ≡ true }
    requires read { IsReadAt table.now opener number (json value.now) }
    ensures met { IfOk result (λ _. IsMet table.now (scope_at table.now opener.frame).position (json value.now)) }
    ensures fault { IfErr result (λ f. (mode : Mode) (held : List HeldResource)
        → IsFault (whole_of table.now) mode held f) }
{
    if is_title_of(alloc, table, names, opener.frame, value)? {
        return Ok(());
    }
    let asks = asks_of(alloc, table, names, opener.frame, value)?;
    match find_holders(names.holders, names.classes, asks.as_slice()) {
        Some(Found::Alike(_)) => Ok(()),
        Some(Found::Differing(_, _)) => Err(ambiguous_fault(alloc, table, opener, number)?),
        None => Err(unknown_fault(alloc, table, opener, number)?),
    }
}
