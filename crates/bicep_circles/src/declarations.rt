// The symbols that a declaration mentions.
ghost use Rattle.std.specs.Prelude.{◌≡◌, ◌++◌, option_map, option_to_list, IfOk, OnOk};
ghost use Rattle.bicep_resolved.specs.View as view;
ghost use Rattle.bicep_declared.specs.View.{body_tree, declared_tree};
ghost use Rattle.bicep_circles.specs.Mentions as spec;
ghost use Rattle.bicep_circles.specs.Links.{parent_mentions, mentioned};

use crate::mentions::{add_loop, add_mentions, add_properties, add_value};
use arm_value::OutOfMemory;
use bicep_declared::{Declared, DeclaredBody};
use bicep_names::Kind;
use bicep_resolved::{Source, SourceLoop};
use std::alloc::Global;

#[tactic(auto, using(crate::proofs::Appends::appends))]
fn add_each(out: &mut Vec<usize>, each: Option<&SourceLoop>) -> Result<(), OutOfMemory>
    ensures { OnOk result (out.new.items
        ≡ out.old.items ++ spec.each_mentions (option_map (λ l. view.loop_of l.now) each.entry)) }
{
    match each {
        Some(each) => add_loop(out, each),
        None => Ok(()),
    }
}

#[tactic(auto, using(crate::proofs::Appends::appends))]
fn add_condition(out: &mut Vec<usize>, condition: Option<&Source>) -> Result<(), OutOfMemory>
    ensures { OnOk result (out.new.items
        ≡ out.old.items ++ spec.condition_mentions (option_map (λ e. view.source_of e.now) condition.entry)) }
{
    match condition {
        Some(condition) => add_mentions(out, condition),
        None => Ok(()),
    }
}

#[tactic(auto, using(crate::proofs::Appends::appends))]
fn add_body(out: &mut Vec<usize>, body: &DeclaredBody) -> Result<(), OutOfMemory>
    ensures { OnOk result (out.new.items ≡ out.old.items ++ spec.body_mentions (body_tree body.now)) }
{
    add_each(out, body.each.as_ref())?;
    add_condition(out, body.condition.as_ref())?;
    add_properties(out, body.fields.as_slice())
}

#[tactic(auto, using(crate::proofs::Appends::appends))]
fn add_declared(out: &mut Vec<usize>, declaration: &Declared) -> Result<(), OutOfMemory>
    ensures { OnOk result (out.new.items ≡ out.old.items ++ spec.declared_mentions (declared_tree declaration.now)) }
{
    match declaration {
        Declared::Parameter(_, _) => Ok(()),
        Declared::ParameterWith(_, _, default) => add_mentions(out, default),
        Declared::Variable(_, value) => add_value(out, value),
        Declared::Resource(_, _, _, body) | Declared::Module(_, body) => add_body(out, body),
    }
}

// Adds the number of the resource in which a symbol is nested.
fn add_parent(out: &mut Vec<usize>, inside: Option<usize>) -> Result<(), OutOfMemory>
    ensures { OnOk result (out.new.items ≡ out.old.items ++ option_to_list inside) }
{
    match inside {
        Some(number) => {
            out.push(number)?;
            Ok(())
        }
        None => Ok(()),
    }
}

// Adds the number of the resource in which a symbol of that kind is nested.
fn add_around(out: &mut Vec<usize>, kind: Kind) -> Result<(), OutOfMemory>
    ensures { OnOk result (out.new.items ≡ out.old.items ++ parent_mentions kind) }
{
    match kind {
        Kind::Resource(inside) | Kind::ResourceLoop(inside) => add_parent(out, inside),
        Kind::Parameter | Kind::Variable | Kind::Module(_) | Kind::ModuleLoop(_) => Ok(()),
    }
}

/// The numbers of the symbols that the declaration of a symbol of that kind mentions.
#[tactic(auto, using(crate::proofs::Appends::appends))]
pub(crate) fn mentioned(
    alloc: Global,
    kind: Kind,
    declaration: &Declared,
) -> Result<Vec<usize>, OutOfMemory>
    ensures { IfOk result (λ v. v.items ≡ mentioned kind (declared_tree declaration.now)) }
{
    let mut out = Vec::new(alloc);
    add_declared(&mut out, declaration)?;
    add_around(&mut out, kind)?;
    Ok(out)
}
