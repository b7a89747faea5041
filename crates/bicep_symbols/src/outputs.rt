// Outputs of different names.
ghost use Rattle.std.specs.Prelude.{◌≡◌, ◌∷◌, ◌++◌, [], ℕ, List, false, map, option_map, option_to_list, position};
ghost use Rattle.std.specs.Prelude.{bytes_eq, encode_utf8_all, IfOk, IfErr, OnOk, None};
ghost use Rattle.bicep_tree.specs.View as view;
ghost use Rattle.name_set.specs.Names.{is_named};
ghost use Rattle.bicep_symbols.specs.Outputs as spec;
ghost use Rattle.bicep_symbols.specs.Repeated.{repeated_output, IsAmong, IsTwice};

use crate::fault::NameFault;
use crate::registry::refuse;
use arm_value::OutOfMemory;
use bicep_names::Outputs;
use bicep_tree::{Declaration, Name, Statement};
use name_set::NameSet;
use std::alloc::Global;

// The name of the output that a statement declares.
#[tactic(auto, using(bicep_tree::proofs::ViewLemmas::structs))]
fn output_of(statement: &Statement) -> Option<&Name>
    ensures { option_map (λ n. spec.named n.now) result ≡ spec.output_of (view.statement_of statement.now) }
{
    match &statement.declaration {
        Declaration::Output(_, name, _, _) => Some(name),
        Declaration::Metadata(_, _, _)
        | Declaration::TargetScope(_, _)
        | Declaration::Param(_, _, _)
        | Declaration::ParamWith(_, _, _, _)
        | Declaration::Var(_, _, _)
        | Declaration::Resource(_)
        | Declaration::Module(_, _, _, _) => None,
    }
}

// Adds the name of the output that a statement declares.
fn push_output<'a>(names: &mut Vec<&'a Name>, statement: &'a Statement) -> Result<(), OutOfMemory>
    ensures { OnOk result (map (λ n. spec.named n.now) names.new.items
        ≡ map (λ n. spec.named n.now) names.old.items
        ++ option_to_list (spec.output_of (view.statement_of statement.now))) }
{
    match output_of(statement) {
        Some(name) => {
            names.push(name)?;
            Ok(())
        }
        None => Ok(()),
    }
}

/// The names of the outputs of a file in source order.
pub(crate) fn output_names(alloc: Global, file: &[Statement]) -> Result<Vec<&Name>, OutOfMemory>
    ensures { IfOk result (λ ns. map (λ n. spec.named n.now) ns.items ≡ spec.outputs_of (view.file_of file.now)) }
{
    let mut names = Vec::new(alloc);
    for statement in file {
        push_output(&mut names, statement)?;
    }
    Ok(names)
}

// Adds an output whose name is none of these, and its name to these.
fn add_output(
    alloc: Global,
    outputs: &mut Outputs,
    names: NameSet,
    name: &Name,
) -> Result<NameSet, NameFault>
    requires { (q : List ℕ) → is_named names q ≡ false
        → position (bytes_eq (encode_utf8_all q)) outputs.old ≡ None }
    ensures fresh { OnOk result (is_named names name.now.text ≡ false) }
    ensures names { IfOk result (λ s. s ≡ names ++ name.now.text ∷ []) }
    ensures outputs { OnOk result (outputs.new ≡ outputs.old ++ encode_utf8_all name.now.text ∷ []) }
    ensures fault { IfErr result (IsAmong names (spec.named name.now)) }
{
    match names.has(alloc, &name.text) {
        Ok(false) => {}
        Ok(true) => return refuse(names, NameFault::Twice(name.at)),
        Err(_) => return refuse(names, NameFault::OutOfMemory),
    }
    match outputs.add(alloc, &name.text) {
        Ok(()) => {}
        Err(_) => return refuse(names, NameFault::OutOfMemory),
    }
    match names.with(alloc, &name.text) {
        Ok(names) => Ok(names),
        Err(_) => Err(NameFault::OutOfMemory),
    }
}

/// The outputs of these names, or the offset of the first name that was given before.
pub(crate) fn register_outputs(alloc: Global, listed: &[&Name]) -> Result<Outputs, NameFault>
    ensures outputs { IfOk result (λ s. s
        ≡ spec.looked_up_outputs (map (λ n. spec.named n.now) listed.now)) }
    ensures once { OnOk result (repeated_output (map (λ n. spec.named n.now) listed.now) ≡ None) }
    ensures fault { IfErr result (IsTwice (repeated_output (map (λ n. spec.named n.now) listed.now))) }
{
    let mut names = NameSet::new(alloc);
    let mut outputs = Outputs::new(alloc);
    for name in listed {
        match add_output(alloc, &mut outputs, names, name) {
            Ok(more) => names = more,
            Err(fault) => return refuse(outputs, fault),
        }
    }
    Ok(outputs)
}
