// What an environment lists, and what it knows of each cell by that.
ghost use Rattle.std.specs.Prelude.{◌≡◌, map, option_map, IfOk};
ghost use Rattle.arm_value.specs.Look.{fold};
ghost use Rattle.arm_value.specs.View.{json};
ghost use Rattle.reading.specs.Knowledge.{waits};
ghost use Rattle.arm_env.specs.Look.{output};
ghost use Rattle.arm_env.specs.Known.{slot_named, module_with, output_with, seen_at, slot_known};
ghost use Rattle.arm_env.specs.Known.{slot_in, declared, outputs_in, known_in};
ghost use Rattle.arm_env.specs.Answer.{Gives};
ghost use Rattle.arm_env.specs.Sight.{declared_of};

use crate::cell::Cell;
use crate::entries::{Declared, Entries};
use crate::env::{Env, ModuleAt, Named, OutputAt, Seen, Slot, StateAt};
use crate::find::{is_key, key_named};
use crate::stop::{Stop, stopped};
use arm_ids::Key;
use arm_value::{OutOfMemory, Text, Value};
use std::alloc::Global;

fn find_slot<'a>(named: &'a [Named], name: &Text) -> Option<&'a Slot>
    ensures { option_map (λ s. s.now) result ≡ slot_named (fold name.now) named.now }
{
    for entry in named {
        if entry.name.equals_ignore_case(name.as_str()) {
            return Some(&entry.slot);
        }
    }
    None
}

fn find_state<'a>(states: &'a [StateAt], key: &Key) -> Option<&'a Seen>
    ensures { option_map (λ s. s.now) result ≡ seen_at key.now states.now }
{
    for state in states {
        if is_key(key, &state.key) {
            return Some(&state.seen);
        }
    }
    None
}

/// The first nested deployment of the key.
pub(crate) fn find_module<'a>(modules: &'a [ModuleAt], key: &Key) -> Option<&'a ModuleAt>
    ensures { option_map (λ m. m.now) result ≡ module_with key.now modules.now }
{
    for module in modules {
        if is_key(key, &module.key) {
            return Some(module);
        }
    }
    None
}

/// The first output of the name.
pub(crate) fn find_output<'a>(outputs: &'a [OutputAt], name: &Text) -> Option<&'a OutputAt>
    ensures { option_map (λ x. x.now) result ≡ output_with (fold name.now) outputs.now }
{
    for output in outputs {
        if output.name.equals_ignore_case(name.as_str()) {
            return Some(output);
        }
    }
    None
}

// What is known of the output of a name of the nested deployment at a key.
fn find_output_slot<'a>(modules: &'a [ModuleAt], key: &Key, name: &Text) -> Option<&'a Slot>
    ensures { option_map (λ s. s.now) result ≡ slot_in (fold name.now) (module_with key.now modules.now) }
{
    match find_module(modules, key) {
        Some(nested) => match find_output(&nested.outputs, name) {
            Some(output) => Some(&output.slot),
            None => None,
        },
        None => None,
    }
}

// The outputs as they are declared.
fn lent<'a>(alloc: Global, outputs: &'a [OutputAt]) -> Result<Vec<Declared<'a>>, OutOfMemory>
    ensures { IfOk result (λ v. map declared_of v.items ≡ map declared outputs.now) }
{
    let mut list = Vec::new(alloc);
    for output in outputs {
        list.push(Declared {
            name: &output.name,
            kind: &output.kind,
        })?;
    }
    Ok(list)
}

// The output of a name of the nested deployment at a key is not known yet.
fn late_output<'a>(alloc: Global, key: &Key, name: &Text) -> Result<&'a Value, Stop>
    ensures { Gives (λ v. json v.now) result (waits (output key.now (fold name.now))) }
{
    match key.copy(alloc) {
        Ok(key) => match name.copy(alloc) {
            Ok(name) => Err(Stop::Waits(Cell::Output(key, name))),
            Err(_) => stopped(Stop::OutOfMemory, key),
        },
        Err(_) => Err(Stop::OutOfMemory),
    }
}

impl<'e> Entries for Env<'e> {
    ghost known = { known_in };

    #[tactic(auto, using(crate::proofs::Answers::looks))]
    fn parameter<'a>(&'a self, alloc: Global, name: &Text) -> Result<&'a Value, Stop> {
        match find_slot(&self.parameters, name) {
            Some(Slot::Known(value)) => Ok(value),
            Some(Slot::Late) => Err(Stop::Waits(Cell::Parameter(name.copy(alloc)?))),
            Some(Slot::Absent) => Err(Stop::NoValue),
            None => Err(Stop::NoValue),
        }
    }

    #[tactic(auto, using(crate::proofs::Answers::looks))]
    fn variable<'a>(&'a self, alloc: Global, name: &Text) -> Result<&'a Value, Stop> {
        match find_slot(&self.variables, name) {
            Some(Slot::Known(value)) => Ok(value),
            Some(Slot::Late) => Err(Stop::Waits(Cell::Variable(name.copy(alloc)?))),
            Some(Slot::Absent) => Err(Stop::NoValue),
            None => Err(Stop::NoValue),
        }
    }

    #[tactic(auto, using(crate::proofs::Answers::looks))]
    fn output<'a>(&'a self, alloc: Global, key: &Key, name: &Text) -> Result<&'a Value, Stop> {
        match find_output_slot(&self.modules, key, name) {
            Some(Slot::Known(value)) => Ok(value),
            Some(Slot::Late) => late_output(alloc, key, name),
            Some(Slot::Absent) => Err(Stop::NoValue),
            None => Err(Stop::NoValue),
        }
    }

    #[tactic(auto, using(crate::proofs::Answers::looks))]
    fn state<'a>(&'a self, alloc: Global, key: &Key) -> Result<&'a Value, Stop> {
        match find_state(&self.states, key) {
            Some(Seen::Now(value)) => Ok(value),
            Some(Seen::Later) => Err(Stop::Waits(Cell::State(key.copy(alloc)?))),
            Some(Seen::Never) => Err(Stop::NoValue),
            None => Err(Stop::NoValue),
        }
    }

    #[tactic(auto, using(crate::proofs::Answers::looks))]
    fn named(&self, alloc: Global, text: &Text) -> Result<Key, Stop> {
        if self.inside_name {
            return Err(Stop::NoValue);
        }
        match key_named(alloc, &self.names, &self.modules, text)? {
            Some(key) => Ok(key),
            None => Err(Stop::NoValue),
        }
    }

    #[tactic(auto, using(crate::proofs::Answers::looks))]
    fn is_deployment(&self, _alloc: Global, key: &Key) -> Result<bool, Stop> {
        match find_module(&self.modules, key) {
            Some(_nested) => Ok(true),
            None => Ok(false),
        }
    }

    #[tactic(auto, using(crate::proofs::Answers::looks))]
    fn outputs<'a>(&'a self, alloc: Global, key: &Key) -> Result<Vec<Declared<'a>>, Stop> {
        match find_module(&self.modules, key) {
            Some(nested) => Ok(lent(alloc, &nested.outputs)?),
            None => Ok(Vec::new(alloc)),
        }
    }
}
