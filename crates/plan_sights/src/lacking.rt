// What is missing to the evaluator, by what a look at the table returned.
ghost use Rattle.std.specs.Prelude.{◌≡◌};
ghost use Rattle.arm_value.specs.Look.{fold};
ghost use Rattle.arm_env.specs.Look as look;
ghost use Rattle.plan_sights.specs.Seats.{lacking_of, IsAwait};

use arm_env::cell::Cell;
use arm_env::stop::Stop;
use arm_ids::Key;
use arm_value::Text;
use plan_sight::lack::Lack;
use std::alloc::Global;

/// What a lack is for the evaluator.
#[derive(Clone, Copy)]
pub enum Lacking {
    /// The cell has no value.
    Nothing,
    /// Nothing is known of the cell yet.
    Missing,
    /// Out of memory.
    OutOfMemory,
}

/// What a lack is for the evaluator: a cell whose reading has no value counts as one that is missing.
pub fn lacking_of(lack: Lack) -> Lacking
    ensures { result ≡ lacking_of lack }
{
    match lack {
        Lack::NotThere => Lacking::Nothing,
        Lack::NoValue => Lacking::Missing,
        Lack::Line(_) => Lacking::Missing,
        Lack::State(_) => Lacking::Missing,
        Lack::OutOfMemory => Lacking::OutOfMemory,
    }
}

/// Waits for a parameter.
pub fn await_parameter(alloc: Global, name: &Text) -> Stop
    ensures { IsAwait result (look.parameter (fold name.now)) }
{
    match name.copy(alloc) {
        Ok(name) => Stop::Waits(Cell::Parameter(name)),
        Err(_) => Stop::OutOfMemory,
    }
}

/// Waits for a variable.
pub fn await_variable(alloc: Global, name: &Text) -> Stop
    ensures { IsAwait result (look.variable (fold name.now)) }
{
    match name.copy(alloc) {
        Ok(name) => Stop::Waits(Cell::Variable(name)),
        Err(_) => Stop::OutOfMemory,
    }
}

/// Waits for an output of a nested deployment.
pub fn await_output(alloc: Global, key: &Key, name: &Text) -> Stop
    ensures { IsAwait result (look.output key.now (fold name.now)) }
{
    match key.copy(alloc) {
        Ok(key) => match name.copy(alloc) {
            Ok(name) => Stop::Waits(Cell::Output(key, name)),
            Err(_) => Stop::OutOfMemory,
        },
        Err(_) => Stop::OutOfMemory,
    }
}

/// Waits for the state at a key.
pub fn await_state(alloc: Global, key: &Key) -> Stop
    ensures { IsAwait result (look.state key.now) }
{
    match key.copy(alloc) {
        Ok(key) => Stop::Waits(Cell::State(key)),
        Err(_) => Stop::OutOfMemory,
    }
}

/// Waits for what a text means.
pub fn await_named(alloc: Global, text: &Text) -> Stop
    ensures { IsAwait result (look.named text.now) }
{
    match text.copy(alloc) {
        Ok(text) => Stop::Waits(Cell::Named(text)),
        Err(_) => Stop::OutOfMemory,
    }
}

/// Waits for whether a nested deployment can be seen.
pub fn await_deployment(alloc: Global, key: &Key) -> Stop
    ensures { IsAwait result (look.deployment key.now) }
{
    match key.copy(alloc) {
        Ok(key) => Stop::Waits(Cell::Deployment(key)),
        Err(_) => Stop::OutOfMemory,
    }
}

/// Waits for the outputs of a nested deployment.
pub fn await_outputs(alloc: Global, key: &Key) -> Stop
    ensures { IsAwait result (look.outputs key.now) }
{
    match key.copy(alloc) {
        Ok(key) => Stop::Waits(Cell::Outputs(key)),
        Err(_) => Stop::OutOfMemory,
    }
}
