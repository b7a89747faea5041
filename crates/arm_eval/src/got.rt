// What is answered of an expression, or of a tree, in an environment.
ghost use Rattle.std.specs.Prelude.{◌≡◌, IfOk};
ghost use Rattle.arm_value.specs.View.{json};
ghost use Rattle.arm_expr.specs.View.{tree_of};
ghost use Rattle.reading.specs.Knowledge.{Known, told, waits};
ghost use Rattle.arm_env.specs.Look.{Look, Fact, Looking};
ghost use Rattle.arm_value.specs.Json.{Json};
ghost use Rattle.expression_values.specs.Meaning.{value};
ghost use Rattle.arm_env.specs.Known.{known_in, around};
ghost use Rattle.arm_env.specs.Cell.{look_of};
ghost use Rattle.arm_env.specs.Answer.{Gives};
ghost use Rattle.arm_eval.specs.Got.{Says};
ghost use Rattle.arm_env.specs.Sight.{here};
ghost use Rattle.arm_eval.specs.Titles.{titled, titles_of, has_symbols, followed};
ghost use Rattle.arm_eval.specs.Trees.{tree_value};
ghost use Rattle.reading.specs.Reading.{through};

use crate::titled::{titled_value, titled_value_of};
use crate::titles::{Titles, unnamed};
use crate::tree::tree_value;
use arm_env::cell::Cell;
use arm_env::entries::Around;
use arm_env::env::Env;
use arm_env::stop::{Stop, let_go};
use arm_expr::Expr;
use arm_ids::Key;
use arm_value::{OutOfMemory, Value};
use expression_values::value_of;
use std::alloc::{AllocError, Global};

/// What is known of a value.
#[derive(Drop)]
pub enum Got {
    Value(Value),
    /// There is no value.
    NoValue,
    /// The state at the key is looked at first of what is not known yet.
    Needs(Key),
    /// A parameter, a variable or an output is looked at first of what is not known yet.
    Late,
}

// The cell that is waited for, in public words.
#[tactic(auto, using(crate::proofs::GotLemmas::says))]
fn awaited(cell: Cell) -> Got
    ensures { (p : Look → Known Fact) (r : Looking Json) → told p r ≡ waits (look_of cell)
        → Says p r result }
{
    match cell {
        Cell::Parameter(_name) => Got::Late,
        Cell::Variable(_name) => Got::Late,
        Cell::Output(_key, _name) => Got::Late,
        Cell::State(key) => Got::Needs(key),
        Cell::Named(_text) => Got::Late,
        Cell::Deployment(_key) => Got::Late,
        Cell::Outputs(_key) => Got::Late,
    }
}

// The answer in public words.
#[tactic(auto, using(crate::proofs::GotLemmas::says))]
fn answer(found: Result<Value, Stop>) -> Result<Got, OutOfMemory>
    ensures { (p : Look → Known Fact) (r : Looking Json) → Gives json found (told p r)
        → IfOk result (Says p r) }
{
    match found {
        Ok(value) => Ok(Got::Value(value)),
        Err(Stop::NoValue) => Ok(Got::NoValue),
        Err(Stop::Waits(cell)) => Ok(awaited(cell)),
        Err(Stop::OutOfMemory) => Err(AllocError),
    }
}

// Whether texts are symbolic names.
fn has_symbols(env: &Env) -> bool
    ensures { result ≡ has_symbols env.now }
{
    !env.inside_name && !env.symbols.is_empty()
}

// The value of an expression where texts are symbolic names.
fn value_by_symbols(alloc: Global, env: &Env, around: &Around, e: &Expr) -> Result<Value, Stop>
    ensures { Gives json result (told (known_in env.now)
        (through (titled (titles_of env.now) around.now.place.now)
        (value (here around.now) (tree_of e.now)))) }
{
    let symbols = unnamed(alloc, &env.symbols)?;
    let titles = Titles {
        symbols: symbols.as_slice(),
        loops: &[],
    };
    let found = titled_value_of(alloc, env, &titles, around, e);
    let_go(symbols);
    found
}

// The value of a tree where texts are symbolic names.
fn tree_by_symbols(alloc: Global, env: &Env, around: &Around, tree: &Value) -> Result<Value, Stop>
    ensures { Gives json result (told (known_in env.now)
        (through (titled (titles_of env.now) around.now.place.now)
        (tree_value (json tree.now) (here around.now)))) }
{
    let symbols = unnamed(alloc, &env.symbols)?;
    let titles = Titles {
        symbols: symbols.as_slice(),
        loops: &[],
    };
    let found = titled_value(alloc, env, &titles, around, tree);
    let_go(symbols);
    found
}

// The value of an expression.
fn found_value(alloc: Global, env: &Env, e: &Expr) -> Result<Value, Stop>
    ensures { Gives json result
        (told (known_in env.now) (followed env.now (value (around env.now) (tree_of e.now)))) }
{
    let around = Around {
        loops: env.loops.as_slice(),
        place: env.place,
    };
    if has_symbols(env) {
        value_by_symbols(alloc, env, &around, e)
    } else {
        value_of(alloc, env, &around, e)
    }
}

// The value of a tree.
fn found_tree(alloc: Global, env: &Env, tree: &Value) -> Result<Value, Stop>
    ensures { Gives json result (told (known_in env.now)
        (followed env.now (tree_value (json tree.now) (around env.now)))) }
{
    let around = Around {
        loops: env.loops.as_slice(),
        place: env.place,
    };
    if has_symbols(env) {
        tree_by_symbols(alloc, env, &around, tree)
    } else {
        tree_value(alloc, env, &around, tree)
    }
}

/// The value of an expression in an environment, where a key that is not listed among the states
/// has none.
///
/// `Value` and `NoValue` come exactly where all that is looked at is known, and hold whatever the
/// other entries turn out to be. `Needs` and `Late` name the first entry that is looked at and is
/// not known yet, where an entry that is not known counts as one without a value.
pub fn eval(alloc: Global, env: &Env, e: &Expr) -> Result<Got, OutOfMemory>
    ensures { IfOk result (Says (known_in env.now)
        (followed env.now (value (around env.now) (tree_of e.now)))) }
{
    answer(found_value(alloc, env, e))
}

/// The value of a JSON tree with expressions and loops in an environment, where a key that is not
/// listed among the states has none. The answers are those of `eval`; `tree_value` says what a tree
/// means.
pub fn eval_tree(alloc: Global, env: &Env, tree: &Value) -> Result<Got, OutOfMemory>
    ensures { IfOk result (Says (known_in env.now)
        (followed env.now (tree_value (json tree.now) (around env.now)))) }
{
    answer(found_tree(alloc, env, tree))
}
