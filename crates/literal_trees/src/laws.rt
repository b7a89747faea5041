//! What holds of trees without expressions and loops. A law has no body: its contract is the law.
ghost use Rattle.std.specs.Prelude.{◌≡◌, ◌≤◌, Some};
ghost use Rattle.arm_value.specs.Json.{Json, IsOrderly, nesting};
ghost use Rattle.arm_env.specs.Look.{Surroundings};
ghost use Rattle.arm_eval.specs.Trees.{tree_value};
ghost use Rattle.reading.specs.Reading.{pure};
ghost use Rattle.template_parameters.specs.Literal.{literal};

use foundation::limits::MAX_VALUE_NESTING;

/// A tree that has a literal value has this value, and looks at nothing.
pub fn literal_trees_are_known()
    ensures { (here : Surroundings) (j k : Json) → literal j ≡ Some k → IsOrderly j → nesting j ≤ MAX_VALUE_NESTING
        → tree_value j here ≡ pure k }
{}
