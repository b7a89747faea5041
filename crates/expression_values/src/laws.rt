//! What expressions mean, as equations of readings, for whoever proves a compiler to them.
//!
//! An equation of readings gives the value and what is looked at in each world, and what is told by
//! each knowledge. A law has no body: its contract is the law.

ghost use Rattle.std.specs.Prelude.{◌≡◌, ℕ, ℤ, List, Some, None, option_and_then, codes};
ghost use Rattle.arm_value.specs.Json as values;
ghost use Rattle.arm_value.specs.Json.{Json};
ghost use Rattle.arm_ids.specs.declared.id.ResourceId.{ResourceId};
ghost use Rattle.arm_expr.specs.Tree.{Tree, Trees, text, int, call, member, index, more, none};
ghost use Rattle.arm_functions.specs.Values.{function_value};
ghost use Rattle.arm_functions.specs.Kinds.{truth_of};
ghost use Rattle.arm_env.specs.Reading.{pure, done, continued, both};
ghost use Rattle.arm_env.specs.Look.{Surroundings, all};
ghost use Rattle.arm_env.specs.Names.{lazy_named, strict_named};
ghost use Rattle.arm_env.specs.Part.{kept, part_of};
ghost use Rattle.arm_env.specs.Held.{deployment, capped, held_value, access, value_named};
ghost use Rattle.arm_env.specs.declared.function.Lazy.{Lazy};
ghost use Rattle.arm_env.specs.declared.function.Lazy.TheVariants.{If};
ghost use Rattle.expression_values.specs.Row.{lazy_row, chosen};
ghost use Rattle.expression_values.specs.Meaning.{held, value, values, used, outcome, indexed};

/// A text and a number have themselves as their values, and look at nothing.
pub fn literals_are_values()
    ensures texts { (here : Surroundings) (t : List ℕ) → value here (text t) ≡ pure (values.text t) }
    ensures numbers { (here : Surroundings) (z : ℤ) → value here (int z) ≡ pure (values.int z) }
{}

/// A function of the values of all its arguments that needs nothing else looks at all of them.
pub fn plain_calls()
    ensures { (here : Surroundings) (name : List ℕ) (es : Trees) → lazy_named name ≡ None
        → strict_named name ≡ None → value here (call name es)
        ≡ continued (all (values here es))
        (λ vs. done (option_and_then kept (function_value name vs))) }
{}

/// `and`, `or`, `coalesce` and `if` look at their arguments as their rows say.
pub fn lazy_calls()
    ensures { (here : Surroundings) (name : List ℕ) (es : Trees) (f : Lazy)
        → lazy_named name ≡ Some f
        → value here (call name es) ≡ capped (lazy_row f (values here es)) }
{}

/// `if` looks at its condition, and then at the argument that it chooses.
pub fn choices()
    ensures { (here : Surroundings) (name : List ℕ) (c a b : Tree) → lazy_named name ≡ Some If
        → value here (call name (more c (more a (more b none))))
        ≡ continued (value here c) (λ v. chosen (truth_of v) (value here a) (value here b)) }
{}

/// An access by a name.
pub fn members()
    ensures { (here : Surroundings) (e : Tree) (name : List ℕ) → value here (member e name)
        ≡ continued (held here e) (λ h. used (access h (values.text name))) }
{}

/// An access by an index, which is looked at also after a whole without a value.
pub fn indices()
    ensures { (here : Surroundings) (e i : Tree) → value here (index e i)
        ≡ continued (both (outcome (held here e)) (outcome (value here i)))
        (λ p. used (indexed p.0 p.1)) }
{}

/// An access by a name to what is a plain value: no whole state, and no nested deployment or part of
/// one. What it gives is a plain value again.
pub fn parts_of_plain_values()
    ensures value { (here : Surroundings) (e : Tree) (name : List ℕ)
        → held here e ≡ held_value (value here e) → value here (member e name)
        ≡ continued (value here e)
        (λ j. done (option_and_then kept (part_of j (values.text name)))) }
    ensures plain { (here : Surroundings) (e : Tree) (name : List ℕ)
        → held here e ≡ held_value (value here e)
        → held here (member e name) ≡ held_value (value here (member e name)) }
{}

/// `.outputs.x.value` of a nested deployment looks at the output x alone.
pub fn values_of_outputs()
    ensures { (here : Surroundings) (e : Tree) (k : ResourceId) (x : List ℕ)
        → held here e ≡ pure (deployment k)
        → value here (member (member (member e (codes "outputs")) x) (codes "value"))
        ≡ value_named k x }
{}
