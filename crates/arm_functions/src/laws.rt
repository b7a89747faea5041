//! What holds of the functions beyond each one's own definition. The functions here have no body.
ghost use Rattle.std.specs.Prelude.{◌≡◌, ◌∷◌, [], Some, List, ℕ};
ghost use Rattle.arm_value.specs.Json.{object, pairs, Member, IsInOrder};
ghost use Rattle.function_prints.specs.Members.{union, value_at};
ghost use Rattle.arm_functions.specs.Laws.{later_value};

/// The union of two objects has at each key what the second has there, and what the first has where
/// the second has nothing; two objects under one key are united the same way.
pub fn union_keeps_later_values()
    ensures { (k : List ℕ) (ms ns us : List Member) → IsInOrder ms → IsInOrder ns
        → union (object (pairs ms) ∷ object (pairs ns) ∷ []) ≡ Some (object (pairs us))
        → value_at k us ≡ later_value (value_at k ms) (value_at k ns) }
{}
