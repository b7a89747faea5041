//! What holds of the functions beyond each one's own definition. The functions here have no body.
ghost use Rattle.std.specs.Prelude.{◌≡◌, ◌∷◌, ◌++◌, [], Some, List, ℕ, ℤ};
ghost use Rattle.arm_value.specs.Json.{Json, int, text, array, row};
ghost use Rattle.function_lists.specs.Ends.{skip, take};

/// What `take` and `skip` of one count give of a text, or of an array, is the whole once joined.
pub fn take_and_skip_recombine()
    ensures texts { (s front rest : List ℕ) (n : ℤ) → take (text s ∷ int n ∷ []) ≡ Some (text front)
        → skip (text s ∷ int n ∷ []) ≡ Some (text rest) → front ++ rest ≡ s }
    ensures arrays { (js front rest : List Json) (n : ℤ)
        → take (array (row js) ∷ int n ∷ []) ≡ Some (array (row front))
        → skip (array (row js) ∷ int n ∷ []) ≡ Some (array (row rest)) → front ++ rest ≡ js }
{}
