//! What holds of the functions beyond each one's own definition. The functions here have no body.
ghost use Rattle.std.specs.Prelude.{◌≡◌, ◌∷◌, [], Some, ℤ, ◌+ℤ◌, ◌*ℤ◌};
ghost use Rattle.arm_value.specs.Json.{int};
ghost use Rattle.function_numbers.specs.Numbers.{div, remainder};

/// Where `div` of two numbers has a value, it recombines with their `mod` to the first number.
pub fn division_recombines()
    ensures { (x y q r : ℤ) → div (int x ∷ int y ∷ []) ≡ Some (int q)
        → remainder (int x ∷ int y ∷ []) ≡ Some (int r) → ((q *ℤ y) +ℤ r) ≡ x }
{}
