//! What holds of values without expressions. A law has no body: its contract is the law.

ghost use Rattle.std.specs.Prelude.{◌≡◌};
ghost use Rattle.arm_value.specs.Json.{Json};
ghost use Rattle.plain_values.specs.Plain.{meant, written_plainly};

/// A value that is written plainly means itself.
pub fn written_values_mean_themselves()
    ensures { (j : Json) → meant (written_plainly j) ≡ j }
{}
