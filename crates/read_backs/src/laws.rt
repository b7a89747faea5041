// What holds of JSON texts. A law has no body: its contract is the law.

ghost use Rattle.std.specs.Prelude.{◌≡◌, Option};
ghost use Rattle.arm_value.specs.Fault.{Gives};
ghost use Rattle.arm_value.specs.Json.{Json};
ghost use Rattle.serde_json.specs.Data.{Data};
ghost use Rattle.read_backs.specs.Characters.{HasCharacters};

/// No two values whose texts have characters alone are given by the same text.
pub fn read_once()
    ensures { (read : Option Data) (j k : Json) → HasCharacters j → HasCharacters k → Gives read j → Gives read k
        → j ≡ k }
{}
