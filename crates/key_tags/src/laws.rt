// What holds of keys as lists of numbers. A law has no body: its contract is the law.
ghost use Rattle.std.specs.Prelude.{◌≡◌, bytes_eq};
ghost use Rattle.arm_ids.specs.declared.id.ResourceId.{ResourceId};
ghost use Rattle.deploy_cells.specs.Same.{same_id};
ghost use Rattle.key_tags.specs.KeyCodes.{key_code};

/// Two keys are the same exactly where their numbers are.
pub fn keys_are_told_apart()
    ensures { (k l : ResourceId) → bytes_eq (key_code k) (key_code l) ≡ same_id k l }
{}
