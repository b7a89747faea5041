// What holds of all ids that are emitted. A law has no body: its contract is the law.
ghost use Rattle.std.specs.Prelude.{◌≡◌, ℕ, suc, true, length, List, [], ◌∷◌, ◌++◌};
ghost use Rattle.arm_value.specs.Json.{Json};
ghost use Rattle.arm_ids.specs.Segments.{segments, has_slash};
ghost use Rattle.arm_ids.specs.declared.id.ResourceId.{ResourceId};
ghost use Rattle.arm_env.specs.Look.{Surroundings};
ghost use Rattle.arm_expr.specs.Tree.{Tree};
ghost use Rattle.deploy_cells.specs.Guarded.{Reads};
ghost use Rattle.expression_values.specs.Meaning.{value};
ghost use Rattle.reading.specs.Reading.{done, continued, both};
ghost use Rattle.bicep_emission.specs.Declared.{id_named, id_after};
ghost use Rattle.bicep_emission.specs.Meaning.{id_text};
ghost use Rattle.bicep_emission.specs.Answered.{Sides};
ghost use Rattle.bicep_emission.specs.Stands.{Like};
ghost use Rattle.emitted_declarations.specs.ChildTypes.{IsChildType};
ghost use Rattle.emitted_declarations.specs.Declared.{segments_from, id_of_parts};
ghost use Rattle.emitted_declarations.specs.Parts.{PartsStand};

/// The segments of a name, the last with all that is after them, make the id of a type with that name, or none where
/// the name makes none: where it is no text, or has another number of segments than the type.
pub fn segments_make_ids()
    ensures { (x : Sides) (around : Surroundings) (own : Tree) (r : Reads Json) → Like x (value around own) r
        → (kind : List ℕ) (n : ℕ) → length (segments kind) ≡ suc (suc n)
        → PartsStand x around kind (segments_from own 0 n) (continued r (λ v. done (id_named around.place kind v))) }
{}

/// The parts of the id of a parent and the name of a child make the id of the child.
pub fn names_of_children_make_ids()
    ensures { (x : Sides) (around : Surroundings) (kind upper : List ℕ) → IsChildType kind upper
        → (ps : List Tree) (up : Reads ResourceId) → PartsStand x around upper ps up
        → (own : Tree) (r : Reads Json) → Like x (value around own) r
        → PartsStand x around kind (ps ++ own ∷ []) (continued (both up r) (λ p. done (id_after kind p.0 p.1))) }
{}

/// `resourceId` of a type and the parts of an id has the text of this id as its value, and none where there is no id.
pub fn ids_are_of_parts()
    ensures { (x : Sides) (around : Surroundings) (kind : List ℕ) → has_slash kind ≡ true
        → (ps : List Tree) (r : Reads ResourceId) → PartsStand x around kind ps r
        → Like x (value around (id_of_parts kind ps)) (id_text r) }
{}
