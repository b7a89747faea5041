// What holds of declarations in an order. A law has no body: its contract is the law.
ghost use Rattle.std.specs.Prelude.{◌≡◌, ◌⊎◌, ◌<◌, ◌∷◌, [], ℕ, Bool, true, List, length, slice_index_or};
ghost use Rattle.reading.specs.World.{Each};
ghost use Rattle.depend_graph.specs.Orders.{IsAmong};
ghost use Rattle.bicep_resolved.specs.Source.{SourceTree, ValueTree};
ghost use Rattle.bicep_emission.specs.Files.{SourceFile};
ghost use Rattle.emission_laws.specs.Ranked.{mentions_at};
ghost use Rattle.bicep_emission.specs.Emittable.{IsEmittable, IsValue};
ghost use Rattle.bicep_emission.specs.Emitted.{Frame, emitted, emitted_value};
ghost use Rattle.emission_laws.specs.Sound.{IsSound};
ghost use Rattle.emission_laws.specs.Declared.{next, whole};
ghost use Rattle.emission_laws.specs.Holes.{fill, holes, refilled, IsRun};
ghost use Rattle.emission_laws.specs.Same.{SameEmission};
ghost use Rattle.ordered_emissions.specs.Orders.{IsPaired, IsOrderOf, IsNoSymbol};
ghost use Rattle.ordered_emissions.specs.Known.{known, known_scope, known_full_name, known_condition, HasHeads};

/// Where there is an order, each declaration becomes what its expressions become, with what the others become in their
/// places.
pub fn ordered_emissions_settle()
    ensures { (file : SourceFile) (files : List SourceFile) (order : List ℕ) → IsPaired file → IsOrderOf file order
        → (n : ℕ) → SameEmission (whole file files) (next file files (whole file files)) n }
{}

/// Where all symbols are known that a declaration mentions, its expressions become what it becomes.
pub fn known_symbols_suffice()
    ensures { (file : SourceFile) (files : List SourceFile) (order : List ℕ) → IsPaired file → IsOrderOf file order
        → IsSound file → (p : ℕ → Bool) (n : ℕ)
        → Each (λ m. (p m ≡ true) ⊎ IsNoSymbol file m) (mentions_at file n)
        → SameEmission (next file files (known p (whole file files))) (whole file files) n }
{}

/// Where all symbols are known, names and ids are made of those with holes.
pub fn known_symbols_are_all()
    ensures { (file : SourceFile) (files : List SourceFile) (p : ℕ → Bool)
        → ((n : ℕ) → (p n ≡ true) ⊎ IsNoSymbol file n)
        → known_scope p (whole file files).scope ≡ refilled (whole file files).scope }
{}

/// Where all symbols are known that are before a place of the order, the expressions of the symbol at that place become
/// what its declaration becomes.
pub fn earlier_symbols_suffice()
    ensures { (file : SourceFile) (files : List SourceFile) (order : List ℕ) → IsPaired file → IsOrderOf file order
        → IsSound file → (p : ℕ → Bool) (i : ℕ) → i < length order → ((m : ℕ) → IsAmong order i m → p m ≡ true)
        → SameEmission (next file files (known p (whole file files))) (whole file files) (slice_index_or order i 0) }
{}

/// Where all symbols of the order are known, names and ids are made of those with holes.
pub fn symbols_of_the_order_are_all()
    ensures { (file : SourceFile) (files : List SourceFile) (order : List ℕ) → IsPaired file → IsOrderOf file order
        → (p : ℕ → Bool) → ((m : ℕ) → IsAmong order (length order) m → p m ≡ true)
        → known_scope p (whole file files).scope ≡ refilled (whole file files).scope }
{}

/// An expression in a loop becomes what it becomes with holes, with the item and the index of the loop in these, where
/// only some symbols are known.
pub fn known_expressions_have_holes()
    ensures { (file : SourceFile) (files : List SourceFile) → IsSound file → (p : ℕ → Bool) (e : SourceTree)
        → IsEmittable e → (f : Frame)
        → emitted file files (known_scope p (whole file files).scope) e (f ∷ [])
        ≡ fill f (emitted file files (known_scope p (whole file files).scope) e (holes ∷ [])) }
{}

/// The same of a value.
pub fn known_values_have_holes()
    ensures { (file : SourceFile) (files : List SourceFile) → IsSound file → (p : ℕ → Bool) (v : ValueTree)
        → IsValue v → (f : Frame)
        → emitted_value file files (known_scope p (whole file files).scope) v (f ∷ [])
        ≡ fill f (emitted_value file files (known_scope p (whole file files).scope) v (holes ∷ [])) }
{}

/// The whole name and the condition of a resource or a module become with a loop around its declaration, or without
/// one, what they become with holes, and the item and the index of the loop in these.
pub fn whole_names_and_conditions_have_holes()
    ensures { (file : SourceFile) (files : List SourceFile) → IsSound file → (n : ℕ)
        → HasHeads (whole file files) n }
{}

/// Where all symbols of the order are known, whole names and conditions are those of the declarations, with the loop
/// around a declaration, or without one.
pub fn heads_of_the_order_are_known()
    ensures { (file : SourceFile) (files : List SourceFile) (order : List ℕ) → IsPaired file → IsOrderOf file order
        → IsSound file → (p : ℕ → Bool) → ((m : ℕ) → IsAmong order (length order) m → p m ≡ true) → (n : ℕ)
        (fs : List Frame) → IsRun fs
        → (known_full_name p (whole file files) n fs ≡ (whole file files).full_name n fs)
        × (known_condition p (whole file files) n fs ≡ (whole file files).condition n fs) }
{}
