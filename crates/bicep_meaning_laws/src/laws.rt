// What holds of the meanings of all declarations and expressions. A law has no body: its contract is the law.
ghost use Rattle.std.specs.Prelude.{◌≡◌, ◌<◌, ℕ, List, [], ◌∷◌, ◌++◌, Some};
ghost use Rattle.arm_value.specs.Json.{text};
ghost use Rattle.arm_ids.specs.declared.id.ResourceId.{ResourceId};
ghost use Rattle.reading.specs.World.{value_in, reads_in, Each};
ghost use Rattle.deploy_cells.specs.Cells.{World};
ghost use Rattle.bicep_circles.specs.Source.{SourceTree, ValueTree};
ghost use Rattle.bicep_circles.specs.Mentions.{mentions, value_mentions};
ghost use Rattle.deploy_cells.specs.Puts.{id_at};
ghost use Rattle.bicep_meaning.specs.Files.{type_of};
ghost use Rattle.bicep_meaning.specs.Around.{Here, Frame, run_at};
ghost use Rattle.bicep_meaning.specs.Meaning.{value, value_of};
ghost use Rattle.bicep_meaning.specs.Declared.{around};
ghost use Rattle.bicep_meaning_laws.specs.Ranked.{IsRanked, IsSettled};
ghost use Rattle.bicep_meaning_laws.specs.Reached.{all_led_to, IsMentioned, IsOfOne};

/// Where each declaration mentions only symbols of lower rank, each means what its expressions mean.
pub fn declarations_settle()
    ensures { (here : Here) (rank : ℕ → ℕ) (k : ℕ) → IsRanked here.file rank → ((n : ℕ) → rank n < k)
        → IsSettled here (around here k) }
{}

/// What an expression reads in a world is of a symbol that it mentions, or to which the names of these and of their
/// parents lead: an entry, the state of a resource, or what is read for an output of a module.
pub fn reads_are_of_what_is_mentioned()
    ensures { (here : Here) (w : World) (k : ℕ) (e : SourceTree)
        → Each (IsMentioned here w k e) (reads_in w (value here (around here k) e [])) }
{}

/// The same of the value of a variable or an output, which may be a for-expression.
pub fn reads_of_values_are_of_what_is_mentioned()
    ensures { (here : Here) (w : World) (k : ℕ) (v : ValueTree)
        → Each (IsOfOne here w (all_led_to here.file k (value_mentions v)))
        (reads_in w (value_of here (around here k) v [])) }
{}

/// What a value in a body reads in a run of the loop around it is of a symbol to which the value leads, or what the
/// loop runs over.
pub fn reads_in_runs_are_of_what_is_mentioned()
    ensures { (here : Here) (w : World) (j k i : ℕ) (xs : SourceTree) (v : ValueTree)
        → Each (IsOfOne here w (all_led_to here.file j (mentions xs) ++ all_led_to here.file k (value_mentions v)))
        (reads_in w (value_of here (around here k) v (run_at (value here (around here j) xs []) i ∷ []))) }
{}

/// The id of a resource is that of its whole type and its full name.
pub fn ids_are_of_full_names()
    ensures { (here : Here) (w : World) (k n : ℕ) (fs : List Frame) (i : ResourceId)
        → value_in w ((around here k).id n fs) ≡ Some i
        → (t : List ℕ) × ((value_in w ((around here k).full_name n fs) ≡ Some (text t))
        × (id_at here.place (type_of here.file n).kind t ≡ i)) }
{}
