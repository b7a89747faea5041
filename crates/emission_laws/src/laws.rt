// What holds of all emitted declarations. A law has no body: its contract is the law.
ghost use Rattle.std.specs.Prelude.{◌≡◌, ◌<◌, ℕ, List};
ghost use Rattle.bicep_declared.specs.Source.{SourceTree};
ghost use Rattle.bicep_meaning_laws.specs.Files.{SourceFile};
ghost use Rattle.bicep_meaning_laws.specs.Ranked.{IsRanked};
ghost use Rattle.declaration_laws.specs.Emitted.{Frame, emitted};
ghost use Rattle.declaration_laws.specs.Sound.{IsSound};
ghost use Rattle.declaration_laws.specs.Declared.{next, through};
ghost use Rattle.emission_laws.specs.Holes.{HasHoles, refilled};
ghost use Rattle.emission_laws.specs.Same.{SameEmission};

/// What the name and the id of a resource or a module become with a loop around its declaration, or without one, is
/// what they become with holes, and the item and the index of the loop in these. Variables, and what loops run over,
/// have no holes.
pub fn runs_fill_holes()
    ensures { (file : SourceFile) (files : List SourceFile) → IsSound file → (k n : ℕ)
        → HasHoles (through file files k).scope n }
{}

/// An expression becomes the same where names and ids are made of those with holes.
pub fn expressions_use_filled_holes()
    ensures { (file : SourceFile) (files : List SourceFile) → IsSound file → (k : ℕ) (e : SourceTree)
        (fs : List Frame)
        → emitted file files (refilled (through file files k).scope) e fs
        ≡ emitted file files (through file files k).scope e fs }
{}

/// Where each declaration mentions only symbols of lower rank, each becomes what its expressions become, with what the
/// others become in their places.
pub fn emissions_settle()
    ensures { (file : SourceFile) (files : List SourceFile) (rank : ℕ → ℕ) (k : ℕ) → IsRanked file rank
        → ((n : ℕ) → rank n < k) → (n : ℕ)
        → SameEmission (through file files k) (next file files (through file files k)) n }
{}
