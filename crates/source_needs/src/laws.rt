//! What holds of dependencies. A law has no body: its contract is the law.
ghost use Rattle.std.specs.Prelude.{◌≡◌, ℕ};
ghost use Rattle.bicep_dependencies.specs.Dependencies.{has};
ghost use Rattle.source_worlds.specs.Files.{SourceFile};
ghost use Rattle.source_needs.specs.Dependencies.{is_dependency, dependencies};

/// The list of what a declaration depends on has all that it depends on, and nothing else.
pub fn dependencies_are_all()
    ensures { (f : SourceFile) (k n : ℕ) → has (dependencies f k) n ≡ is_dependency f k n }
{}
