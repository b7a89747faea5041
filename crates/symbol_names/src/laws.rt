//! What holds of the names of symbols. A law has no body: its contract is the law.
ghost use Rattle.std.specs.Prelude.{◌≡◌, ℕ, List, Some, None};
ghost use Rattle.arm_value.specs.Look.{fold};
ghost use Rattle.bicep_meaning.specs.Files.{SourceFile, symbol_name};
ghost use Rattle.bicep_symbols.specs.Repeated.{repeated_symbol};

/// Where no symbol has a name that is taken or was given before, no two symbols have names that are the same after
/// ASCII case folding.
pub fn symbols_differ()
    ensures { (f : SourceFile) → repeated_symbol f.symbols ≡ None → (n m : ℕ) (x y : List ℕ)
        → symbol_name f n ≡ Some x → symbol_name f m ≡ Some y → fold x ≡ fold y → n ≡ m }
{}
