// What holds of files that agree. A law has no body: its contract is the law.
ghost use Rattle.std.specs.Prelude.{◌≡◌, ℕ, List};
ghost use Rattle.bicep_resolved.specs.Source.{SourceTree};
ghost use Rattle.bicep_meaning.specs.Files.{SourceFile, type_of};
ghost use Rattle.bicep_emission.specs.Emitted.{Frame, Scope, emitted};
ghost use Rattle.declaration_laws.specs.Sound.{IsSound};
ghost use Rattle.emitted_declarations.specs.Declared.{whole};
ghost use Rattle.agreeing_files.specs.Agreeing.{Agree, outputs_of};

/// The declarations of files that agree become the same, in programs whose files have the same outputs.
pub fn agreeing_files_become_the_same()
    ensures { (f g : SourceFile) (fs gs : List SourceFile) → Agree f g → outputs_of fs ≡ outputs_of gs
        → whole f fs ≡ whole g gs }
{}

/// An expression becomes the same in files that agree, where the declarations become the same.
pub fn expressions_become_the_same()
    ensures { (f g : SourceFile) (fs gs : List SourceFile) → Agree f g → outputs_of fs ≡ outputs_of gs
        → (sc : Scope) (e : SourceTree) (frames : List Frame) → emitted f fs sc e frames ≡ emitted g gs sc e frames }
{}

/// Resources have the same types in files that agree.
pub fn types_are_the_same()
    ensures { (f g : SourceFile) → Agree f g → (n : ℕ) → type_of f n ≡ type_of g n }
{}

/// A file is sound where one is that agrees with it.
pub fn agreeing_files_are_sound()
    ensures { (f g : SourceFile) → Agree f g → IsSound f → IsSound g }
{}
