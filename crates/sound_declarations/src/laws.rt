//! What holds of the declarations of files without faults. A law has no body: its contract is the law.
ghost use Rattle.std.specs.Prelude.{◌≡◌, None};
ghost use Rattle.bicep_tree.specs.Tree.{FileTree};
ghost use Rattle.bicep_found.specs.Found.{found};
ghost use Rattle.bicep_members.specs.Files.{repeated_member};
ghost use Rattle.bicep_misplaced.specs.Files.{misplaced};
ghost use Rattle.bicep_names.specs.Scope.{Scope};
ghost use Rattle.bicep_declared.specs.Declarations.{DeclaredFileTree};
ghost use Rattle.bicep_declared.specs.Declare.{declared_file};
ghost use Rattle.sound_declarations.specs.Few.{FileHasFew};
ghost use Rattle.sound_declarations.specs.Values.{AreValuesSound};

/// The values of a file in which nothing is misplaced and no name is given twice in an object or a loop are sound, once
/// its names are found.
pub fn values_are_sound()
    ensures { (sc : Scope) (f : FileTree) (x : DeclaredFileTree) → misplaced f ≡ None → repeated_member f ≡ None
        → declared_file sc f ≡ found x → FileHasFew x → AreValuesSound x }
{}
