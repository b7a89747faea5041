//! What holds of every file.
ghost use Rattle.bicep_tree.specs.Tree.{FileTree};
ghost use Rattle.bicep_names.specs.Scope.{Scope};
ghost use Rattle.bicep_names.specs.Unknown.{Tells};
ghost use Rattle.bicep_declared.specs.Declare.{declared_file};
ghost use Rattle.resolved_program.specs.Unknown.{FileHasUnknown};

/// The names of a file are found exactly where each of them means something. Else a name at the offset that is returned
/// means nothing.
pub fn unknown_names()
    ensures { (sc : Scope) (f : FileTree) → Tells (λ at. FileHasUnknown sc at f) (declared_file sc f) }
{}
