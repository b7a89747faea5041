//! What holds of every program that `check` of `bicep_types` returns. A law has no body: its contract is the law.
ghost use Rattle.std.specs.Prelude.{◌≡◌, ℕ, List, Some, slice_get};
ghost use Rattle.std.specs.List.{AllByRecursion};
ghost use Rattle.deploy_cells.specs.Cells.{World};
ghost use Rattle.bicep_program.specs.Program.{ProgramFile};
ghost use Rattle.resolved_program.specs.Programs.{ResolvedFileTree};
ghost use Rattle.resolved_program.specs.View.{files_view};
ghost use Rattle.bicep_types.specs.declared.checked.Checked.{Checked};
ghost use Rattle.bicep_types.specs.Checked.{IsChecked, IsSettled, Fits};
ghost use Rattle.bicep_meaning.specs.Around.{Here};
ghost use Rattle.bicep_soundness.specs.Entries.{AreTyped};
ghost use Rattle.program_soundness.specs.Sound.{types_of, IsFileSound};

/// In a program that `check` returns, by what its clauses `checked`, `settled` and `fits` say: in each instance of a
/// file and in each world in which the entries of its parameters and variables and the outputs of its modules are of
/// their types and each name of a resource or a module is a text, all parts of the file are sound.
pub fn checked_programs_are_sound()
    ensures { (files : List ProgramFile) (c : Checked) → IsChecked files c
        → AllByRecursion (IsSettled files) (files_view c.resolved) → AllByRecursion (Fits files) (files_view c.resolved)
        → (n : ℕ) (r : ResolvedFileTree) (here : Here) (w : World) → slice_get (files_view c.resolved) n ≡ Some r
        → here.file.declared ≡ r.declared → AreTyped (types_of c.types n) here w
        → IsFileSound files r (types_of c.types n) here w }
{}
