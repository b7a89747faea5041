//! What holds of programs that are read and checked. A law has no body: its contract is the law.
ghost use Rattle.std.specs.Prelude.{List};
ghost use Rattle.std.specs.List.{AllByRecursion};
ghost use Rattle.bicep_program.specs.Program.{ProgramFile};
ghost use Rattle.bicep_program.specs.Sources.{Folder, IsReadAs};
ghost use Rattle.resolved_program.specs.Programs.{ResolvedFileTree, IsResolved};
ghost use Rattle.bicep_types.specs.Faults.{HasFault};
ghost use Rattle.bicep_types.specs.declared.fault.CheckFault.{CheckFault as Fault};
ghost use Rattle.bicep_meaning.specs.Instances.{SourceProgram};
ghost use Rattle.bicep_emission.specs.Answered.{IsPlainPlace};
ghost use Rattle.emitted_needs.specs.Sound.{IsSoundProgram};
ghost use Rattle.emitted_needs.specs.Symbols.{HaveSymbols};
ghost use Rattle.sound_programs.specs.Files.{AreFilesOf};

/// A program whose files are read, as `load` says, and in which `check` finds nothing wrong, as its clauses `checked`
/// and `none` say, is sound wherever neither the subscription nor the group has a slash.
pub fn read_and_checked_programs_are_sound()
    ensures { (folder : Folder) (files : List ProgramFile)
        → AllByRecursion (λ p. IsReadAs folder p.name p.tree) files → (rs : List ResolvedFileTree)
        → IsResolved files rs → ((fault : Fault) → ¬ HasFault files fault) → (d : SourceProgram)
        → AreFilesOf rs d.files → IsPlainPlace d.place → IsSoundProgram d }
{}

/// The symbols of such a program have names of template expressions, which differ.
pub fn symbols_of_checked_programs_differ()
    ensures { (folder : Folder) (files : List ProgramFile)
        → AllByRecursion (λ p. IsReadAs folder p.name p.tree) files → (rs : List ResolvedFileTree)
        → IsResolved files rs → ((fault : Fault) → ¬ HasFault files fault) → (d : SourceProgram)
        → AreFilesOf rs d.files → HaveSymbols d }
{}
