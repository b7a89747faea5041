//! What holds of the files of programs without faults. A law has no body: its contract is the law.
ghost use Rattle.std.specs.Prelude.{◌≡◌, ℕ, List, Some, None, slice_get};
ghost use Rattle.std.specs.declared.alloc.Global.{Global};
ghost use Rattle.std.specs.declared.vec.Vec.{Vec};
ghost use Rattle.depend_graph.specs.declared.order.Sorted.TheVariants as sorted;
ghost use Rattle.bicep_symbols.specs.Repeated.{repeated_symbol};
ghost use Rattle.bicep_circles.specs.Orders.{IsLinkOrder, AreSorted};
ghost use Rattle.bicep_program.specs.Program.{ProgramFile};
ghost use Rattle.resolved_program.specs.Programs.{ResolvedFileTree, IsResolved};
ghost use Rattle.bicep_checks.specs.Faults.{links_of};
ghost use Rattle.bicep_types.specs.Faults.{HasFault};
ghost use Rattle.bicep_types.specs.declared.fault.CheckFault.{CheckFault as Fault};
ghost use Rattle.bicep_meaning.specs.Files.{SourceFile};
ghost use Rattle.declaration_laws.specs.Sound.{IsSound};
ghost use Rattle.ordered_emissions.specs.Orders.{IsPaired, IsOrderOf};
ghost use Rattle.sound_declarations.specs.Few.{FileHasFew};
ghost use Rattle.sound_files.specs.Files.{IsFileOf};
ghost use Rattle.sound_declarations.specs.Values.{AreValuesSound};

/// Each file of a program in which `check` finds nothing wrong, as its clauses `checked` and `none` say, is sound.
pub fn checked_files_are_sound()
    ensures { (files : List ProgramFile) (rs : List ResolvedFileTree) → IsResolved files rs
        → ((fault : Fault) → ¬ HasFault files fault) → (k : ℕ) (r : ResolvedFileTree) → slice_get rs k ≡ Some r
        → FileHasFew r.declared → (f : SourceFile) → IsFileOf r f → IsSound f }
{}

/// So are the values of its declarations and outputs.
pub fn checked_values_are_sound()
    ensures { (files : List ProgramFile) (rs : List ResolvedFileTree) → IsResolved files rs
        → ((fault : Fault) → ¬ HasFault files fault) → (k : ℕ) (r : ResolvedFileTree) → slice_get rs k ≡ Some r
        → FileHasFew r.declared → AreValuesSound r.declared }
{}

/// Each symbol of such a file has a declaration.
pub fn checked_files_are_paired()
    ensures { (files : List ProgramFile) (rs : List ResolvedFileTree) → IsResolved files rs
        → ((fault : Fault) → ¬ HasFault files fault) → (k : ℕ) (r : ResolvedFileTree) → slice_get rs k ≡ Some r
        → (f : SourceFile) → IsFileOf r f → IsPaired f }
{}

/// No symbol of such a file has the name of another one, or a name that no symbol may have.
pub fn checked_files_repeat_no_name()
    ensures { (files : List ProgramFile) (rs : List ResolvedFileTree) → IsResolved files rs
        → ((fault : Fault) → ¬ HasFault files fault) → (k : ℕ) (r : ResolvedFileTree) → slice_get rs k ≡ Some r
        → repeated_symbol r.symbols ≡ None }
{}

/// No symbols of such a file mention each other in a circle, so `symbol_order` of `bicep_circles` returns an order.
pub fn checked_files_have_no_circle()
    ensures { (files : List ProgramFile) (rs : List ResolvedFileTree) → IsResolved files rs
        → ((fault : Fault) → ¬ HasFault files fault) → (k : ℕ) (r : ResolvedFileTree) → slice_get rs k ≡ Some r
        → (circle : Vec ℕ Global) → ¬ AreSorted (links_of r) (sorted.Circle circle) }
{}

/// An order of the symbols of a resolved file is one of the file that it stands for.
pub fn orders_are_of_files()
    ensures { (r : ResolvedFileTree) (f : SourceFile) (order : List ℕ) → IsFileOf r f
        → IsLinkOrder (links_of r) order → IsOrderOf f order }
{}
