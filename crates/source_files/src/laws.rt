//! What holds of the files of a program. A law has no body: its contract is the law.
ghost use Rattle.std.specs.Prelude.{◌≡◌, List, length, map};
ghost use Rattle.template_parts.specs.declared.mode.Form.{Form};
ghost use Rattle.template_parts.specs.declared.mode.Form.TheVariants.{One};
ghost use Rattle.bicep_meaning.specs.Files.{SourceFile, declaration};
ghost use Rattle.source_worlds.specs.Numbers.{passing};
ghost use Rattle.bicep_tree.specs.Tree.{FileTree};
ghost use Rattle.resolved_program.specs.Programs.{ResolvedFileTree};
ghost use Rattle.resolved_program.specs.View.{file_view};
ghost use Rattle.resolved_program.specs.declared.resolved.ResolvedFile.{ResolvedFile};
ghost use Rattle.sound_files.specs.Files.{IsFileOf};
ghost use Rattle.symbol_decorators.specs.Batches.{HasBatches};
ghost use Rattle.parameter_rules.specs.Rules.{HasRules};
ghost use Rattle.declared_table.specs.Seen.{file_of};
ghost use Rattle.declared_table.specs.declared.mark.Mark.{Mark};
ghost use Rattle.alike_files.specs.Alike.{AreAlike};
ghost use Rattle.source_files.specs.Sources.{source_file, source_files, is_module_by, modules_of};

/// The file of a text has the symbols, the declarations and the entries of what its names are, and the batches and the
/// rules of its decorators.
pub fn source_files_are_of_texts()
    ensures file { (z : Form) (t : FileTree) (r : ResolvedFileTree) → IsFileOf r (source_file z t r) }
    ensures batches { (z : Form) (t : FileTree) (r : ResolvedFileTree) → HasBatches t (source_file z t r) }
    ensures rules { (z : Form) (t : FileTree) (r : ResolvedFileTree) → HasRules t (source_file z t r) }
{}

/// The file of a table whose marks are those of a file is like the file of its text.
pub fn tables_are_of_source_files()
    ensures { (z : Form) (t : FileTree) (r : ResolvedFile) (marks : List Mark)
        → IsFileOf (file_view r) (file_of r marks) → HasBatches t (file_of r marks)
        → AreAlike (file_of r marks) (source_file z t (file_view r)) }
{}

/// The files of a program have its outputs.
pub fn outputs_are_of_the_program()
    ensures { (z : Form) (ts : List FileTree) (rs : List ResolvedFileTree) → length ts ≡ length rs
        → map (λ f. f.outputs) (source_files z ts rs) ≡ map (λ r. r.outputs) rs }
{}

/// In the first form the modules of a file are in the order of the source.
pub fn modules_are_in_source_order()
    ensures { (f : SourceFile) → modules_of One f
        ≡ passing (λ n. is_module_by (declaration f n)) 0 (length f.declared.declarations) }
{}
