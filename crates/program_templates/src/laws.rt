//! What holds of templates of programs. A law has at most other laws in its body: its contract is the law.
ghost use Rattle.program_templates.specs.Laws.{WholeTemplatesAreEmitted, NestedTemplatesAreGiven};
ghost use Rattle.program_templates.specs.Laws.{CheckedFilesHaveKinds, CheckedNamesDiffer, ParametersAreThere};

use sound_files::laws::checked_files_repeat_no_name;
use symbol_names::laws::symbols_differ;

/// A template of the main file that has the templates of all modules in it is that of the program.
pub fn whole_templates_are_emitted()
    ensures { WholeTemplatesAreEmitted }
{}

/// The template of a nested deployment is the one that was given for its module.
pub fn nested_templates_are_given()
    ensures { NestedTemplatesAreGiven }
{}

/// In a program whose names are found the symbols of a file are of the kinds of their declarations.
pub fn checked_files_have_kinds()
    ensures { CheckedFilesHaveKinds }
{}

/// In a program in which `check` finds nothing wrong no two symbols of a file, and no two outputs, have the same name.
pub fn checked_names_differ()
    ensures { CheckedNamesDiffer }
{
    checked_files_repeat_no_name();
    symbols_differ();
}

/// The parameters that `parameter_rules` returns are there for all symbols that are parameters, with their names.
pub fn parameters_are_there()
    ensures { ParametersAreThere }
{}
