//! What holds of templates that are made for files. A law has at most other laws in its body: its contract is the law.
ghost use Rattle.source_templates.specs.Laws.{TemplatesAreOfTexts, SymbolsHaveTheSameNumbers};
ghost use Rattle.source_templates.specs.Laws.{TemplatesHaveTheExistingResourcesOfTexts};
ghost use Rattle.source_templates.specs.Laws.{TemplatesHaveTheMetadataOfTexts};

use agreeing_files::laws::{agreeing_files_become_the_same, types_are_the_same};
use alike_files::laws::{
    alike_files_have_the_same_rest, defaults_become_the_same, files_are_their_parts,
};
use parameter_rules::laws::parameters_have_the_rules;
use program_templates::{templates_have_existing_resources, templates_have_metadata};
use source_files::laws::{source_files_are_of_texts, tables_are_of_source_files};

/// A template that has the parts of the file of a table, with the rules that the decorators of a text give to
/// parameters, is that of the file of the text.
pub fn templates_are_of_their_texts()
    ensures { TemplatesAreOfTexts }
{
    types_are_the_same();
    alike_files_have_the_same_rest();
    defaults_become_the_same();
    files_are_their_parts();
    parameters_have_the_rules();
    source_files_are_of_texts();
    tables_are_of_source_files();
}

/// The resource of a number of the template is that of the same symbol in the file of the table and in that of the
/// text.
pub fn symbols_have_the_same_numbers()
    ensures { SymbolsHaveTheSameNumbers }
{
    types_are_the_same();
    tables_are_of_source_files();
}

/// A template that is made with the metadata that the decorators of a text give has it: its parameters, its outputs and
/// its resources, by the numbers of the symbols and of the outputs of the text.
pub fn templates_have_the_metadata_of_texts()
    ensures { TemplatesHaveTheMetadataOfTexts }
{
    templates_have_metadata();
    types_are_the_same();
    tables_are_of_source_files();
}

/// A template in the second form that is made of the table of a text has each existing resource of the file of the
/// text, in the place of its symbol.
pub fn templates_have_the_existing_resources_of_texts()
    ensures { TemplatesHaveTheExistingResourcesOfTexts }
{
    templates_have_existing_resources();
    agreeing_files_become_the_same();
    types_are_the_same();
    tables_are_of_source_files();
}
