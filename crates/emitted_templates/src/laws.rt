//! What holds of templates that are made. A law has no body: its contract is the law.
ghost use Rattle.emitted_templates.specs.Laws.{TemplatesHaveParts, TemplatesHaveMetadata};

/// The template of a file whose resources are within the limits of templates has the parts of the file: what is found
/// by a name in it is that of the name in the file, and its resources are those of the file, in their order.
pub fn templates_have_the_parts_of_the_file()
    ensures { TemplatesHaveParts }
{}

/// The parameters, the outputs and the resources of the template have the metadata with which it was made.
pub fn templates_have_metadata()
    ensures { TemplatesHaveMetadata }
{}
