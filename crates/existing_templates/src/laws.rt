//! What holds of the existing resources of templates. A law has no body: its contract is the law.
ghost use Rattle.existing_templates.specs.Existing.{TemplatesHaveExistingResources};

/// The template of a file has in the second form each existing resource of the file, in the place of its symbol.
pub fn templates_have_existing_resources()
    ensures { TemplatesHaveExistingResources }
{}
