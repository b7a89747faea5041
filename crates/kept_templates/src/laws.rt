//! What holds of templates that are made. A law has no body: its contract is the law.
ghost use Rattle.kept_templates.specs.Kept.{TemplatesKeepTheRules};

/// The template of a file keeps the rules of templates, where the file is sound, its names are placed, batches of loops
/// have at most 800 instances, and the templates of its modules keep the rules.
pub fn templates_keep_the_rules()
    ensures { TemplatesKeepTheRules }
{}
