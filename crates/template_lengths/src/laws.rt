//! What holds of how many bytes templates have. A law has no body: its contract is the law.
ghost use Rattle.template_lengths.specs.Lengths.{HoldNested};

/// A template has at least as many bytes as the templates of its nested deployments together.
pub fn nested_templates_are_in_the_text()
    ensures { HoldNested }
{}
