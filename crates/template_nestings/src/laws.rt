//! What holds of how deep templates nest. A law has no body: its contract is the law.
ghost use Rattle.template_nestings.specs.Laws.{NestsNoDeeper, NestsAsDeep};

/// What is written of a template nests no deeper than `nesting` says.
pub fn templates_nest_no_deeper()
    ensures { NestsNoDeeper }
{}

/// It nests as deep, where the template keeps the rules of templates.
pub fn templates_nest_as_deep()
    ensures { NestsAsDeep }
{}
