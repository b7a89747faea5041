//! What holds of templates that are made. A law has no body: its contract is the law.
ghost use Rattle.counted_templates.specs.Counted.{TemplatesHaveFewParts};

/// Where nothing is beyond its limit, the template of a file has at most 256 parameters, 512 variables, 64 outputs and
/// 800 resources.
pub fn templates_have_few_parts()
    ensures { TemplatesHaveFewParts }
{}
