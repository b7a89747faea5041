// The quantities that have a limit.

ghost use Rattle.std.specs.Prelude.{◌≡◌};
ghost use Rattle.template_parts.specs.Words.{word_of};

/// A quantity that has a limit.
#[derive(Clone, Copy, Debug, PartialEq, Eq)]
pub enum Which {
    /// The parameters of a template: at most 256.
    Parameters,
    /// The variables of a template: at most 512.
    Variables,
    /// The outputs of a template: at most 64.
    Outputs,
    /// The resources of a template: at most 800.
    Resources,
    /// How often a loop repeats: at most 800.
    Count,
    /// How many instances a batch of a serial loop has: at most 800.
    Batch,
    /// The instances over all nested templates, or the tasks of a plan.
    Instances,
    /// The characters of an expression, its brackets included: at most 24,576.
    Expression,
    /// How deep the parts of an expression nest: at most 64.
    Nesting,
    /// The bytes of a template: at most 4,194,304.
    Bytes,
}

impl Which {
    /// The word for the quantity, as messages have it.
    pub fn word(self) -> &'static str
        ensures { result.now ≡ word_of self }
    {
        match self {
            Which::Parameters => "Parameters",
            Which::Variables => "Variables",
            Which::Outputs => "Outputs",
            Which::Resources => "Resources",
            Which::Count => "Count",
            Which::Batch => "Batch",
            Which::Instances => "Instances",
            Which::Expression => "Expression",
            Which::Nesting => "Nesting",
            Which::Bytes => "Bytes",
        }
    }
}
