// What gives a variable, an argument or an output its value.
ghost use Rattle.std.specs.Prelude.{◌≡◌};
ghost use Rattle.plan_cells.specs.Meaning.{content_value, output_content};
ghost use Rattle.plan_telling.specs.Sources.{meaning_of};

use arm_value::Text;
use plan_telling::source::Source;
use template_parts::Content;

/// The source of a variable or an argument, whose loop has this name.
pub fn source_of<'s>(name: &'s Text, content: &'s Content) -> Source<'s>
    ensures { meaning_of result ≡ content_value name.now content.now }
{
    match content {
        Content::Value(tree) => Source::Tree(tree),
        Content::Copy(count, input) => Source::Loop(name, count, input),
    }
}

/// The source of an output, whose loop has no name.
pub fn output_source<'s>(content: &'s Content) -> Source<'s>
    ensures { meaning_of result ≡ output_content content.now }
{
    match content {
        Content::Value(tree) => Source::Tree(tree),
        Content::Copy(count, input) => Source::Output(count, input),
    }
}
