// What gives a cell its value.
ghost use Rattle.arm_value.specs.View.{json};
ghost use Rattle.reading.specs.Reading.{through};
ghost use Rattle.reading.specs.Knowledge.{told};
ghost use Rattle.arm_env.specs.Answer.{Gives};
ghost use Rattle.arm_env.specs.Sight.{here};
ghost use Rattle.arm_eval.specs.Titles.{titled};
ghost use Rattle.arm_eval.specs.Words.{titles_in};
ghost use Rattle.plan_telling.specs.Sources.{meaning_of};

use arm_env::entries::{Around, Entries};
use arm_env::stop::Stop;
use arm_eval::outputs::content_value;
use arm_eval::{
    Content, Titles, looped_value, titled_content, titled_looped, titled_value, tree_value,
};
use arm_value::{Text, Value};
use std::alloc::Global;

/// What gives a cell its value.
#[derive(Clone, Copy, Drop)]
pub enum Source<'s> {
    /// This tree.
    Tree(&'s Value),
    /// A loop of this name, with this count and this input.
    Loop(&'s Text, &'s Value, &'s Value),
    /// The loop of an output, with this count and this input.
    Output(&'s Value, &'s Value),
}

/// The value of a source by what is known.
pub fn value_by<K: Entries>(
    alloc: Global,
    entries: &K,
    around: &Around,
    source: &Source,
) -> Result<Value, Stop>
    ensures { Gives json result
        (told (K.known entries.now) (meaning_of source.now (here around.now))) }
{
    match *source {
        Source::Tree(tree) => tree_value(alloc, entries, around, tree),
        Source::Loop(name, count, input) => {
            looped_value(alloc, entries, around, name, count, input)
        }
        Source::Output(count, input) => {
            content_value(alloc, entries, around, &Content::Copy { count, input })
        }
    }
}

/// The value of a source by what is known, where texts of `reference` are symbolic names.
pub fn titled_by<K: Entries>(
    alloc: Global,
    entries: &K,
    titles: &Titles,
    around: &Around,
    source: &Source,
) -> Result<Value, Stop>
    ensures { Gives json result (told (K.known entries.now)
        (through (titled (titles_in titles.now) around.now.place.now)
        (meaning_of source.now (here around.now)))) }
{
    match *source {
        Source::Tree(tree) => titled_value(alloc, entries, titles, around, tree),
        Source::Loop(name, count, input) => {
            titled_looped(alloc, entries, titles, around, name, count, input)
        }
        Source::Output(count, input) => {
            titled_content(
                alloc,
                entries,
                titles,
                around,
                &Content::Copy { count, input },
            )
        }
    }
}
