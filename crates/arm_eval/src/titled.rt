// The values of trees, expressions, loops and outputs of a template of the second form, where texts
// of `reference` are symbolic names.
ghost use Rattle.arm_expr.specs.View.{tree_of};
ghost use Rattle.expression_values.specs.Meaning.{value};
ghost use Rattle.arm_value.specs.View.{json};
ghost use Rattle.reading.specs.Reading.{through};
ghost use Rattle.reading.specs.Knowledge.{told};
ghost use Rattle.arm_env.specs.Answer.{Gives};
ghost use Rattle.arm_env.specs.Sight.{here};
ghost use Rattle.arm_eval.specs.Looped.{looped};
ghost use Rattle.arm_eval.specs.Outputs.{content_value};
ghost use Rattle.arm_eval.specs.Titles.{titled};
ghost use Rattle.arm_eval.specs.Trees as trees;
ghost use Rattle.arm_eval.specs.Words.{content_of, titles_in};

use crate::looped::looped_value;
use crate::outputs::{Content, content_value};
use crate::titles::{Titled, Titles, resolved};
use crate::tree::tree_value;
use arm_env::entries::{Around, Entries};
use arm_env::stop::Stop;
use arm_expr::Expr;
use arm_value::{Text, Value};
use expression_values::value_of;
use std::alloc::Global;

/// The value of a tree of a template of the second form: a text of `reference` that is no id is a
/// symbolic name, and stands for the key of its type and the value of its title in the place. A
/// title is read with one main loop of the index where its symbol is looped, before the loops around
/// the template instance; in it a text is an id alone. The answers are those of `tree_value`.
pub fn titled_value<K: Entries>(
    alloc: Global,
    entries: &K,
    titles: &Titles,
    around: &Around,
    tree: &Value,
) -> Result<Value, Stop>
    ensures { Gives json result (told (K.known entries.now)
        (through (titled (titles_in titles.now) around.now.place.now)
        (trees.tree_value (json tree.now) (here around.now)))) }
{
    let place = around.place;
    let titled = Titled {
        entries,
        titles,
        place,
    };
    let found = tree_value(alloc, &titled, around, tree);
    resolved(alloc, entries, titles, place, found)
}

/// The value of an expression of a template of the second form, as `titled_value` has that of a
/// tree.
pub fn titled_value_of<K: Entries>(
    alloc: Global,
    entries: &K,
    titles: &Titles,
    around: &Around,
    e: &Expr,
) -> Result<Value, Stop>
    ensures { Gives json result (told (K.known entries.now)
        (through (titled (titles_in titles.now) around.now.place.now)
        (value (here around.now) (tree_of e.now)))) }
{
    let place = around.place;
    let titled = Titled {
        entries,
        titles,
        place,
    };
    let found = value_of(alloc, &titled, around, e);
    resolved(alloc, entries, titles, place, found)
}

/// The array of a loop of a name in a template of the second form, as `titled_value` has the value
/// of a tree. The answers are those of `looped_value`.
pub fn titled_looped<K: Entries>(
    alloc: Global,
    entries: &K,
    titles: &Titles,
    around: &Around,
    name: &Text,
    count: &Value,
    input: &Value,
) -> Result<Value, Stop>
    ensures { Gives json result (told (K.known entries.now)
        (through (titled (titles_in titles.now) around.now.place.now)
        (looped name.now (json count.now) (json input.now) (here around.now)))) }
{
    let place = around.place;
    let titled = Titled {
        entries,
        titles,
        place,
    };
    let found = looped_value(alloc, &titled, around, name, count, input);
    resolved(alloc, entries, titles, place, found)
}

/// The value of an output of a template of the second form, where the output is there, as
/// `titled_value` has that of a tree. The answers are those of `outputs::content_value`.
pub fn titled_content<K: Entries>(
    alloc: Global,
    entries: &K,
    titles: &Titles,
    around: &Around,
    content: &Content,
) -> Result<Value, Stop>
    ensures { Gives json result (told (K.known entries.now)
        (through (titled (titles_in titles.now) around.now.place.now)
        (content_value (content_of content.now) (here around.now)))) }
{
    let place = around.place;
    let titled = Titled {
        entries,
        titles,
        place,
    };
    let found = content_value(alloc, &titled, around, content);
    resolved(alloc, entries, titles, place, found)
}
