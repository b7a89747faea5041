// What the declarations of a file become whose variables and parameters have names.
ghost use Rattle.std.specs.Prelude.{◌≡◌, [], option_map, slice_get};
ghost use Rattle.bicep_meaning.specs.Meaning.{file_of};
ghost use Rattle.bicep_emission.specs.Emitted.{index_of as index_tree};
ghost use Rattle.emitted_parts.specs.Built.{Is};
ghost use Rattle.emitted_expressions.specs.Sight.{frames_of};
ghost use Rattle.emission_tests.specs.Sample.{sight_of, is_second};

use arm_expr::Expr;
use arm_value::{OutOfMemory, Text};
use bicep_resolved::Target;
use emitted_expressions::{Declarations, Turn};
use emitted_parts::calls::{call_one, call_two};
use emitted_parts::copies::copied;
use emitted_parts::literals::{no_value, text, word};
use emitted_parts::states::properties;
use std::alloc::Global;

/// The names of the symbols of a file, and of the outputs of the second file of its program.
#[derive(Drop)]
pub struct Sample {
    /// The names by the numbers of the symbols.
    pub names: Vec<Text>,
    /// The names of the outputs.
    pub outputs: Vec<Text>,
}

// Whether a module is of the second file.
fn is_of_second(target: Target) -> bool
    ensures { result ≡ is_second (file_of target) }
{
    match target {
        Target::Resource(_) | Target::ResourceLoop(_) => false,
        Target::Module(_, file) | Target::ModuleLoop(_, file) => file == 1,
    }
}

// The text at a place.
fn text_at(texts: &[Text], number: usize) -> Option<&Text>
    ensures { option_map (λ t. t.now) result ≡ slice_get texts.now number }
{
    texts.get(number)
}

fn empty(alloc: Global) -> Text
    ensures { result ≡ [] }
{
    Text::from_string(String::new(alloc))
}

fn index_of(alloc: Global, turns: &[Turn]) -> Result<Expr, OutOfMemory>
    ensures { Is (index_tree (slice_get (frames_of turns.now) 0)) result }
{
    match turns.get(0) {
        Some(turn) => copied(alloc, &turn.index),
        None => no_value(alloc),
    }
}

impl Declarations for Sample {
    ghost sight = { sight_of };

    fn symbol<'a>(&'a self, number: usize) -> Option<&'a Text> {
        self.names.get(number)
    }

    fn variable(&self, alloc: Global, number: usize) -> Result<Expr, OutOfMemory> {
        if number == 7 {
            return properties(alloc, word(alloc, "T.N/s"), &empty(alloc));
        }
        match self.names.get(number) {
            Some(name) => call_one(alloc, "variables", text(alloc, name)),
            None => no_value(alloc),
        }
    }

    fn items(&self, alloc: Global, _number: usize) -> Result<Expr, OutOfMemory> {
        call_one(alloc, "parameters", word(alloc, "xs"))
    }

    fn name(&self, alloc: Global, _number: usize, turns: &[Turn]) -> Result<Expr, OutOfMemory> {
        match turns.get(0) {
            Some(turn) => copied(alloc, &turn.item),
            None => no_value(alloc),
        }
    }

    fn id(&self, alloc: Global, _number: usize, turns: &[Turn]) -> Result<Expr, OutOfMemory> {
        call_two(
            alloc,
            "resourceId",
            word(alloc, "T.N/a"),
            index_of(alloc, turns),
        )
    }

    fn kind(&self, alloc: Global, _number: usize) -> Result<Text, OutOfMemory> {
        Ok(Text::from_string(String::new(alloc)))
    }

    fn version(&self, alloc: Global, _number: usize) -> Result<Text, OutOfMemory> {
        Ok(Text::from_string(String::new(alloc)))
    }

    fn output<'a>(&'a self, target: Target, number: usize) -> Option<&'a Text> {
        if is_of_second(target) {
            text_at(self.outputs.as_slice(), number)
        } else {
            None
        }
    }
}
