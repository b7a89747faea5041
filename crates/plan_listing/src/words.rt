// The texts of the types of outputs.
ghost use Rattle.std.specs.Prelude.{◌≡◌, ◌++◌, ◌∷◌, [], IfOk, chars};
ghost use Rattle.plan_cells.specs.Sites.{type_text};
ghost use Rattle.plan_listing.specs.Words.{first_texts, type_texts, text_place};

use arm_value::{OutOfMemory, Text};
use std::alloc::Global;
use template_parts::{ValueType, run_out};

/// The texts of all types, so that each is at hand to be lent.
#[derive(Drop)]
pub struct TypeTexts {
    texts: Vec<Text>,
    ghost are_types: { texts.items ≡ type_texts },
}

// The texts with one more at their end.
fn with_text(alloc: Global, mut texts: Vec<Text>, text: &str) -> Result<Vec<Text>, OutOfMemory>
    ensures { IfOk result (λ t. t.items ≡ texts.items ++ chars text.now ∷ []) }
{
    match Text::of(alloc, text) {
        Ok(text) => match texts.push(text) {
            Ok(()) => Ok(texts),
            Err(refused) => run_out((texts, refused)),
        },
        Err(_) => run_out(texts),
    }
}

// The place of the text of a type.
fn place_of(kind: ValueType) -> usize
    ensures { result ≡ text_place kind }
{
    match kind {
        ValueType::String => 0,
        ValueType::SecureString => 1,
        ValueType::Int => 2,
        ValueType::Bool => 3,
        ValueType::Object => 4,
        ValueType::SecureObject => 5,
        ValueType::Array => 6,
    }
}

// The texts of the first types.
fn first_texts(alloc: Global) -> Result<Vec<Text>, OutOfMemory>
    ensures { IfOk result (λ t. t.items ≡ first_texts) }
{
    let texts = with_text(alloc, Vec::new(alloc), "string")?;
    let texts = with_text(alloc, texts, "securestring")?;
    let texts = with_text(alloc, texts, "int")?;
    with_text(alloc, texts, "bool")
}

impl TypeTexts {
    /// The texts of all types.
    pub fn new(alloc: Global) -> Result<TypeTexts, OutOfMemory> {
        let texts = first_texts(alloc)?;
        let texts = with_text(alloc, texts, "object")?;
        let texts = with_text(alloc, texts, "secureObject")?;
        let texts = with_text(alloc, texts, "array")?;
        Ok(TypeTexts { texts })
    }

    /// The text of a type.
    pub fn of(&self, kind: ValueType) -> &Text
        ensures { result.now ≡ type_text kind }
    {
        &self.texts[place_of(kind)]
    }
}
