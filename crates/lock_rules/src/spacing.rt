// Names in a row.

ghost use Rattle.std.specs.Prelude.{◌≡◌, ◌∷◌, ◌++◌, encode_utf8_all, string_bytes, IfOk, OnOk};
ghost use Rattle.lock_rules.specs.Spaced.{spaced, after_spaces};

use arm_value::{OutOfMemory, Text};
use std::alloc::Global;

// Adds the names, each after a space.
fn add_after_spaces(text: &mut String, names: &[Text]) -> Result<(), OutOfMemory>
    ensures { OnOk result (string_bytes text.new
        ≡ string_bytes text.old ++ encode_utf8_all (after_spaces names.now)) }
{
    for name in names {
        add_after_space(text, name)?;
    }
    Ok(())
}

// Adds a space and the name.
fn add_after_space(text: &mut String, name: &Text) -> Result<(), OutOfMemory>
    ensures { OnOk result (string_bytes text.new
        ≡ string_bytes text.old ++ encode_utf8_all (32 ∷ name.now)) }
{
    text.push_str(" ")?;
    text.push_str(name.as_str())?;
    Ok(())
}

// The first name, and the others with a space before each.
fn spaced_from(alloc: Global, first: &Text, rest: &[Text]) -> Result<Text, OutOfMemory>
    ensures { IfOk result (λ t. t ≡ first.now ++ after_spaces rest.now) }
{
    let mut text = String::from_str(alloc, first.as_str())?;
    add_after_spaces(&mut text, rest)?;
    Ok(Text::from_string(text))
}

/// The names with a space between.
pub(crate) fn spaced(alloc: Global, names: &[Text]) -> Result<Text, OutOfMemory>
    ensures { IfOk result (λ t. t ≡ spaced names.now) }
{
    match names.get(0) {
        Some(first) => spaced_from(alloc, first, &names[1..]),
        None => Text::of(alloc, ""),
    }
}
