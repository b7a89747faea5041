// Names and paths in a row.

ghost use Rattle.std.specs.Prelude.{◌≡◌, ◌∷◌, ◌++◌, encode_utf8_all, string_bytes, IfOk, OnOk};
ghost use Rattle.lock_rules.specs.Spaced.{spaced, after_spaces};
ghost use Rattle.command_refusals.specs.Sources.{of_names};

use arm_value::{OutOfMemory, Path, Text};
use command_reports::{Report, refusal_report};
use std::alloc::Global;

// Adds a space and the text.
fn add_after_space(text: &mut String, added: &str) -> Result<(), OutOfMemory>
    ensures { OnOk result (string_bytes text.new ≡ string_bytes text.old ++ 32 ∷ added.now) }
{
    text.push_str(" ")?;
    text.push_str(added)?;
    Ok(())
}

// Adds a space and the name.
fn add_name(text: &mut String, name: &Text) -> Result<(), OutOfMemory>
    ensures { OnOk result (string_bytes text.new
        ≡ string_bytes text.old ++ encode_utf8_all (32 ∷ name.now)) }
{
    add_after_space(text, name.as_str())
}

// Adds a space and the path.
fn add_path(text: &mut String, path: &Path) -> Result<(), OutOfMemory>
    ensures { OnOk result (string_bytes text.new
        ≡ string_bytes text.old ++ encode_utf8_all (32 ∷ path.now)) }
{
    add_after_space(text, path.as_str())
}

// Adds the names, each after a space.
fn add_names(text: &mut String, names: &[Text]) -> Result<(), OutOfMemory>
    ensures { OnOk result (string_bytes text.new
        ≡ string_bytes text.old ++ encode_utf8_all (after_spaces names.now)) }
{
    for name in names {
        add_name(text, name)?;
    }
    Ok(())
}

// Adds the paths, each after a space.
fn add_paths(text: &mut String, paths: &[Path]) -> Result<(), OutOfMemory>
    ensures { OnOk result (string_bytes text.new
        ≡ string_bytes text.old ++ encode_utf8_all (after_spaces paths.now)) }
{
    for path in paths {
        add_path(text, path)?;
    }
    Ok(())
}

// The first name, and the others with a space before each.
fn from_first(alloc: Global, first: &Text, rest: &[Text]) -> Result<String, OutOfMemory>
    ensures { IfOk result (λ t. string_bytes t ≡ encode_utf8_all (first.now ++ after_spaces rest.now)) }
{
    let mut text = String::from_str(alloc, first.as_str())?;
    add_names(&mut text, rest)?;
    Ok(text)
}

// The names with a space between.
fn in_row(alloc: Global, names: &[Text]) -> Result<String, OutOfMemory>
    ensures { IfOk result (λ t. string_bytes t ≡ encode_utf8_all (spaced names.now)) }
{
    match names.get(0) {
        Some(first) => from_first(alloc, first, &names[1..]),
        None => Ok(String::new(alloc)),
    }
}

/// A refusal with names in a row.
pub(crate) fn of_names(alloc: Global, code: &str, names: &[Text]) -> Result<Report, OutOfMemory>
    ensures { IfOk result (λ r. r ≡ of_names code.now names.now) }
{
    let detail = in_row(alloc, names)?;
    refusal_report(alloc, code, detail.as_str())
}

/// The paths, each after a space.
pub(crate) fn paths_text(alloc: Global, paths: &[Path]) -> Result<String, OutOfMemory>
    ensures { IfOk result (λ t. string_bytes t ≡ encode_utf8_all (after_spaces paths.now)) }
{
    let mut text = String::new(alloc);
    add_paths(&mut text, paths)?;
    Ok(text)
}
