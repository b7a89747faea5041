// Reading the values that are given for the parameters of a template.

ghost use Rattle.std.specs.Prelude.{◌≡◌, ◌++◌, ◌∷◌, [], Ok, Err, map, option_map, IfOk};
ghost use Rattle.arm_value.specs.Json.{pairs};
ghost use Rattle.arm_value.specs.Pointer.{step, token};
ghost use Rattle.arm_value.specs.View.{json};
ghost use Rattle.template_parameters.specs.Given.{is_value, value_in, entry_value, new_entry, given_in, given_of};
ghost use Rattle.template_parameters.specs.Given.{given_view, IsAnswerTo};

use arm_value::{Field, Fields, OutOfMemory, Path, Text, Value};
use name_set::NameSet;
use std::alloc::Global;
use template_parts::{Given, GivenValue, TemplateFault, run_out};

// What was read so far: what is given, and its names.
#[derive(Drop)]
struct Progress {
    found: Given,
    names: NameSet,
}

// Whether the name is `value`, in letters of any case.
fn is_value(name: &Text) -> bool
    ensures { result ≡ is_value name.now }
{
    name.equals_ignore_case("value")
}

// The value of the one member, where it is named `value`.
fn value_in(fields: &Fields) -> Option<&Value>
    ensures { option_map (λ v. json v.now) result ≡ value_in (pairs fields.now) }
{
    match fields.as_slice() {
        [] => None,
        [field] => if is_value(&field.name) {
            Some(&field.value)
        } else {
            None
        },
        [_, _, ..] => None,
    }
}

// The value of an object that has one member, named `value`.
fn entry_value(value: &Value) -> Option<&Value>
    ensures { option_map (λ v. json v.now) result ≡ entry_value (json value.now) }
{
    match value {
        Value::Object(fields) => value_in(fields),
        _ => None,
    }
}

// The value that a member gives, where its name is new.
fn new_entry<'a>(
    alloc: Global,
    names: &NameSet,
    field: &'a Field,
) -> Result<Option<&'a Value>, OutOfMemory>
    ensures { IfOk result (λ o. option_map (λ v. json v.now) o
        ≡ new_entry names.now field.now.name (json field.now.value)) }
{
    if names.has(alloc, &field.name)? {
        return Ok(None);
    }
    Ok(entry_value(&field.value))
}

// The list with one more at its end.
fn with_given(mut found: Given, given: GivenValue) -> Result<Given, OutOfMemory>
    ensures { IfOk result (λ g. g ≡ found ++ given ∷ []) }
{
    match found.push(given) {
        Ok(()) => Ok(found),
        Err(_) => run_out(found),
    }
}

// The name with the value.
fn given_value(alloc: Global, name: &Text, value: &Value) -> Result<GivenValue, OutOfMemory>
    ensures { IfOk result (λ g. given_view g ≡ (name.now, json value.now)) }
{
    let name = name.copy(alloc)?;
    match value.copy(alloc) {
        Ok(value) => Ok(GivenValue { name, value }),
        Err(_) => run_out(name),
    }
}

// What was read, with one name and its value more.
fn with_entry(
    alloc: Global,
    progress: Progress,
    name: &Text,
    value: &Value,
) -> Result<Progress, OutOfMemory>
    ensures names { IfOk result (λ p. p.names ≡ progress.names ++ name.now ∷ []) }
    ensures found { IfOk result (λ p. map given_view p.found
        ≡ map given_view progress.found ++ (name.now, json value.now) ∷ []) }
{
    match given_value(alloc, name, value) {
        Ok(given) => {
            let found = with_given(progress.found, given)?;
            match progress.names.with(alloc, name) {
                Ok(names) => Ok(Progress { found, names }),
                Err(_) => run_out(found),
            }
        }
        Err(_) => run_out(progress),
    }
}

// The member of this name is refused.
fn refused(alloc: Global, _progress: Progress, name: &Text) -> Result<Given, TemplateFault>
    ensures { IsAnswerTo (Err (step (token name.now))) result }
{
    let path = Path::root(alloc).member(alloc, name.as_str())?;
    Err(TemplateFault::WrongForm(path))
}

// Out of memory.
fn stopped(_progress: Progress) -> Result<Given, TemplateFault>
    ensures { (o : _) → IsAnswerTo o result }
{
    Err(TemplateFault::OutOfMemory)
}

// What the members give.
fn read_members(alloc: Global, fields: &Fields) -> Result<Given, TemplateFault>
    ensures { IsAnswerTo (given_in [] (pairs fields.now)) result }
{
    let mut progress = Progress {
        found: Given::new(alloc),
        names: NameSet::new(alloc),
    };
    for field in fields.as_slice() {
        match new_entry(alloc, &progress.names, field) {
            Ok(Some(value)) => match with_entry(alloc, progress, &field.name, value) {
                Ok(next) => progress = next,
                Err(_) => return Err(TemplateFault::OutOfMemory),
            },
            Ok(None) => return refused(alloc, progress, &field.name),
            Err(_) => return stopped(progress),
        }
    }
    Ok(progress.found)
}

/// Reads what is given for the parameters of a template: an object whose members are named by parameters, each an
/// object with one member, named `value` in letters of any case.
///
/// # Errors
///
/// `WrongForm` exactly where the value has another form, or where two names are equal after ASCII case folding. The
/// path is that of the first member, in byte order of names, of another form or with the name of an earlier one.
pub fn read_given(alloc: Global, value: &Value) -> Result<Given, TemplateFault>
    ensures { IsAnswerTo (given_of (json value.now)) result }
{
    match value {
        Value::Object(fields) => read_members(alloc, fields),
        _ => Err(TemplateFault::WrongForm(Path::root(alloc))),
    }
}
