// In which order faults decide, and the paths of faults.

ghost use Rattle.std.specs.Prelude.{◌≡◌, ◌++◌, [], Some, None, map, chars, option_map, IfOk};
ghost use Rattle.arm_value.specs.Json.{key_cmp, pairs};
ghost use Rattle.template_parts.specs.declared.fault.TemplateFault.TheVariants.{WrongForm};
ghost use Rattle.template_values.specs.Order.{below, to_member, to_item, has, missing, is_before, lacking, decided};

use arm_value::{Fields, OutOfMemory, Path, Text};
use std::alloc::Global;
use std::cmp::Ordering;
use template_parts::{TemplateFault, run_out};

/// A fault, and the name of the member of an object that has it.
#[derive(Drop)]
pub struct Faulty {
    /// The name, as it is spelled.
    pub name: Text,
    /// The fault, whose path begins at the member.
    pub fault: TemplateFault,
}

// The path that begins with these steps.
fn joined(alloc: Global, steps: &Path, path: Path) -> Result<Path, OutOfMemory>
    ensures { IfOk result (λ p. p ≡ steps.now ++ path) }
{
    steps.join(alloc, &path)
}

/// The fault of a part, as a fault of what the part is in.
pub fn below(
    alloc: Global,
    steps: &Path,
    fault: TemplateFault,
) -> Result<TemplateFault, OutOfMemory>
    ensures { IfOk result (λ f. f ≡ below steps.now fault) }
{
    match fault {
        TemplateFault::Missing(path) => Ok(TemplateFault::Missing(joined(alloc, steps, path)?)),
        TemplateFault::WrongForm(path) => Ok(TemplateFault::WrongForm(joined(alloc, steps, path)?)),
        TemplateFault::Limit(which, number) => Ok(TemplateFault::Limit(which, number)),
        TemplateFault::BadExpression(path) => {
            Ok(TemplateFault::BadExpression(joined(alloc, steps, path)?))
        }
        TemplateFault::ReferenceInVariable(path) => Ok(TemplateFault::ReferenceInVariable(joined(
            alloc, steps, path,
        )?)),
        TemplateFault::OutOfMemory => Ok(TemplateFault::OutOfMemory),
    }
}

/// The fault of the member of this name, as a fault of the object.
pub fn at_member(
    alloc: Global,
    name: &Text,
    fault: TemplateFault,
) -> Result<TemplateFault, OutOfMemory>
    ensures { IfOk result (λ f. f ≡ below (to_member name.now) fault) }
{
    match Path::root(alloc).member(alloc, name.as_str()) {
        Ok(steps) => below(alloc, &steps, fault),
        Err(_) => run_out(fault),
    }
}

/// The fault of the item at this place, as a fault of the array.
pub fn at_item(
    alloc: Global,
    place: usize,
    fault: TemplateFault,
) -> Result<TemplateFault, OutOfMemory>
    ensures { IfOk result (λ f. f ≡ below (to_item place) fault) }
{
    match Path::root(alloc).item(alloc, place) {
        Ok(steps) => below(alloc, &steps, fault),
        Err(_) => run_out(fault),
    }
}

/// The value is of another form than it must be.
pub fn wrong_form(alloc: Global) -> TemplateFault
    ensures { result ≡ WrongForm [] }
{
    TemplateFault::WrongForm(Path::root(alloc))
}

/// Whether a member has the name, in letters of any case.
pub fn has(fields: &Fields, name: &str) -> bool
    ensures { result ≡ has (chars name.now) (pairs fields.now) }
{
    for field in fields.as_slice() {
        if field.name.equals_ignore_case(name) {
            return true;
        }
    }
    false
}

/// The first of these names, which are in byte order, that no member has in letters of any case.
pub fn missing<'a>(names: &[&'a str], fields: &Fields) -> Option<&'a str>
    ensures { option_map (λ n. chars n.now) result
        ≡ missing (map (λ n. chars n.now) names.now) (pairs fields.now) }
{
    for name in names {
        if !has(fields, name) {
            return Some(name);
        }
    }
    None
}

// How the first name compares with the second, by their bytes.
fn compare(name: &str, other: &Text) -> Ordering
    ensures { result ≡ key_cmp (chars name.now) other.now }
{
    name.cmp(other.as_str())
}

/// Whether the first name comes before the second in byte order.
pub fn is_before(name: &str, other: &Text) -> bool
    ensures { result ≡ is_before (chars name.now) other.now }
{
    match compare(name, other) {
        Ordering::Less => true,
        Ordering::Equal => false,
        Ordering::Greater => false,
    }
}

// The member of this name is missing.
fn lacking(alloc: Global, name: &str) -> Result<TemplateFault, OutOfMemory>
    ensures { IfOk result (λ f. f ≡ lacking (chars name.now)) }
{
    Ok(TemplateFault::Missing(Path::root(alloc).member(alloc, name)?))
}

// The fault of the member, as a fault of the object.
fn placed(alloc: Global, faulty: Faulty) -> Result<TemplateFault, OutOfMemory>
    ensures { IfOk result (λ f. f ≡ below (to_member faulty.name) faulty.fault) }
{
    let fault = faulty.fault;
    let name = faulty.name;
    at_member(alloc, &name, fault)
}

// The member that is missing, or the one that has a fault, whichever name comes first.
fn first_decided(alloc: Global, name: &str, faulty: Faulty) -> Result<TemplateFault, OutOfMemory>
    ensures { IfOk result (λ f. Some f ≡ decided (Some (chars name.now)) (Some faulty)) }
{
    if is_before(name, &faulty.name) {
        return lacking(alloc, name);
    }
    placed(alloc, faulty)
}

/// The fault of an object, by the first member that is missing and the first that has a fault.
pub fn decided(
    alloc: Global,
    absent: Option<&str>,
    faulty: Option<Faulty>,
) -> Result<Option<TemplateFault>, OutOfMemory>
    ensures { IfOk result (λ f. f ≡ decided (option_map (λ n. chars n.now) absent.entry) faulty) }
{
    match (absent, faulty) {
        (None, None) => Ok(None),
        (None, Some(faulty)) => Ok(Some(placed(alloc, faulty)?)),
        (Some(name), None) => Ok(Some(lacking(alloc, name)?)),
        (Some(name), Some(faulty)) => Ok(Some(first_decided(alloc, name, faulty)?)),
    }
}
