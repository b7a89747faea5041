//! Which declarations of a file are those of resources of its template.
ghost use Rattle.std.specs.Prelude.{◌≡◌, Some, IfOk, map};
ghost use Rattle.bicep_declared.specs.View.{declared_tree};
ghost use Rattle.template_numbers.specs.Listed as spec;

use arm_value::OutOfMemory;
use bicep_declared::Declared;
use std::alloc::Global;
use template_parts::Form;

// Whether templates have existing resources.
fn has_existing(form: Form) -> bool
    ensures { result ≡ spec.has_existing form }
{
    match form {
        Form::One => false,
        Form::Two => true,
    }
}

// Whether a declaration is that of a resource of the template, or of a module.
fn is_listed(form: Form, declared: &Declared) -> bool
    ensures { result ≡ spec.is_listed_by form (Some (declared_tree declared.now)) }
{
    match declared {
        Declared::Resource(_, _, existing, _) => {
            if *existing { has_existing(form) } else { true }
        }
        Declared::Module(_, _) => true,
        Declared::Parameter(_, _) | Declared::ParameterWith(_, _, _) | Declared::Variable(_, _) => {
            false
        }
    }
}

// The numbers with that of a declaration, where it is that of a resource of the template.
fn with_listed(
    all: Vec<usize>,
    form: Form,
    number: usize,
    declared: &Declared,
) -> Result<Vec<usize>, OutOfMemory>
    ensures { IfOk result (λ ns. ns.items
        ≡ spec.with_number (spec.is_listed_by form (Some (declared_tree declared.now))) all.items number) }
{
    let mut all = all;
    if is_listed(form, declared) {
        all.push(number)?;
        Ok(all)
    } else {
        Ok(all)
    }
}

/// The numbers of the declarations that are those of resources of the template, in the order of the source.
pub(crate) fn listed(
    alloc: Global,
    form: Form,
    declarations: &[Declared],
) -> Result<Vec<usize>, OutOfMemory>
    ensures { IfOk result (λ ns. ns.items ≡ spec.listed form (map declared_tree declarations.now)) }
{
    let mut all = Vec::new(alloc);
    for (number, declared) in declarations.iter().enumerate() {
        all = with_listed(all, form, number, declared)?;
    }
    Ok(all)
}
