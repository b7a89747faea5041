// Why the variables of a template are refused.

ghost use Rattle.std.specs.Prelude.{◌≡◌, IfOk, refl};
ghost use Rattle.arm_value.specs.Json.{keys};
ghost use Rattle.arm_value.specs.View.{json};
ghost use Rattle.template_members.specs.Variables.{variables_fault};

use crate::loops::{Owner, loops_fault};
use crate::object::{MemberRule, members_fault};
use arm_value::{Field, Fields, OutOfMemory, Text, Value};
use name_set::NameSet;
use std::alloc::Global;
use template_parts::TemplateFault;
use template_texts::{Place, Sight};
use template_values::order::wrong_form;
use template_values::{is_copy, value_fault};

// Which members the variables of a template are, of which all are these fields.
#[derive(Drop)]
struct VariablesRule<'a> {
    place: Place,
    fields: &'a Fields,
}

/// The names of the members.
pub fn names_of(alloc: Global, fields: &Fields) -> Result<NameSet, OutOfMemory>
    ensures { IfOk result (λ names. names ≡ keys fields.now) }
{
    let mut names = NameSet::new(alloc);
    for field in fields.as_slice() {
        names = names.with(alloc, &field.name)?;
    }
    Ok(names)
}

impl<'a> MemberRule for VariablesRule<'a> {
    ghost use Rattle.arm_value.specs.Json.{keys};
    ghost use Rattle.template_members.specs.Objects.{every};
    ghost use Rattle.template_members.specs.Variables.{variable_member};

    ghost single = { λ rule. every };

    ghost folds = { λ rule j k e. refl };

    ghost fault = { λ rule here k j. variable_member here rule.place (keys rule.fields.now) k j };

    fn is_single(&self, _name: &Text) -> bool {
        true
    }

    fn fault(
        &self,
        alloc: Global,
        here: &Sight,
        field: &Field,
    ) -> Result<Option<TemplateFault>, OutOfMemory> {
        if is_copy(&field.name) {
            let names = names_of(alloc, self.fields)?;
            return loops_fault(
                alloc,
                here,
                self.place,
                Owner::Variables,
                names,
                &field.value,
            );
        }
        value_fault(alloc, here, self.place, &field.value)
    }
}

/// Why the variables of a template are refused: none of two has one name in letters of any case. A member `copy`,
/// spelled exactly so, is an array of loops, each of which gives a variable of a name that is new.
pub fn variables_fault(
    alloc: Global,
    here: &Sight,
    place: Place,
    value: &Value,
) -> Result<Option<TemplateFault>, OutOfMemory>
    ensures { IfOk result (λ f. f ≡ variables_fault here.now place (json value.now)) }
{
    match value {
        Value::Object(fields) => {
            members_fault(alloc, &VariablesRule { place, fields }, here, &[], fields)
        }
        _ => Ok(Some(wrong_form(alloc))),
    }
}
