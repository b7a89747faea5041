// Objects whose members are looked at by their names.

ghost use Rattle.std.specs.Prelude.{◌≡◌, [], Some, map, chars, IfOk};
ghost use Rattle.arm_value.specs.Json.{pairs};
ghost use Rattle.arm_value.specs.View.{json};
ghost use Rattle.template_members.specs.Objects.{faulty_by, member_by, members_fault, object_fault, with_single};

use arm_value::{Field, Fields, OutOfMemory, Text, Value};
use name_set::NameSet;
use std::alloc::Global;
use template_parts::{TemplateFault, run_out};
use template_texts::Sight;
use template_values::order::{Faulty, decided, missing, wrong_form};

/// Which members an object has, by their names, and why the value of one is refused.
pub trait MemberRule {
    ghost use Rattle.std.specs.Prelude.{◌≡◌, ℕ, Bool, List, Option, IfOk};
    ghost use Rattle.arm_value.specs.Json.{Json};
    ghost use Rattle.arm_value.specs.Look.{fold};
    ghost use Rattle.arm_value.specs.View.{json};
    ghost use Rattle.template_parts.specs.declared.fault.TemplateFault.{TemplateFault};
    ghost use Rattle.template_texts.specs.declared.sight.Sight.{Sight};

    /// Whether no two members have this name, in letters of any case.
    ghost single: { Self → List ℕ → Bool };

    /// Why a member of this name with this value is refused.
    ghost fault: { Self → Sight → List ℕ → Json → Option TemplateFault };

    /// Whether no two members have this name, in letters of any case.
    fn is_single(&self, name: &Text) -> bool
        ensures { result ≡ single self.now name.now };

    /// Why the member is refused, with the path from its value on.
    fn fault(
        &self,
        alloc: Global,
        here: &Sight,
        field: &Field,
    ) -> Result<Option<TemplateFault>, OutOfMemory>
        ensures { IfOk result (λ f. f ≡ fault self.now here.now field.now.name (json field.now.value)) };

    /// Of names that are equal but for the case of ASCII letters, no two members have both or neither.
    ghost folds: { (rule : Self) (j k : List ℕ) → fold j ≡ fold k → single rule j ≡ single rule k };
}

// Why the member is refused after members of these names.
fn member_fault<R: MemberRule>(
    alloc: Global,
    rule: &R,
    here: &Sight,
    seen: &NameSet,
    field: &Field,
) -> Result<Option<TemplateFault>, OutOfMemory>
    ensures { IfOk result (λ f. f
        ≡ member_by (R.single rule.now) (R.fault rule.now here.now) seen.now field.now.name (json field.now.value)) }
{
    if rule.is_single(&field.name) && seen.has(alloc, &field.name)? {
        return Ok(Some(wrong_form(alloc)));
    }
    rule.fault(alloc, here, field)
}

// The names with one more, where no two members have it. Others are never looked up.
fn with_single<R: MemberRule>(
    alloc: Global,
    rule: &R,
    seen: NameSet,
    name: &Text,
) -> Result<NameSet, OutOfMemory>
    ensures { IfOk result (λ s. s ≡ with_single (R.single rule.now) seen name.now) }
{
    if rule.is_single(name) {
        seen.with(alloc, name)
    } else {
        Ok(seen)
    }
}

// The member of this name with its fault; the names are dropped.
fn found(
    alloc: Global,
    _seen: NameSet,
    name: &Text,
    fault: TemplateFault,
) -> Result<Option<Faulty>, OutOfMemory>
    ensures { IfOk result (λ f. f ≡ Some (record { name = name.now; fault = fault })) }
{
    match name.copy(alloc) {
        Ok(name) => Ok(Some(Faulty { name, fault })),
        Err(_) => run_out(fault),
    }
}

/// The first member that is refused.
pub fn first_faulty<R: MemberRule>(
    alloc: Global,
    rule: &R,
    here: &Sight,
    fields: &Fields,
) -> Result<Option<Faulty>, OutOfMemory>
    ensures { IfOk result (λ f. f
        ≡ faulty_by (R.single rule.now) (R.fault rule.now here.now) [] (pairs fields.now)) }
{
    let mut seen = NameSet::new(alloc);
    for field in fields.as_slice() {
        match member_fault(alloc, rule, here, &seen, field) {
            Ok(None) => seen = with_single(alloc, rule, seen, &field.name)?,
            Ok(Some(fault)) => return found(alloc, seen, &field.name, fault),
            Err(_) => return run_out(seen),
        }
    }
    Ok(None)
}

/// Why members are refused, among which these must be, in byte order, and of which the rule says which there may be.
pub fn members_fault<R: MemberRule>(
    alloc: Global,
    rule: &R,
    here: &Sight,
    required: &[&str],
    fields: &Fields,
) -> Result<Option<TemplateFault>, OutOfMemory>
    ensures { IfOk result (λ f. f ≡ members_fault (map (λ n. chars n.now) required.now)
        (R.single rule.now) (R.fault rule.now here.now) (pairs fields.now)) }
{
    let faulty = first_faulty(alloc, rule, here, fields)?;
    decided(alloc, missing(required, fields), faulty)
}

/// Why a value is refused that must be an object of such members.
pub fn object_fault<R: MemberRule>(
    alloc: Global,
    rule: &R,
    here: &Sight,
    required: &[&str],
    value: &Value,
) -> Result<Option<TemplateFault>, OutOfMemory>
    ensures { IfOk result (λ f. f ≡ object_fault (map (λ n. chars n.now) required.now)
        (R.single rule.now) (R.fault rule.now here.now) (json value.now)) }
{
    match value {
        Value::Object(fields) => members_fault(alloc, rule, here, required, fields),
        _ => Ok(Some(wrong_form(alloc))),
    }
}
