// Whether anything refuses the plan of a sheet that has all values that a plan needs.
ghost use Rattle.std.specs.Prelude.{List, IfOk, IfErr};
ghost use Rattle.arm_ids.specs.Held.{HeldResource};
ghost use Rattle.template_parts.specs.declared.mode.Mode.{Mode};
ghost use Rattle.plan_table.specs.Whole.{whole_of};
ghost use Rattle.plan_tasks.specs.Start.{start_of, IsStartTable};
ghost use Rattle.plan_telling.specs.Symbols.{IsComplete};
ghost use Rattle.plan_faults.specs.Faults.{IsFault};
ghost use Rattle.fault_exactness.specs.Exact.{HaveOwnKeys, NoneExtra, NameOneKey};

use dependency_faults::{check_arguments, check_dependencies};
use key_faults::check_keys;
use plan_faults::PlanFault;
use plan_telling::register::Register;
use std::alloc::Global;

/// Fails with a reason why there is no plan, if there is one of these: two instances have one key, a nested deployment
/// gives what its template has no parameter for, or an element of `dependsOn` names nothing or two keys.
pub fn check_sheet(alloc: Global, register: &Register) -> Result<(), PlanFault>
    requires complete { IsComplete register.now }
    requires table { IsStartTable register.now.table }
    ensures keys { IfOk result (λ _. HaveOwnKeys (whole_of register.now.table) (start_of register.now.table)) }
    ensures none_extra { IfOk result (λ _. NoneExtra (whole_of register.now.table) (start_of register.now.table)) }
    ensures names { IfOk result (λ _. NameOneKey (whole_of register.now.table) (start_of register.now.table)) }
    ensures fault { IfErr result (λ f. (mode : Mode) (held : List HeldResource)
        → IsFault (whole_of register.now.table) mode held f) }
{
    check_keys(alloc, &register.table)?;
    check_arguments(alloc, &register.table)?;
    check_dependencies(alloc, register)
}
