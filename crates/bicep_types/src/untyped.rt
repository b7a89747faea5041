// Faults that are found before any type is looked at.
ghost use Rattle.std.specs.Prelude.{◌≡◌};
ghost use Rattle.bicep_types.specs.Faults.{as_fault};

use crate::fault::CheckFault;
use bicep_checks::CheckFault as Untyped;

// The same fault, where no type is looked at.
pub(crate) fn fault_of(fault: Untyped) -> CheckFault
    ensures { result ≡ as_fault fault }
{
    match fault {
        Untyped::UnknownName(file, at) => CheckFault::UnknownName(file, at),
        Untyped::NameTwice(file, at) => CheckFault::NameTwice(file, at),
        Untyped::SymbolCycle(file, names) => CheckFault::SymbolCycle(file, names),
        Untyped::BadDecorator(file, at) => CheckFault::BadDecorator(file, at),
        Untyped::BadForPlace(file, at) => CheckFault::BadForPlace(file, at),
        Untyped::MissingModuleParameter(file, at) => CheckFault::MissingModuleParameter(file, at),
        Untyped::ExtraModuleParameter(file, at) => CheckFault::ExtraModuleParameter(file, at),
        Untyped::OutOfMemory => CheckFault::OutOfMemory,
    }
}
