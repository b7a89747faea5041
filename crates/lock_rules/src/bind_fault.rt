// Why a value does not suit a parameter, in words.

ghost use Rattle.std.specs.Prelude.{◌≡◌, chars, IfOk, option_map};
ghost use Rattle.lock_rules.specs.BindFaults.{reason_of, name_of, fault_text};

use crate::parts::joined;
use arm_value::{OutOfMemory, Text};
use std::alloc::Global;
use template_parts::BindFault;

// The word for why the parameter is refused.
fn reason_of(fault: &BindFault) -> &'static str
    ensures { chars result.now ≡ reason_of fault.now }
{
    match fault {
        BindFault::ExtraParameter(_) => "ExtraParameter",
        BindFault::MissingParameter(_) => "MissingParameter",
        BindFault::WrongType(_) => "WrongType",
        BindFault::NotAllowed(_) => "NotAllowed",
        BindFault::OutOfBounds(_) => "OutOfBounds",
        BindFault::OutOfMemory => "OutOfMemory",
    }
}

// The name of the parameter.
fn name_of(fault: &BindFault) -> Option<&Text>
    ensures { option_map (λ name. name.now) result ≡ name_of fault.now }
{
    match fault {
        BindFault::ExtraParameter(name) => Some(name),
        BindFault::MissingParameter(name) => Some(name),
        BindFault::WrongType(name) => Some(name),
        BindFault::NotAllowed(name) => Some(name),
        BindFault::OutOfBounds(name) => Some(name),
        BindFault::OutOfMemory => None,
    }
}

// The word for why the parameter is refused, and its name.
pub(crate) fn fault_text(alloc: Global, fault: &BindFault) -> Result<Text, OutOfMemory>
    ensures { IfOk result (λ t. t ≡ fault_text fault.now) }
{
    match name_of(fault) {
        Some(name) => joined(alloc, reason_of(fault), " ", name.as_str()),
        None => Text::of(alloc, reason_of(fault)),
    }
}
