//! What holds of every expression that has a type, and of the functions that a file may call. A law has no body: its
//! contract is the law.
ghost use Rattle.std.specs.Prelude.{◌≡◌, ℕ, true, List, Option, Some, Ok};
ghost use Rattle.arm_functions.specs.Table.{counts};
ghost use Rattle.arm_functions.specs.Values.{admits};
ghost use Rattle.deploy_cells.specs.Cells.{World};
ghost use Rattle.bicep_resolved.specs.Source.{SourceTree, ValueTree};
ghost use Rattle.bicep_names.specs.Functions.{may_call};
ghost use Rattle.bicep_signatures.specs.Table.{signatures_of};
ghost use Rattle.bicep_signatures.specs.declared.signature.Signatures.{Signatures};
ghost use Rattle.bicep_signatures.specs.declared.value_type.ValueType.{ValueType};
ghost use Rattle.bicep_typing.specs.Names.{Types};
ghost use Rattle.bicep_typing.specs.Typing.{type_of, value_type};
ghost use Rattle.bicep_meaning.specs.Around.{Here, Frame};
ghost use Rattle.bicep_soundness.specs.Entries.{AreCounting};
ghost use Rattle.bicep_soundness.specs.Sound.{IsTypedIn, IsSound, IsValueSound};

/// An expression that has a type: in each world in which the entries of its file are of their types, each of its values
/// is of the type, and no operation in it meets a value of a wrong kind, unless the type of its operand is Any.
pub fn expressions_are_sound()
    ensures { (ts : Types) (here : Here) (w : World) → IsTypedIn ts here w → (k : ℕ) (e : SourceTree) (fs : List Frame)
        (t : ValueType) → AreCounting w fs → type_of ts e ≡ Ok t → IsSound ts here w k e fs t }
{}

/// The same of the value of a variable, an output or a property.
pub fn values_are_sound()
    ensures { (ts : Types) (here : Here) (w : World) → IsTypedIn ts here w → (k : ℕ) (x : ValueTree) (fs : List Frame)
        (t : ValueType) → AreCounting w fs → value_type ts x ≡ Ok t → IsValueSound ts here w k x fs t }
{}

/// There are ways to call each function that a file may call, with as many arguments as it takes.
pub fn callable_functions_have_ways()
    ensures { (name : List ℕ) (c : ℕ × Option ℕ) (n : ℕ) → may_call name ≡ true → counts name ≡ Some c
        → admits c.0 c.1 n ≡ true → (w : Signatures) × (signatures_of name n ≡ Some w) }
{}
