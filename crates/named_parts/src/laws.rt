//! What holds of parts with one more in its place. A law has no body: its contract is the law.
ghost use Rattle.std.specs.Prelude.{◌≡◌, List, None};
ghost use Rattle.arm_value.specs.Look.{fold};
ghost use Rattle.named_parts.specs.Found.{found, HasOneMore};
ghost use Rattle.named_parts.specs.Order.{AreInOrder, inserted};

use crate::named::Named;

/// The new part is found where none was found before, and any other as before.
pub fn inserted_parts_are_found<T: Named>()
    ensures { (a : T) (xs : List T) → HasOneMore a xs (inserted T.name_of a xs) }
{}

/// Parts stay in order, where none has the name of the new one after folding.
pub fn inserted_parts_are_in_order<T: Named>()
    ensures { (a : T) (xs : List T) → AreInOrder T.name_of xs → found T.name_of (fold (T.name_of a)) xs ≡ None
        → AreInOrder T.name_of (inserted T.name_of a xs) }
{}
