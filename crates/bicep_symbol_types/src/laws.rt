//! What holds of every file whose symbols have an order in which each comes after those that its declaration mentions.
ghost use Rattle.std.specs.Prelude.{◌≡◌, ℕ, List, length};
ghost use Rattle.bicep_names.specs.declared.kind.Kind.{Kind};
ghost use Rattle.bicep_declared.specs.Declarations.{DeclaredTree};
ghost use Rattle.bicep_circles.specs.Links.{links};
ghost use Rattle.bicep_circles.specs.Orders.{IsLinkOrder};
ghost use Rattle.bicep_signatures.specs.declared.value_type.ValueType.{ValueType};
ghost use Rattle.bicep_symbol_types.specs.SymbolTypes.{AreTypes, symbol_types};

/// The types of the symbols are those that the declarations say by these types themselves, and no others are.
pub fn types_are_settled()
    ensures settled { (os : List (List ValueType)) (kinds : List Kind) (ds : List DeclaredTree) (order : List ℕ)
        → length kinds ≡ length ds → IsLinkOrder (links kinds ds) order → AreTypes os ds (symbol_types os ds) }
    ensures only { (os : List (List ValueType)) (kinds : List Kind) (ds : List DeclaredTree) (order : List ℕ)
        → length kinds ≡ length ds → IsLinkOrder (links kinds ds) order
        → (xs : List ValueType) → AreTypes os ds xs → xs ≡ symbol_types os ds }
{}
