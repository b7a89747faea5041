//! What holds of every expression.
ghost use Rattle.std.specs.Prelude.{List};
ghost use Rattle.bicep_tree.specs.declared.leaf.LoopNames.{LoopNames};
ghost use Rattle.bicep_tree.specs.Tree.{Tree, ValueTree};
ghost use Rattle.bicep_names.specs.Scope.{Scope};
ghost use Rattle.bicep_names.specs.Resolve.{resolved, resolved_value};
ghost use Rattle.bicep_names.specs.Unknown.{HasUnknown, ValueHasUnknown, Tells};

/// An expression stands for another exactly where each of its names means something. Else a name at the offset that is
/// returned means nothing. The same holds of the values of variables, outputs and properties.
pub fn unknown_names()
    ensures expressions { (sc : Scope) (e : Tree) (ls : List LoopNames)
        → Tells (λ at. HasUnknown sc at e ls) (resolved sc e ls) }
    ensures values { (sc : Scope) (v : ValueTree) (ls : List LoopNames)
        → Tells (λ at. ValueHasUnknown sc at v ls) (resolved_value sc v ls) }
{}
