//! What holds of the decorators of symbols. A law has no body: its contract is the law.
ghost use Rattle.std.specs.Prelude.{◌≡◌, ◌≤◌, ℕ, List, None, length};
ghost use Rattle.template_parts.specs.declared.looping.Batches.TheVariants.{Serial};
ghost use Rattle.bicep_tree.specs.Tree.{FileTree};
ghost use Rattle.bicep_decorators.specs.Decorators.{bad_in_file};
ghost use Rattle.bicep_symbols.specs.Entries.{symbols_of};
ghost use Rattle.symbol_decorators.specs.Decorators.{decorators_of};
ghost use Rattle.symbol_decorators.specs.Batches.{batches_of};

/// There are as many lists of decorators as symbols.
pub fn each_symbol_has_decorators()
    ensures { (files : List ℕ) (f : FileTree) → length (decorators_of f) ≡ length (symbols_of files f) }
{}

/// Where no decorator is bad, batches are not empty.
pub fn batches_are_not_empty()
    ensures { (f : FileTree) → bad_in_file f ≡ None → (n size : ℕ) → batches_of f n ≡ Serial size → 1 ≤ size }
{}
