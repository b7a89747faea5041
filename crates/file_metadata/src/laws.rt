//! What holds of the decorators of outputs. A law has no body: its contract is the law.
ghost use Rattle.std.specs.Prelude.{◌≡◌, length};
ghost use Rattle.bicep_symbols.specs.Outputs.{outputs_of};
ghost use Rattle.bicep_tree.specs.Tree.{FileTree};
ghost use Rattle.file_metadata.specs.Outputs.{output_decorators};

/// There are as many lists of decorators as outputs.
pub fn each_output_has_decorators()
    ensures { (f : FileTree) → length (output_decorators f) ≡ length (outputs_of f) }
{}
