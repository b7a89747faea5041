//! What holds of modules that are built. A law has no body: its contract is the law.
ghost use Rattle.emitted_modules.specs.Laws.{BuiltModulesAreEmitted};

/// A module that is built, is no child, and whose name, condition and count are within the limits of templates, is that
/// of its declaration.
pub fn built_modules_are_emitted()
    ensures { BuiltModulesAreEmitted }
{}
