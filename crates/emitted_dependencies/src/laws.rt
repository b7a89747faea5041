//! What holds of elements of `dependsOn` that are built. A law has no body: its contract is the law.
ghost use Rattle.emitted_dependencies.specs.Laws.{BuiltElementsAreEmitted};

/// The elements that are built for these numbers, and that are within the limits of templates, are those of the
/// resources and modules of these numbers.
pub fn built_elements_are_emitted()
    ensures { BuiltElementsAreEmitted }
{}
