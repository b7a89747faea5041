//! What holds of resources that are built. A law has no body: its contract is the law.
ghost use Rattle.emitted_resources.specs.Laws.{BuiltResourcesAreEmitted, MeasuredMembersFit};

/// A resource that is built, is no child, and whose expressions are within the limits of templates, is that of its
/// declaration.
pub fn built_resources_are_emitted()
    ensures { BuiltResourcesAreEmitted }
{}

/// The members of a resource that is beyond no limit can be built.
pub fn measured_members_fit()
    ensures { MeasuredMembersFit }
{}
