//! What holds of the resources of a template that are built. A law has no body: its contract is the law.
ghost use Rattle.file_resources.specs.Laws.{BuiltResourcesAreEmitted, BuiltResourcesDepend, NoneIsExisting};
ghost use Rattle.file_resources.specs.Laws.{ModulesAreNested};

/// A template with the resources that are built has for each number the resource of its symbol, which depends on what
/// the symbol depends on; in the first form it has no existing resources.
pub fn built_resources_are_of_the_file()
    ensures resources { BuiltResourcesAreEmitted }
    ensures dependents { BuiltResourcesDepend }
    ensures none_exist { NoneIsExisting }
{}

/// The modules of the file are the nested deployments of that template, in their order.
pub fn modules_are_the_nested_deployments()
    ensures { ModulesAreNested }
{}
