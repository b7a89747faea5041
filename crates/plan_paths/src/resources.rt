// The paths of the resources of a template.
ghost use Rattle.std.specs.Prelude.{◌≡◌, ◌++◌, ◌∷◌, [], nat_lt, true, IfOk};
ghost use Rattle.std.specs.List.{list_all};
ghost use Rattle.arm_value.specs.Pointer.{step};
ghost use Rattle.template_tree.specs.Tree.{trees};
ghost use Rattle.template_tree.specs.View.{resource_tree, template_tree};
ghost use Rattle.plan_paths.specs.Resources.{below, place_of, tree_paths, trees_paths, paths_in, path_at};

use arm_value::{OutOfMemory, Path};
use std::alloc::Global;
use template_parts::{Declaration, run_out};
use template_tree::{Resource, Resources, Template};

/// The path of the member of this name, which has ASCII characters alone.
pub fn below(alloc: Global, path: &Path, word: &str) -> Result<Path, OutOfMemory>
    requires { list_all (λ b. nat_lt b 128) word.now ≡ true }
    ensures { IfOk result (λ p. p ≡ below path.now word.now) }
{
    path.member(alloc, word)
}

// The path of a resource in the member at this path that lists it.
fn place_in(
    alloc: Global,
    path: &Path,
    number: usize,
    declaration: &Declaration,
) -> Result<Path, OutOfMemory>
    ensures { IfOk result (λ p. p ≡ path.now ++ step (place_of number declaration.now)) }
{
    match &declaration.symbol {
        Some(symbol) => path.member(alloc, symbol.as_str()),
        None => path.item(alloc, number),
    }
}

// Lists the path last.
fn push_path(alloc: Global, paths: &mut Vec<Path>, path: &Path) -> Result<(), OutOfMemory>
    ensures { IfOk result (λ _. paths.new.items ≡ paths.old.items ++ path.now ∷ []) }
{
    let path = path.copy(alloc)?;
    paths.push(path)?;
    Ok(())
}

// Lists the paths of a resource at this path and of its children last.
#[cycle(paths)]
fn push_resource(
    alloc: Global,
    paths: &mut Vec<Path>,
    path: &Path,
    resource: &Resource,
) -> Result<(), OutOfMemory>
    ensures { IfOk result (λ _. paths.new.items
        ≡ paths.old.items ++ tree_paths path.now (resource_tree resource.now)) }
{
    push_path(alloc, paths, path)?;
    let list = below(alloc, path, "resources")?;
    push_resources(alloc, paths, &list, &resource.resources)
}

// Lists the paths of the resources in the member at this path and of their children last.
#[cycle(paths)]
fn push_resources(
    alloc: Global,
    paths: &mut Vec<Path>,
    list: &Path,
    resources: &Resources,
) -> Result<(), OutOfMemory>
    ensures { IfOk result (λ _. paths.new.items ≡ paths.old.items ++ trees_paths list.now 0 (trees resources.now)) }
{
    for (number, resource) in resources.as_slice().iter().enumerate() {
        let path = place_in(alloc, list, number, &resource.declaration)?;
        push_resource(alloc, paths, &path, resource)?;
    }
    Ok(())
}

// The paths of all resources of a template.
fn list_paths(alloc: Global, template: &Template) -> Result<Vec<Path>, OutOfMemory>
    ensures { IfOk result (λ ps. ps.items ≡ paths_in (template_tree template.now)) }
{
    let list = below(alloc, &Path::root(alloc), "resources")?;
    let mut paths = Vec::new(alloc);
    match push_resources(alloc, &mut paths, &list, &template.resources) {
        Ok(()) => Ok(paths),
        Err(_) => run_out(paths),
    }
}

/// The path of the resource of a number in its template.
pub fn resource_path(
    alloc: Global,
    template: &Template,
    resource: usize,
) -> Result<Path, OutOfMemory>
    ensures { IfOk result (λ p. p ≡ path_at (template_tree template.now) resource) }
{
    let paths = list_paths(alloc, template)?;
    match paths.get(resource) {
        Some(path) => path.copy(alloc),
        None => Ok(Path::root(alloc)),
    }
}
