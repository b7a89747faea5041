// Whether a file of a program names itself through modules.
ghost use Rattle.std.specs.Prelude.{◌≡◌, ◌<◌, ◌≤◌, ℕ, List, length, map, IfOk, IfSome, IfNone, OnOk};
ghost use Rattle.std.specs.List.{AllByRecursion};
ghost use Rattle.depend_graph.specs.Shape.{Shape};
ghost use Rattle.bicep_program.specs.Circles.{IsCircle, Links};
ghost use Rattle.bicep_program.specs.Program.{program_file, links_of};
ghost use Rattle.bicep_program.specs.Graphs.{with_needs, with_links, unlinked, AreWithin, name_at, IsCircleOf};

use crate::fault::LoadFault;
use crate::file::SourceFile;
use arm_value::{OutOfMemory, Texts};
use depend_graph::Graph;
use std::alloc::Global;

// Adds the needs of one node for others.
fn add_needs(alloc: Global, graph: &mut Graph, node: u32, needs: &[u32]) -> Result<(), OutOfMemory>
    requires is_node { node < length graph.old.needs }
    requires are_nodes { AllByRecursion (λ k. k < length graph.old.needs) needs.now }
    ensures added { OnOk result (graph.new ≡ with_needs graph.old node needs.now) }
    ensures size { OnOk result (length graph.new.needs ≡ length graph.old.needs) }
{
    for need in needs {
        graph.add_edge(alloc, node, *need)?;
    }
    Ok(())
}

// The graph in which each file needs those that its modules name.
fn graph_of(alloc: Global, files: &[SourceFile]) -> Result<Graph, OutOfMemory>
    requires few { length files.now ≤ 65 }
    requires within { AreWithin (length files.now) (links_of (map program_file files.now)) }
    ensures { IfOk result (λ g. g
        ≡ with_links (unlinked (length files.now)) 0 (links_of (map program_file files.now))) }
{
    let mut graph = Graph::new(alloc, files.len() as u32)?;
    for (node, file) in files.iter().enumerate() {
        add_needs(alloc, &mut graph, node as u32, file.modules.as_slice())?;
    }
    Ok(graph)
}

/// The numbers of files each of which names the next by a module, and the last the first; none where no file names
/// itself through modules.
pub(crate) fn circle_among(
    alloc: Global,
    files: &[SourceFile],
) -> Result<Option<Vec<u32>>, OutOfMemory>
    requires few { length files.now ≤ 65 }
    requires within { AreWithin (length files.now) (links_of (map program_file files.now)) }
    ensures circle { IfOk result (λ o. IfSome o (λ c.
        IsCircle (Links (links_of (map program_file files.now))) c.items)) }
    ensures none { IfOk result (λ o. IfNone o ((circle : List ℕ)
        → ¬ IsCircle (Links (links_of (map program_file files.now))) circle)) }
{
    let graph = graph_of(alloc, files)?;
    graph.cycle(alloc)
}

// The names of these files.
fn names_of(alloc: Global, files: &[SourceFile], numbers: &[u32]) -> Result<Texts, OutOfMemory>
    requires { AllByRecursion (λ k. k < length files.now) numbers.now }
    ensures { IfOk result (λ names. names ≡ map (name_at (map program_file files.now)) numbers.now) }
{
    let mut names = Texts::new(alloc);
    for number in numbers {
        names.push(files[*number as usize].name.copy(alloc)?)?;
    }
    Ok(names)
}

/// The fault of files that name each other in a circle, by their numbers.
pub(crate) fn circle_of(alloc: Global, files: &[SourceFile], circle: &[u32]) -> LoadFault
    requires within { AllByRecursion (λ k. k < length files.now) circle.now }
    requires circle { IsCircle (Links (links_of (map program_file files.now))) circle.now }
    ensures { IsCircleOf (map program_file files.now) result }
{
    match names_of(alloc, files, circle) {
        Ok(names) => LoadFault::ModuleCycle(names),
        Err(_) => LoadFault::OutOfMemory,
    }
}
