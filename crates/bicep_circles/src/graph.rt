// The graph of lists of numbers.
ghost use Rattle.std.specs.Prelude.{◌≡◌, ◌<◌, ◌^◌, length, map, IfOk, OnOk};
ghost use Rattle.std.specs.List.{AllByRecursion};
ghost use Rattle.bicep_program.specs.Graphs.{with_needs, with_links, unlinked, AreWithin};

use arm_value::OutOfMemory;
use depend_graph::Graph;
use std::alloc::Global;

// Adds the needs of one node for others.
fn add_needs(alloc: Global, graph: &mut Graph, node: u32, needs: &[u32]) -> Result<(), OutOfMemory>
    requires is_node { node < length graph.old.needs }
    requires are_nodes { AllByRecursion (λ k. k < length graph.old.needs) needs.now }
    ensures added { OnOk result (graph.new ≡ with_needs graph.old node needs.now) }
    ensures size { OnOk result (length graph.new.needs ≡ length graph.old.needs) }
{
    for need in needs {
        graph.add_edge(alloc, node, *need)?;
    }
    Ok(())
}

/// The graph in which each symbol needs those of its list.
pub(crate) fn graph_of(alloc: Global, lists: &[Vec<u32>]) -> Result<Graph, OutOfMemory>
    requires few { length lists.now < 2 ^ 32 }
    requires within { AreWithin (length lists.now) (map (λ x. x.items) lists.now) }
    ensures { IfOk result (λ g. g
        ≡ with_links (unlinked (length lists.now)) 0 (map (λ x. x.items) lists.now)) }
{
    let mut graph = Graph::new(alloc, lists.len() as u32)?;
    for (node, needs) in lists.iter().enumerate() {
        add_needs(alloc, &mut graph, node as u32, needs.as_slice())?;
    }
    Ok(graph)
}
