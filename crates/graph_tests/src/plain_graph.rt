// A graph of dependencies by its edges and marks alone.
ghost use Rattle.std.specs.Prelude.{◌≡◌, ◌++◌, ◌∷◌, [], drop, IfOk, OnOk, if◌then◌else◌};
ghost use Rattle.graph_tests.specs.Edges.{is_edge, is_blocker, blockers_of, first_or, is_chain};

use arm_value::OutOfMemory;
use std::alloc::Global;

/// Whether an edge says that the node needs the other.
pub fn is_edge(edges: &[(u32, u32)], node: u32, need: u32) -> bool
    ensures { result ≡ is_edge edges.now node need }
{
    for edge in edges {
        if edge.0 == node && edge.1 == need {
            return true;
        }
    }
    false
}

// Whether an edge says that the node needs the other, and that is not done.
fn is_blocker(edges: &[(u32, u32)], done: &[bool], node: u32, need: u32) -> bool
    ensures { result ≡ is_blocker edges.now done.now node need }
{
    is_edge(edges, node, need) && !done.get(need as usize).copied().unwrap_or(false)
}

// Adds the number last, where it belongs there.
fn push_where(numbers: &mut Vec<u32>, number: u32, belongs: bool) -> Result<(), OutOfMemory>
    ensures { OnOk result (numbers.new.items ≡ numbers.old.items ++ (if belongs then number ∷ [] else [])) }
{
    if belongs {
        numbers.push(number)?;
    }
    Ok(())
}

/// The needs of a node that are not done, rising, among so many nodes.
pub fn blockers(
    alloc: Global,
    edges: &[(u32, u32)],
    done: &[bool],
    count: u32,
    node: u32,
) -> Result<Vec<u32>, OutOfMemory>
    ensures { IfOk result (λ v. v.items ≡ blockers_of edges.now done.now count node) }
{
    let mut found = Vec::new(alloc);
    for need in 0..count {
        push_where(&mut found, need, is_blocker(edges, done, node, need))?;
    }
    Ok(found)
}

// The number at the place, else the end.
fn number_at(numbers: &[u32], place: usize, end: u32) -> u32
    ensures { result ≡ first_or (drop place numbers.now) end }
{
    numbers.get(place).copied().unwrap_or(end)
}

/// Whether each of these is undone and needs the next, and the last the end.
pub fn is_chain(edges: &[(u32, u32)], done: &[bool], nodes: &[u32], end: u32) -> bool
    ensures { result ≡ is_chain edges.now done.now nodes.now end }
{
    for i in 0..nodes.len() {
        let node = nodes[i];
        if done.get(node as usize).copied().unwrap_or(false)
            || !is_edge(edges, node, number_at(nodes, i + 1, end))
        {
            return false;
        }
    }
    true
}
