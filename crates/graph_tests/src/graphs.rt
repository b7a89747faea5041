// Graphs of dependencies: by hand, of many nodes, and beside the plain graph.
ghost use Rattle.std.specs.Prelude.{◌<◌};

use crate::plain_graph::{blockers, is_chain, is_edge};
use depend_graph::Graph;
use std::alloc::Global;
use std::process::Abort;
use std::test::Fail;

const NODES: u32 = 50;

// The next of a row of numbers that look random (Knuth's linear congruential generator).
fn next_random(seed: &mut u64, below: u32) -> u32
    requires { 0 < below }
    ensures { result < below }
{
    *seed = seed
        .wrapping_mul(6_364_136_223_846_793_005)
        .wrapping_add(1_442_695_040_888_963_407);
    ((*seed >> 33) % below as u64) as u32
}

// Which nodes lead to which over undone nodes (Warshall's algorithm).
fn reached(alloc: Global, edges: &[(u32, u32)], done: &[bool]) -> Result<Vec<(u32, u32)>, Fail> {
    let mut found = Vec::new(alloc);
    for (from, to) in edges {
        if !done.get(*from as usize).copied().unwrap_or(true)
            && !done.get(*to as usize).copied().unwrap_or(true)
        {
            found.push((*from, *to))?;
        }
    }
    for middle in 0..NODES {
        for from in 0..NODES {
            if is_edge(&found, from, middle) {
                for to in 0..NODES {
                    if is_edge(&found, middle, to) && !is_edge(&found, from, to) {
                        found.push((from, to))?;
                    }
                }
            }
        }
    }
    Ok(found)
}

// Compares a graph with the plain one.
fn compare(
    rt: &impl Abort,
    alloc: Global,
    graph: &Graph,
    edges: &[(u32, u32)],
    done: &[bool],
) -> Result<(), Fail> {
    for node in 0..NODES {
        let plain = blockers(alloc, edges, done, NODES, node)?;
        assert!(rt; graph.blockers(alloc, node)?.as_slice() == plain.as_slice());
        assert_eq!(rt; graph.ready(node), plain.is_empty());
        if node < graph.count() {
            assert_eq!(rt; graph.unmet(node) as usize, plain.len());
        }
    }
    let leads = reached(alloc, edges, done)?;
    let has_circle = leads.iter().any(|edge| edge.0 == edge.1);
    match graph.cycle(alloc)? {
        Some(circle) => {
            assert!(rt; has_circle && !circle.is_empty());
            assert!(rt; is_chain(edges, done, &circle, circle.first().copied().unwrap_or(0)));
        }
        None => assert!(rt; !has_circle),
    }
    Ok(())
}

#[test]
fn random_graphs_answer_as_the_plain_one_does(rt: HostRuntime) -> Result<(), Fail> {
    let alloc = rt.alloc();
    let mut seed = 1;
    for edge_count in [0, 20, 40, 60, 80, 120, 400] {
        let mut graph = Graph::new(alloc, NODES)?;
        let mut edges = Vec::new(alloc);
        let mut done = vec![in alloc; false; NODES as usize]?;
        for _ in 0..edge_count {
            let from = next_random(&mut seed, NODES);
            let to = next_random(&mut seed, NODES);
            edges.push((from, to))?;
            if from < graph.count() && to < graph.count() {
                graph.add_edge(alloc, from, to)?;
            }
        }
        compare(&rt, alloc, &graph, &edges, &done)?;
        for _ in 0..20 {
            let node = next_random(&mut seed, NODES);
            if let Some(mark) = done.get_mut(node as usize) {
                *mark = true;
            }
            if node < graph.count() {
                graph.done(node);
            }
        }
        compare(&rt, alloc, &graph, &edges, &done)?;
    }
    Ok(())
}

// Says that the node needs the other, where both are nodes.
fn add(alloc: Global, graph: &mut Graph, from: u32, to: u32) -> Result<(), Fail> {
    if from < graph.count() && to < graph.count() {
        graph.add_edge(alloc, from, to)?;
    }
    Ok(())
}

// Marks the node as done, where it is one.
fn mark(graph: &mut Graph, node: u32) {
    if node < graph.count() {
        graph.done(node);
    }
}

// How many needs of the node are not done; none where it is no node.
fn unmet(graph: &Graph, node: u32) -> Option<u32> {
    if node < graph.count() {
        Some(graph.unmet(node))
    } else {
        None
    }
}

// The first of three nodes needs the second, twice, and the third.
fn add_needs(alloc: Global, graph: &mut Graph) -> Result<(), Fail> {
    add(alloc, graph, 0, 1)?;
    add(alloc, graph, 0, 1)?;
    add(alloc, graph, 0, 2)
}

// Compares how many needs of the node are not done.
fn check_unmet(graph: &Graph, node: u32, wanted: Option<u32>) -> Result<(), Fail> {
    if unmet(graph, node) == wanted {
        return Ok(());
    }
    Err(Fail::from("another number of needs"))
}

// Compares the needs of the node that are not done.
fn check_blockers(alloc: Global, graph: &Graph, node: u32, wanted: &[u32]) -> Result<(), Fail> {
    let found = graph.blockers(alloc, node)?;
    if found.as_slice() == wanted {
        return Ok(());
    }
    Err(Fail::from("other needs"))
}

fn check_ready(graph: &Graph, node: u32, wanted: bool) -> Result<(), Fail> {
    if graph.ready(node) == wanted {
        return Ok(());
    }
    Err(Fail::from("ready or not"))
}

fn check_needs(alloc: Global, graph: &Graph) -> Result<(), Fail> {
    check_unmet(graph, 0, Some(2))?;
    check_ready(graph, 0, false)?;
    check_ready(graph, 1, true)?;
    check_ready(graph, 3, true)?;
    check_blockers(alloc, graph, 0, &[1, 2])?;
    check_blockers(alloc, graph, 3, &[])
}

fn add_and_check(alloc: Global, graph: &mut Graph) -> Result<(), Fail> {
    add_needs(alloc, graph)?;
    check_needs(alloc, graph)
}

#[test]
fn each_need_counts_once(rt: HostRuntime) -> Result<(), Fail> {
    let mut graph = Graph::new(rt.alloc(), 3)?;
    add_and_check(rt.alloc(), &mut graph)
}

// Compares the nodes that need the node.
fn check_dependents(graph: &Graph, node: u32, wanted: &[u32]) -> Result<(), Fail> {
    if graph.dependents(node) == wanted {
        return Ok(());
    }
    Err(Fail::from("other nodes need the node"))
}

fn add_and_check_dependents(alloc: Global, graph: &mut Graph) -> Result<(), Fail> {
    add_needs(alloc, graph)?;
    check_dependents(graph, 1, &[0])?;
    check_dependents(graph, 0, &[])?;
    check_dependents(graph, 3, &[])
}

#[test]
fn a_node_is_listed_once_for_each_of_its_needs(rt: HostRuntime) -> Result<(), Fail> {
    let mut graph = Graph::new(rt.alloc(), 3)?;
    add_and_check_dependents(rt.alloc(), &mut graph)
}

fn mark_and_check(alloc: Global, graph: &mut Graph) -> Result<(), Fail> {
    add_needs(alloc, graph)?;
    mark(graph, 1);
    check_unmet(graph, 0, Some(1))?;
    mark(graph, 1);
    check_unmet(graph, 0, Some(1))?;
    check_blockers(alloc, graph, 0, &[2])?;
    mark(graph, 2);
    check_ready(graph, 0, true)
}

#[test]
fn a_need_counts_until_it_is_done(rt: HostRuntime) -> Result<(), Fail> {
    let mut graph = Graph::new(rt.alloc(), 3)?;
    mark_and_check(rt.alloc(), &mut graph)
}

// Whether a graph of eight nodes with these edges has this circle once these are done; an empty one
// says that there is none.
fn has_circle(
    alloc: Global,
    edges: &[(u32, u32)],
    done: &[u32],
    circle: &[u32],
) -> Result<bool, Fail> {
    let mut graph = Graph::new(alloc, 8)?;
    for (from, to) in edges {
        add(alloc, &mut graph, *from, *to)?;
    }
    for node in done {
        mark(&mut graph, *node);
    }
    match graph.cycle(alloc)? {
        Some(found) => Ok(found.as_slice() == circle),
        None => Ok(circle.is_empty()),
    }
}

#[test]
fn a_circle_begins_at_its_least_node(rt: HostRuntime) -> Result<(), Fail> {
    let alloc = rt.alloc();
    assert!(rt; has_circle(alloc, &[(0, 1), (1, 0)], &[], &[0, 1])?);
    assert!(rt; has_circle(alloc, &[(3, 3)], &[], &[3])?);
    let beyond = [(0, 1), (7, 5), (5, 2), (2, 7), (1, 5)];
    assert!(rt; has_circle(alloc, &beyond, &[], &[2, 7, 5])?);
    Ok(())
}

#[test]
fn done_nodes_and_chains_are_no_circle(rt: HostRuntime) -> Result<(), Fail> {
    let alloc = rt.alloc();
    assert!(rt; has_circle(alloc, &[(7, 5), (5, 2), (2, 7)], &[5], &[])?);
    assert!(rt; has_circle(alloc, &[(0, 1), (1, 2), (0, 2)], &[], &[])?);
    Ok(())
}

const MANY: u32 = 100_000;

// Compares the length of a circle; 0 says that there is none.
fn check_circle(alloc: Global, graph: &Graph, wanted: usize) -> Result<(), Fail> {
    let length = match graph.cycle(alloc)? {
        Some(circle) => circle.len(),
        None => 0,
    };
    if length == wanted {
        return Ok(());
    }
    Err(Fail::from("another circle"))
}

fn check_chain(alloc: Global, chain: &mut Graph) -> Result<(), Fail> {
    for node in 1..MANY {
        add(alloc, chain, node - 1, node)?;
    }
    check_circle(alloc, chain, 0)?;
    add(alloc, chain, MANY - 1, 0)?;
    check_circle(alloc, chain, 100_000)
}

#[test]
fn a_chain_of_100000_nodes_is_gone_through(rt: HostRuntime) -> Result<(), Fail> {
    let mut chain = Graph::new(rt.alloc(), MANY)?;
    check_chain(rt.alloc(), &mut chain)
}

fn check_star(alloc: Global, star: &mut Graph) -> Result<(), Fail> {
    for node in 1..MANY {
        add(alloc, star, 0, MANY - node)?;
        add(alloc, star, node, MANY - 1)?;
    }
    check_unmet(star, 0, Some(99_999))?;
    mark(star, MANY - 1);
    check_unmet(star, 0, Some(99_998))?;
    check_circle(alloc, star, 0)
}

#[test]
fn a_star_of_100000_nodes_is_gone_through(rt: HostRuntime) -> Result<(), Fail> {
    let mut star = Graph::new(rt.alloc(), MANY)?;
    check_star(rt.alloc(), &mut star)
}
