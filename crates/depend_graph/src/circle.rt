// Finding a circle of undone nodes.
ghost use Rattle.std.specs.Prelude.{◌≡◌, ◌≢◌, ◌<◌, ◌≤◌, ◌++◌, ◌∷◌, ◌^◌, ℕ, List, [], length, false, true, filter};
ghost use Rattle.std.specs.Prelude.{slice_index_or, slice_index, All, IfOk, IfSome, IfNone, OnOk, if◌then◌else◌};
ghost use Rattle.depend_graph.specs.Shape.{Shape, times, undone, needs_of, is_done, IsCircle};
ghost use Rattle.depend_graph.specs.Circles.{can_start, IsBlocked, KeepsCircles, InOrder};
ghost use Rattle.depend_graph.specs.Orders.{IsOrder};

use crate::graph::Graph;
use crate::standing::count_down;
use arm_value::OutOfMemory;
use std::alloc::Global;
use std::collections::BTreeSet;

// Lists a node last, where it is undone and has no undone need.
fn list_start(
    ready: &mut Vec<u32>,
    node: u32,
    done: &[bool],
    unmet: &[u32],
) -> Result<(), OutOfMemory>
    requires done_in { node < length done.now }
    requires unmet_in { node < length unmet.now }
    ensures { OnOk result (ready.new.items
        ≡ ready.old.items ++ (if can_start done.now unmet.now node then node ∷ [] else [])) }
{
    if !done[node as usize] && unmet[node as usize] == 0 {
        ready.push(node)?;
    }
    Ok(())
}

// Lists those of the nodes that are undone and have no undone need.
fn list_starts(
    ready: &mut Vec<u32>,
    nodes: &[u32],
    done: &[bool],
    unmet: &[u32],
) -> Result<(), OutOfMemory>
    requires done_in { (u : ℕ) → 1 ≤ times nodes.now u → u < length done.now }
    requires unmet_in { length unmet.now ≡ length done.now }
    ensures { OnOk result (ready.new.items
        ≡ ready.old.items ++ filter (can_start done.now unmet.now) nodes.now) }
{
    for node in nodes {
        list_start(ready, *node, done, unmet)?;
    }
    Ok(())
}

// The first of the nodes that is undone.
fn first_undone(nodes: &BTreeSet<u32>, done: &[bool]) -> u32
    requires { undone done.now nodes.now.keys ≢ [] }
    ensures listed { 1 ≤ times nodes.now.keys result }
    ensures undone { slice_index_or done.now result false ≡ false }
{
    for node in nodes {
        if !done.get(*node as usize).copied().unwrap_or(false) {
            return *node;
        }
    }
    unreachable!()
}

// The place of the least of the numbers.
fn least_place(numbers: &[u32]) -> usize
    requires { 0 < length numbers.now }
    ensures within { result < length numbers.now }
    ensures least { (k : ℕ) → k < length numbers.now
        → slice_index numbers.now result ≤ slice_index numbers.now k }
{
    let mut least = 0;
    for i in 0..numbers.len() {
        if numbers[i] < numbers[least] {
            least = i;
        }
    }
    least
}

// The place of the node on the path.
fn place_of(path: &[u32], node: u32) -> usize
    requires { 1 ≤ times path.now node }
    ensures within { result < length path.now }
    ensures here { slice_index path.now result ≡ node }
{
    for i in 0..path.len() {
        if path[i] == node {
            return i;
        }
    }
    unreachable!()
}

// Turns a circle so that it begins with its least node.
fn turn(circle: &mut [u32])
    requires { 0 < length circle.old }
    ensures size { length circle.new ≡ length circle.old }
    ensures circle { (g : Shape) → IsCircle g circle.old → IsCircle g circle.new }
    ensures once { (u : ℕ) → times circle.new u ≡ times circle.old u }
    ensures least { All (λ v. slice_index circle.new 0 ≤ v) circle.new }
{
    let at = least_place(circle);
    circle.rotate_left(at);
}

/// The first node that is not done.
pub(crate) fn first_left(done: &[bool]) -> Option<u32>
    requires { length done.now < 2 ^ 32 }
    ensures some { IfSome result (λ node. (node < length done.now)
        × (slice_index_or done.now node false ≡ false)) }
    ensures none { IfNone result ((u : ℕ) → u < length done.now
        → slice_index_or done.now u false ≡ true) }
{
    for place in 0..done.len() {
        if !done[place] {
            return Some(place as u32);
        }
    }
    None
}

impl Graph {
    /// Which nodes are done, or may be done one after another, and these in such an order.
    pub(crate) fn peeled(&self, alloc: Global) -> Result<(Vec<bool>, Vec<u32>), OutOfMemory>
        ensures size { IfOk result (λ r. length r.0.items ≡ length self.now.needs) }
        ensures circles { IfOk result (λ r. KeepsCircles self.now r.0.items) }
        ensures later { IfOk result (λ r. (u : ℕ) → is_done self.now u ≡ true
            → slice_index_or r.0.items u false ≡ true) }
        ensures blocked { IfOk result (λ r. IsBlocked self.now.needs r.0.items) }
        ensures order { IfOk result (λ r. InOrder self.now r.0.items r.1.items) }
    {
        let mut done = self.done.clone()?;
        let mut unmet = self.unmet.clone()?;
        let mut order = Vec::new(alloc);
        let mut ready = Vec::new(alloc);
        for node in 0..self.done.len() {
            list_start(&mut ready, node as u32, &done, &unmet)?;
        }
        while let Some(node) = ready.pop() {
            let node = node as usize;
            if !done[node] {
                done[node] = true;
                order.push(node as u32)?;
                count_down(&mut unmet, &self.dependents[node]);
                list_starts(&mut ready, &self.dependents[node], &done, &unmet)?;
            }
        }
        Ok((done, order))
    }

    // A circle among the nodes that are not done, each of which has a need that is not done.
    fn walk(&self, alloc: Global, done: &[bool], start: u32) -> Result<Vec<u32>, OutOfMemory>
        requires size { length done.now ≡ length self.now.needs }
        requires blocked { IsBlocked self.now.needs done.now }
        requires within { start < length done.now }
        requires left { slice_index_or done.now start false ≡ false }
        ensures circle { IfOk result (λ xs.
            IsCircle (record { needs = self.now.needs; done = done.now }) xs.items) }
        ensures once { IfOk result (λ xs. (u : ℕ) → times xs.items u ≤ 1) }
    {
        let mut path = Vec::new(alloc);
        let mut seen = vec![in alloc; false; done.len()]?;
        let mut node = start;
        for _ in 0..done.len() + 1 {
            if seen[node as usize] {
                let at = place_of(&path, node);
                return Ok(path.split_off(at)?);
            }
            seen[node as usize] = true;
            path.push(node)?;
            node = first_undone(&self.needs[node as usize], done);
        }
        unreachable!()
    }

    /// A circle of nodes that are not marked as done, of which one is given. It begins with its least node.
    pub(crate) fn circle_from(
        &self,
        alloc: Global,
        done: &[bool],
        start: u32,
    ) -> Result<Vec<u32>, OutOfMemory>
        requires size { length done.now ≡ length self.now.needs }
        requires later { (u : ℕ) → is_done self.now u ≡ true → slice_index_or done.now u false ≡ true }
        requires blocked { IsBlocked self.now.needs done.now }
        requires within { start < length done.now }
        requires left { slice_index_or done.now start false ≡ false }
        ensures circle { IfOk result (λ xs. IsCircle self.now xs.items) }
        ensures once { IfOk result (λ xs. (u : ℕ) → times xs.items u ≤ 1) }
        ensures least { IfOk result (λ xs. All (λ v. slice_index xs.items 0 ≤ v) xs.items) }
    {
        let mut circle = self.walk(alloc, done, start)?;
        turn(&mut circle);
        Ok(circle)
    }

    /// A circle of undone nodes: each needs the next, and the last the first. It begins with its
    /// least node, and no node is in it twice. None exactly where there is no circle.
    ///
    /// It takes time in the order of the nodes and edges.
    pub fn cycle(&self, alloc: Global) -> Result<Option<Vec<u32>>, OutOfMemory>
        ensures circle { IfOk result (λ found. IfSome found (λ xs. IsCircle self.now xs.items)) }
        ensures once { IfOk result (λ found. IfSome found (λ xs. (u : ℕ) → times xs.items u ≤ 1)) }
        ensures least { IfOk result (λ found. IfSome found
            (λ xs. All (λ v. slice_index xs.items 0 ≤ v) xs.items)) }
        ensures none { IfOk result (λ found. IfNone found ((xs : List ℕ) → ¬ IsCircle self.now xs)) }
    {
        let _nodes = &self.needs;
        let (done, _order) = self.peeled(alloc)?;
        match first_left(&done) {
            Some(start) => Ok(Some(self.circle_from(alloc, &done, start)?)),
            None => Ok(None),
        }
    }
}
