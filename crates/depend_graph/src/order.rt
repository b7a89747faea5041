// An order in which the undone nodes may be done.
ghost use Rattle.std.specs.Prelude.{IfOk};
ghost use Rattle.depend_graph.specs.Orders.{IsSorted};

use crate::circle::first_left;
use crate::graph::Graph;
use arm_value::OutOfMemory;
use std::alloc::Global;

/// Whether the undone nodes of a graph may be done one after another.
#[derive(Drop)]
pub enum Sorted {
    /// They may, in this order: every undone node, each after the undone nodes that it needs.
    Order(Vec<u32>),
    /// They may not: a circle of undone nodes, each of which needs the next, and the last the first. It begins with its
    /// least node.
    Circle(Vec<u32>),
}

impl Graph {
    /// The undone nodes in an order in which they may be done, or a circle of them where there is one.
    ///
    /// It takes time in the order of the nodes and edges.
    pub fn order(&self, alloc: Global) -> Result<Sorted, OutOfMemory>
        ensures { IfOk result (IsSorted self.now) }
    {
        let _nodes = &self.needs;
        let (done, order) = self.peeled(alloc)?;
        match first_left(&done) {
            Some(start) => Ok(Sorted::Circle(self.circle_from(alloc, &done, start)?)),
            None => Ok(Sorted::Order(order)),
        }
    }
}
