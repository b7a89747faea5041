// The plan of a deployment.

use arm_ids::{Key, Place};
use plan_start::sheet::Start;
use template_parts::{Bound, Mode};
use template_tree::Template;

/// A task of a plan. A scope is given by its number: that of its frame in the plan's start.
#[derive(Drop)]
pub enum Task {
    /// The scope is entered.
    Enter(usize),
    /// An instance of the scope is put: the number of its resource, and its index in the loop of the resource, or 0.
    Put(usize, usize, usize),
    /// The scope is left.
    Leave(usize),
    /// What is held at this key is deleted.
    Delete(Key),
}

/// The plan of a deployment.
#[derive(Drop)]
pub struct Plan<'a> {
    /// The tasks: of each scope its entry, the tasks of its instances in the order of resources and by index, with
    /// those of a nested deployment in its place, and its leave. The deletes come last.
    pub tasks: Vec<Task>,
    /// The pairs of a task and of one that it needs by what is known at the start, by their numbers, each once, in
    /// order.
    pub needs: Vec<(usize, usize)>,
    /// The keys of the puts, in the order of these.
    pub keys: Vec<Key>,
    /// The template that is deployed.
    pub template: &'a Template,
    /// What its parameters are bound to.
    pub bound: &'a Bound,
    /// Where it is deployed.
    pub place: &'a Place,
    /// What is done with what is held and not put.
    pub mode: Mode,
    /// What is known at the start.
    pub start: Start<'a>,
}
