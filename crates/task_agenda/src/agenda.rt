// The agenda of a deployment.

ghost use Rattle.std.specs.Prelude.{◌≡◌, ◌<◌, ◌≤◌, ◌^◌, ℕ, [], true, false, length, replicate, slice_index_or, is_ok};
ghost use Rattle.std.specs.Prelude.{if◌then◌else◌, IfOk, OnOk, MatchOption};
ghost use Rattle.depend_graph.specs.Shape.{with_edge, with_done, Needs, undone_needs};
ghost use Rattle.task_agenda.specs.Lists.{has, is_scope};

use crate::lists::{least, list_all, list_each, list_if_ready, take_off};
use arm_value::OutOfMemory;
use depend_graph::Graph;
use std::alloc::{AllocError, Global};
use std::collections::BTreeSet;

/// Which tasks need which, which are done, and which are listed.
///
/// Tasks are the numbers from 0 below their count. A listed task may begin, as far as is known; whoever looks at it
/// finds that it is ready, or what it waits for.
#[derive(Drop)]
pub struct Agenda {
    graph: Graph,
    // Of each task, whether it enters or leaves a scope.
    kinds: Vec<bool>,
    scopes: BTreeSet<u32>,
    acts: BTreeSet<u32>,
    ghost few: { length kinds.items < 2 ^ 32 },
    ghost sizes: { length graph.needs ≡ length kinds.items },
    ghost scopes_are: { (u : ℕ) → has scopes u ≡ true → is_scope kinds.items u ≡ true },
    ghost acts_are: { (u : ℕ) → has acts u ≡ true → (u < length kinds.items) × (is_scope kinds.items u ≡ false) },
}

// Fails; the part is dropped.
fn run_out<T: Drop, R: Drop>(_part: T) -> Result<R, OutOfMemory>
    ensures { is_ok result ≡ false }
{
    Err(AllocError)
}

impl Agenda {
    ghost use Rattle.task_agenda.specs.Agendas.{count, is_scope as is_scope_of, is_listed, IsSeenTo, Keeps, HasGraph};
    ghost use Rattle.task_agenda.specs.Agendas.{TakesOff, IsFirst};

    /// The agenda of these tasks, of which none needs another, none is done and none is listed. Of each is given
    /// whether it enters or leaves a scope.
    pub fn new(alloc: Global, kinds: Vec<bool>) -> Result<Agenda, OutOfMemory>
        requires { length kinds.items < 2 ^ 32 }
        ensures kinds { IfOk result (λ a. a.kinds.items ≡ kinds.items) }
        ensures graph { IfOk result (λ a. a.graph
            ≡ record { needs = replicate (length kinds.items) []; done = replicate (length kinds.items) false }) }
        ensures listed { IfOk result (λ a. (u : ℕ) → is_listed a u ≡ false) }
    {
        match Graph::new(alloc, kinds.len() as u32) {
            Ok(graph) => Ok(Agenda {
                graph,
                kinds,
                scopes: BTreeSet::new(alloc),
                acts: BTreeSet::new(alloc),
            }),
            Err(_) => run_out(kinds),
        }
    }

    /// Whether the task enters or leaves a scope.
    pub fn is_scope(&self, task: u32) -> bool
        ensures { result ≡ is_scope_of self.now task }
    {
        self.kinds.get(task as usize).copied().unwrap_or(false)
    }

    /// Whether all that the task needs is done.
    pub fn is_ready(&self, task: u32) -> bool
        requires { task < count self.now }
        ensures ready { result ≡ true → length (undone_needs self.now.graph task) ≡ 0 }
        ensures held { result ≡ false → 0 < length (undone_needs self.now.graph task) }
    {
        self.graph.unmet(task) == 0
    }

    /// The needs of the task that are not done, rising.
    pub fn blockers(&self, alloc: Global, task: u32) -> Result<Vec<u32>, OutOfMemory>
        ensures { IfOk result (λ v. v.items ≡ undone_needs self.now.graph task) }
    {
        self.graph.blockers(alloc, task)
    }

    /// The task needs another. After `OutOfMemory` nothing is changed.
    pub fn need(&mut self, alloc: Global, task: u32, other: u32) -> Result<(), OutOfMemory>
        requires task { task < count self.old }
        requires other { other < count self.old }
        ensures { HasGraph self.old self.new
            (if is_ok result then with_edge self.old.graph task other else self.old.graph) }
    {
        self.graph.add_edge(alloc, task, other)
    }

    /// The task is done. It takes no memory.
    pub fn done(&mut self, task: u32)
        requires { task < count self.old }
        ensures { HasGraph self.old self.new (with_done self.old.graph task) }
    {
        self.graph.done(task);
    }

    /// Lists the task and those that need it, where all that they need is done. After `OutOfMemory` some may be
    /// listed.
    pub fn wake(&mut self, task: u32) -> Result<(), OutOfMemory>
        requires { task < count self.old }
        ensures keeps { Keeps self.old self.new }
        ensures task { OnOk result (IsSeenTo self.new task) }
        ensures others { OnOk result ((u : ℕ) → Needs self.new.graph u task → IsSeenTo self.new u) }
    {
        list_if_ready(
            &self.graph,
            &self.kinds,
            &mut self.scopes,
            &mut self.acts,
            task,
        )?;
        list_each(
            &self.graph,
            &self.kinds,
            &mut self.scopes,
            &mut self.acts,
            self.graph.dependents(task),
        )
    }

    /// Lists all tasks of which all needs are done. After `OutOfMemory` some may be listed.
    pub fn wake_all(&mut self) -> Result<(), OutOfMemory>
        ensures keeps { Keeps self.old self.new }
        ensures all { OnOk result ((u : ℕ) → u < count self.old → IsSeenTo self.new u) }
    {
        list_all(&self.graph, &self.kinds, &mut self.scopes, &mut self.acts)
    }

    /// The first listed task of those that enter or leave scopes.
    pub fn first_scope(&self) -> Option<u32>
        ensures { IsFirst self.now true result }
    {
        least(&self.scopes)
    }

    /// The first listed task of those that put or delete.
    pub fn first_act(&self) -> Option<u32>
        ensures { IsFirst self.now false result }
    {
        least(&self.acts)
    }

    /// Takes the task off the list. It takes no memory.
    pub fn take_off(&mut self, task: u32)
        ensures { TakesOff self.old self.new task }
    {
        take_off(&mut self.scopes, &mut self.acts, task);
    }
}
