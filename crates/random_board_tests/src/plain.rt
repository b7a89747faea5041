// A plain program that computes what may happen, by looking at all tasks each time.

use given_plans::{GivenPlan, GivenTask};
use std::alloc::{AllocError, Global};

/// How far the tasks of a plan are, and what has happened.
#[derive(Drop)]
pub struct Plain {
    done: Vec<bool>,
    begun: Vec<bool>,
    refused: bool,
    /// The events with commas between.
    pub events: String,
}

/// What is said to a worker that asks for a job.
#[derive(Clone, Copy)]
pub enum Said {
    /// The job of this task.
    Begin(usize),
    /// There is none before an open Begin ends.
    Wait,
    /// There is none any more.
    End,
}

fn marks(alloc: Global, count: usize) -> Result<Vec<bool>, AllocError> {
    let mut marks = Vec::new(alloc);
    for _mark in 0..count {
        marks.push(false)?;
    }
    Ok(marks)
}

fn is_marked(marks: &[bool], place: usize) -> bool {
    match marks.get(place) {
        Some(mark) => *mark,
        None => false,
    }
}

fn mark(marks: &mut Vec<bool>, place: usize, is: bool) {
    if let Some(mark) = marks.get_mut(place) {
        *mark = is;
    }
}

fn is_scope(task: GivenTask) -> bool {
    match task {
        GivenTask::Enter(_) => true,
        GivenTask::Put(_) => false,
        GivenTask::Leave(_) => true,
    }
}

fn word(task: GivenTask) -> &'static str {
    match task {
        GivenTask::Enter(_) => "enter",
        GivenTask::Put(_) => "begin",
        GivenTask::Leave(_) => "leave",
    }
}

// Adds an event: a word, the number of a task, and what is after it.
fn note(events: &mut String, word: &str, place: usize, rest: &str) -> Result<(), AllocError> {
    if !events.is_empty() {
        events.push_str(", ")?;
    }
    write!(events, "{word} {place}{rest}")
}

impl Plain {
    /// Nothing has happened to this many tasks.
    pub fn new(alloc: Global, count: usize) -> Result<Plain, AllocError> {
        let done = marks(alloc, count)?;
        Ok(Plain {
            done,
            begun: marks(alloc, count)?,
            refused: false,
            events: String::new(alloc),
        })
    }

    /// Whether a Begin of the task is open.
    pub fn is_begun(&self, place: usize) -> bool {
        is_marked(self.begun.as_slice(), place)
    }

    // Whether nothing that the task needs is undone.
    fn is_free(&self, plan: &GivenPlan, task: GivenTask) -> bool {
        for (place, other) in plan.tasks.iter().enumerate() {
            if plan.needs(task, *other) && !is_marked(self.done.as_slice(), place) {
                return false;
            }
        }
        true
    }

    // Whether the task is neither done nor begun, and needs nothing that is undone.
    fn may_begin(&self, plan: &GivenPlan, place: usize, task: GivenTask) -> bool {
        if is_marked(self.done.as_slice(), place) || self.is_begun(place) {
            return false;
        }
        self.is_free(plan, task)
    }

    // The first task of this sort that may begin.
    fn first(&self, plan: &GivenPlan, scopes: bool) -> Option<(usize, GivenTask)> {
        for (place, task) in plan.tasks.iter().enumerate() {
            if is_scope(*task) == scopes && self.may_begin(plan, place, *task) {
                return Some((place, *task));
            }
        }
        None
    }

    // Enters or leaves a scope.
    fn pass(&mut self, place: usize, task: GivenTask) -> Result<(), AllocError> {
        mark(&mut self.done, place, true);
        note(&mut self.events, word(task), place, "")
    }

    // Scopes are entered and left, each time the first that may be.
    fn settle(&mut self, plan: &GivenPlan) -> Result<(), AllocError> {
        for _scope in 0..plan.tasks.len() {
            match self.first(plan, true) {
                Some((place, task)) => self.pass(place, task)?,
                None => return Ok(()),
            }
        }
        Ok(())
    }

    // No job: where a Begin is open, its end is waited for.
    fn pause(&self) -> Said {
        for begun in &self.begun {
            if *begun {
                return Said::Wait;
            }
        }
        Said::End
    }

    // Begins the first put that may begin.
    fn begin(&mut self, plan: &GivenPlan) -> Result<Said, AllocError> {
        match self.first(plan, false) {
            Some((place, task)) => {
                mark(&mut self.begun, place, true);
                note(&mut self.events, word(task), place, " 7")?;
                Ok(Said::Begin(place))
            }
            None => Ok(self.pause()),
        }
    }

    /// What is said to worker 7, which asks for a job.
    pub fn next(&mut self, plan: &GivenPlan) -> Result<Said, AllocError> {
        if self.refused {
            return Ok(self.pause());
        }
        self.settle(plan)?;
        self.begin(plan)
    }

    /// What is put by the task is stored.
    pub fn store(&mut self, place: usize) -> Result<(), AllocError> {
        mark(&mut self.begun, place, false);
        mark(&mut self.done, place, true);
        note(&mut self.events, "stored", place, "")
    }

    /// The put of the task is refused.
    pub fn refuse(&mut self, place: usize) -> Result<(), AllocError> {
        mark(&mut self.begun, place, false);
        self.refused = true;
        note(&mut self.events, "refused", place, " Quota")
    }

    /// The job of the task is given back.
    pub fn give_back(&mut self, place: usize) -> Result<(), AllocError> {
        mark(&mut self.begun, place, false);
        note(&mut self.events, "back", place, "")
    }
}
