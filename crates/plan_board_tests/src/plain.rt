// A plain program that computes what may happen in the deployment of a random template, by looking at all its resources
// each time.

use crate::any_order::{ROUNDS, ends_first, is_given_back, turns};
use crate::drawn::{count_of, following, is_refused, name_of, output_of, resource_of};
use std::alloc::{AllocError, Global};

// What the ids of all resources begin with.
const GROUP: &str = "/subscriptions/s/resourceGroups/g/providers/a.b/c/";

/// How far the resources of the template of a seed are, and what has happened.
#[derive(Drop)]
pub struct Plain {
    seed: u64,
    // What was stored of each resource; 0 where nothing was.
    stored: Vec<u64>,
    begun: Vec<bool>,
    entered: bool,
    left: bool,
    // The resource whose put was refused first.
    refused: Option<usize>,
    // The events with commas between.
    events: String,
    // The lines on jobs.
    lines: String,
}

fn numbers(alloc: Global, count: usize) -> Result<Vec<u64>, AllocError> {
    let mut numbers = Vec::new(alloc);
    for _number in 0..count {
        numbers.push(0)?;
    }
    Ok(numbers)
}

fn marks(alloc: Global, count: usize) -> Result<Vec<bool>, AllocError> {
    let mut marks = Vec::new(alloc);
    for _mark in 0..count {
        marks.push(false)?;
    }
    Ok(marks)
}

fn mark(marks: &mut Vec<bool>, place: usize, is: bool) {
    if let Some(mark) = marks.get_mut(place) {
        *mark = is;
    }
}

fn keep(numbers: &mut Vec<u64>, place: usize, value: u64) {
    if let Some(number) = numbers.get_mut(place) {
        *number = value;
    }
}

// How many of the resources before one are put.
fn put_before(seed: u64, number: usize) -> usize {
    let mut count: usize = 0;
    for other in 0..number {
        if resource_of(seed, other).included {
            count = count.saturating_add(1);
        }
    }
    count
}

// The number of the task that puts a resource.
fn task_of(seed: u64, number: usize) -> usize {
    put_before(seed, number).saturating_add(1)
}

impl Plain {
    /// Nothing has happened.
    pub fn new(alloc: Global, seed: u64) -> Result<Plain, AllocError> {
        let stored = numbers(alloc, count_of(seed))?;
        Ok(Plain {
            seed,
            stored,
            begun: marks(alloc, count_of(seed))?,
            entered: false,
            left: false,
            refused: None,
            events: String::new(alloc),
            lines: String::new(alloc),
        })
    }

    // What was stored of a resource; 0 where nothing was.
    fn value(&self, number: usize) -> u64 {
        match self.stored.get(number) {
            Some(value) => *value,
            None => 0,
        }
    }

    fn is_begun(&self, number: usize) -> bool {
        match self.begun.get(number) {
            Some(begun) => *begun,
            None => false,
        }
    }

    // Whether a resource that is named in `dependsOn` is stored, or not put at all.
    fn is_over(&self, other: usize) -> bool {
        !resource_of(self.seed, other).included || self.value(other) > 0
    }

    // Whether the root is entered, and what a resource depends on is over.
    fn is_free(&self, number: usize) -> bool {
        let drawn = resource_of(self.seed, number);
        let undone = self.value(number) == 0 && !self.is_begun(number);
        let over = match drawn.depends {
            Some(other) => self.is_over(other),
            None => true,
        };
        self.entered && drawn.included && undone && over
    }

    // What is put of a resource, where what its body reads is stored; else 0.
    fn body(&self, number: usize) -> u64 {
        match resource_of(self.seed, number).reads {
            Some(other) => match self.value(other) {
                0 => 0,
                value => value.saturating_add(1),
            },
            None => 1,
        }
    }

    // Whether each resource that is put is stored.
    fn is_all_stored(&self) -> bool {
        for number in 0..count_of(self.seed) {
            if !self.is_over(number) {
                return false;
            }
        }
        true
    }

    fn note(&mut self, word: &str, task: usize, rest: &str) -> Result<(), AllocError> {
        if !self.events.is_empty() {
            self.events.push_str(", ")?;
        }
        write!(self.events, "{word} {task}{rest}")
    }

    // Whether the root may be left: each put is stored, and the state that the output reads is there.
    fn may_leave(&self) -> bool {
        let known = match output_of(self.seed) {
            Some(number) => self.value(number) > 0,
            None => true,
        };
        self.is_all_stored() && !self.left && known
    }

    // The root is entered and left, where it may be.
    fn settle(&mut self) -> Result<(), AllocError> {
        if !self.entered {
            self.entered = true;
            self.note("enter", 0, "")?;
        }
        if self.may_leave() {
            self.left = true;
            let task = task_of(self.seed, count_of(self.seed));
            self.note("leave", task, "")?;
        }
        Ok(())
    }

    // The first resource that may be put.
    fn first(&self) -> Option<usize> {
        for number in 0..count_of(self.seed) {
            if self.is_free(number) && self.body(number) > 0 {
                return Some(number);
            }
        }
        None
    }

    fn begin(&mut self, number: usize, worker: u32) -> Result<(), AllocError> {
        mark(&mut self.begun, number, true);
        let task = task_of(self.seed, number);
        self.note("begin", task, if worker == 0 { " 0" } else { " 1" })?;
        let name = name_of(self.seed, number);
        let body = self.body(number);
        write!(self.lines, "begin {task} {worker} ")?;
        self.lines.push_str(GROUP)?;
        writeln!(self.lines, "{name} {{\"properties\":{{\"n\":{body}}}}}")
    }

    // The resource that a worker begins to put, which asks for a job.
    fn next(&mut self, worker: u32) -> Result<Option<usize>, AllocError> {
        if self.refused.is_some() {
            return Ok(None);
        }
        self.settle()?;
        match self.first() {
            Some(number) => {
                self.begin(number, worker)?;
                Ok(Some(number))
            }
            None => Ok(None),
        }
    }

    fn store(&mut self, number: usize) -> Result<(), AllocError> {
        let body = self.body(number);
        keep(&mut self.stored, number, body);
        let task = task_of(self.seed, number);
        self.note("stored", task, "")?;
        writeln!(self.lines, "stored {task}")
    }

    fn refuse(&mut self, number: usize) -> Result<(), AllocError> {
        if self.refused.is_none() {
            self.refused = Some(number);
        }
        let task = task_of(self.seed, number);
        self.note("refused", task, " Quota")?;
        writeln!(self.lines, "refused {task} Quota")
    }

    fn give_back(&mut self, number: usize) -> Result<(), AllocError> {
        let task = task_of(self.seed, number);
        self.note("back", task, "")?;
        writeln!(self.lines, "back {task}")
    }

    // The put of a resource ends.
    fn end(&mut self, number: usize, random: u64) -> Result<(), AllocError> {
        mark(&mut self.begun, number, false);
        if is_given_back(random) {
            self.give_back(number)
        } else if is_refused(self.seed, number) {
            self.refuse(number)
        } else {
            self.store(number)
        }
    }

    // While a put is open, another one is begun, and one of the two ends. The other one is returned.
    fn exchanged(&mut self, held: usize, random: u64) -> Result<usize, AllocError> {
        match self.next(1)? {
            Some(other) => if ends_first(random) {
                self.end(held, random)?;
                Ok(other)
            } else {
                self.end(other, random)?;
                Ok(held)
            },
            None => Ok(held),
        }
    }

    // While a put is open, others are begun. All end.
    fn hold(&mut self, number: usize, start: u64) -> Result<(), AllocError> {
        let mut held = number;
        let mut random = start;
        for _turn in 0..turns(start) {
            random = following(random);
            held = self.exchanged(held, random)?;
        }
        self.end(held, following(random))
    }

    fn drive(&mut self, start: u64) -> Result<(), AllocError> {
        let mut random = start;
        for _round in 0..ROUNDS {
            random = following(random);
            match self.next(0)? {
                Some(number) => self.hold(number, random)?,
                None => return Ok(()),
            }
        }
        Ok(())
    }

    // Whether what a resource reads is not put at all, or the output does, where nothing else is waited for.
    fn lacks_value(&self) -> bool {
        for number in 0..count_of(self.seed) {
            if let Some(other) = resource_of(self.seed, number).reads {
                if self.is_free(number) && !resource_of(self.seed, other).included {
                    return true;
                }
            }
        }
        self.is_all_stored() && !self.left
    }

    fn push_refused(&self, out: &mut String, number: usize) -> Result<(), AllocError> {
        let name = name_of(self.seed, number);
        out.push_str("Failed first: Quota: ")?;
        out.push_str(GROUP)?;
        writeln!(out, "{name}")
    }

    fn push_succeeded(&self, out: &mut String) -> Result<(), AllocError> {
        out.push_str("Succeeded first\n")?;
        match output_of(self.seed) {
            Some(number) => writeln!(out, "o={}", self.value(number)),
            None => Ok(()),
        }
    }

    // Adds how the report begins.
    fn push_report(&self, out: &mut String) -> Result<(), AllocError> {
        match self.refused {
            Some(number) => self.push_refused(out, number),
            None => if self.left {
                self.push_succeeded(out)
            } else if self.lacks_value() {
                out.push_str("Failed first: NoValue: ")
            } else {
                out.push_str("Failed first: CircularDependency: ")
            },
        }
    }

    fn discard(self) {}

    fn push_all(&self, out: &mut String) -> Result<(), AllocError> {
        out.push_str(self.lines.as_str())?;
        writeln!(out, "{}", self.events.as_str())?;
        self.push_report(out)
    }
}

/// What comes of the deployment of the template of a seed, in an order that follows from the number, up to the path of
/// what has no value, or to the tasks that wait for one another.
pub fn plain_run(alloc: Global, seed: u64, number: u64) -> Result<String, AllocError> {
    let mut plain = Plain::new(alloc, seed)?;
    let driven = plain.drive(number);
    let mut out = String::new(alloc);
    let pushed = plain.push_all(&mut out);
    plain.discard();
    driven?;
    pushed?;
    Ok(out)
}
