// The plans that are timed.
ghost use Rattle.std.specs.Prelude.{IfSome};
ghost use Rattle.given_plans.specs.Given.{IsGiven};

use given_plans::{GivenPlan, GivenTask};
use sample_boards::plans::plan_of;
use std::alloc::{AllocError, Global};

/// What a plan is like.
#[derive(Clone, Copy, Debug, PartialEq, Eq)]
pub enum Shape {
    /// 2,000 instances, one after another.
    Chain,
    /// 2,000 instances side by side.
    Fan,
    /// 2,000 instances side by side, and 100 scopes in one another.
    Scopes,
}

/// The shapes in their order.
pub const SHAPES: [Shape; 3] = [Shape::Chain, Shape::Fan, Shape::Scopes];

/// A shape in words.
pub fn words(shape: Shape) -> &'static str {
    match shape {
        Shape::Chain => "2000 instances one after another",
        Shape::Fan => "2000 instances side by side",
        Shape::Scopes => "2000 instances side by side, and 100 scopes in one another",
    }
}

// The size of the batches, less one.
fn size(shape: Shape) -> u32 {
    match shape {
        Shape::Chain => 0,
        Shape::Fan => 1999,
        Shape::Scopes => 1999,
    }
}

// How many scopes there are.
fn depth(shape: Shape) -> u32 {
    match shape {
        Shape::Chain => 1,
        Shape::Fan => 1,
        Shape::Scopes => 100,
    }
}

fn tasks(alloc: Global, depth: u32) -> Result<Vec<GivenTask>, AllocError> {
    let mut tasks = Vec::new(alloc);
    for scope in 0..depth {
        tasks.push(GivenTask::Enter(scope))?;
    }
    for index in 0..2000 {
        tasks.push(GivenTask::Put(index))?;
    }
    for scope in 0..depth {
        tasks.push(GivenTask::Leave(scope))?;
    }
    Ok(tasks)
}

/// The plan of a shape; none where memory is out.
pub fn given(alloc: Global, shape: Shape) -> Option<GivenPlan>
    ensures { IfSome result (λ p. IsGiven p) }
{
    plan_of(alloc, size(shape), tasks(alloc, depth(shape)).ok())
}
