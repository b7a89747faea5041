//! Times plans by hand: of deployments of up to 2,000 instances, of loops, chains of variables and nested scopes.
//!
//! Without arguments the program prints what it would time, which is the same every time. With the argument `measure`
//! it makes each plan by the clock, several times.
#![tactic(auto)]

ghost use Rattle.std.specs.Prelude.{◌≡◌, IfSome, None};
ghost use Rattle.arm_template.specs.States.{IsStated};
ghost use Rattle.template_tree.specs.View.{template_tree};

mod shapes;

use arm_env::stop::let_go;
use arm_ids::{Held, Place};
use arm_plan::{Plan, PlanFault, plan};
use arm_template::{Template, read_template};
use arm_value::{Text, Value};
use shapes::{SHAPES, Shape, spelled, words};
use stated_names::stated_names_differ;
use std::alloc::{AllocError, Global};
use std::io::Print;
use std::rt::{Clock, Env};
use std::time::{Duration, Instant};
use std::{env, io};
use template_parameters::bind;
use template_parts::{Bound, Given, Mode};

// How often each plan is made.
const TURNS: u32 = 5;

fn micros(elapsed: Duration) -> u64 {
    u64::try_from(elapsed.as_micros()).unwrap_or(u64::MAX)
}

fn texts(alloc: Global, first: &str, second: &str) -> Result<(Text, Text), AllocError> {
    let text = Text::of(alloc, first)?;
    Ok((text, Text::of(alloc, second)?))
}

fn place_of(alloc: Global) -> Result<Place, AllocError> {
    let (subscription, group) = texts(alloc, "s", "g")?;
    let (location, deployment) = texts(alloc, "westeurope", "first")?;
    Ok(Place {
        subscription,
        group,
        location,
        deployment,
    })
}

// Nothing; the part is dropped.
fn nothing<T: Drop, R>(_part: T) -> Option<R>
    ensures { result ≡ None }
{
    None
}

// The template that the value states, if it states one.
fn stated(alloc: Global, value: &Value) -> Option<Template>
    ensures { IfSome result (λ t. IsStated (template_tree t)) }
{
    match read_template(alloc, value) {
        Ok(template) => Some(template),
        Err(fault) => nothing(fault),
    }
}

// The template that the text states, if it states one.
fn read(alloc: Global, text: &str) -> Option<Template>
    ensures { IfSome result (λ t. IsStated (template_tree t)) }
{
    match Value::from_json(alloc, text.as_bytes()) {
        Ok(value) => {
            let template = stated(alloc, &value);
            let_go(value);
            template
        }
        Err(fault) => nothing(fault),
    }
}

// What the parameters are bound to, if none has to be given.
fn bound(alloc: Global, template: &Template) -> Option<Bound> {
    let given = Given::new(alloc);
    let bound = bind(alloc, template, &given);
    let_go(given);
    match bound {
        Ok(bound) => Some(bound),
        Err(fault) => nothing(fault),
    }
}

// How many tasks and needs the plan has, or none where there is no plan.
fn counts(found: &Result<Plan, PlanFault>) -> (usize, usize) {
    match found {
        Ok(plan) => (plan.tasks.len(), plan.needs.len()),
        Err(_) => (0, 0),
    }
}

// The same of the plan of the template.
fn planned(alloc: Global, template: &Template, bound: &Bound, place: &Place) -> (usize, usize)
    requires { IsStated (template_tree template.now) }
{
    let held = Held::new(alloc);
    stated_names_differ();
    let found = plan(alloc, template, bound, place, Mode::Incremental, &held);
    let counts = counts(&found);
    let_go((found, held));
    counts
}

// The microseconds of making the plan and dropping it, and how many tasks and needs it has.
fn timed<R: Clock + Alloc<A = Global>>(
    rt: &R,
    template: &Template,
    bound: &Bound,
    place: &Place,
) -> io::Result<(u64, (usize, usize))>
    requires { IsStated (template_tree template.now) }
{
    let start = Instant::now(rt)?;
    let counts = planned(rt.alloc(), template, bound, place);
    let elapsed = start.elapsed(rt)?;
    Ok((micros(elapsed), counts))
}

// The least microseconds of several turns, and how many tasks and needs the plan has.
fn least<R: Clock + Alloc<A = Global>>(
    rt: &R,
    template: &Template,
    bound: &Bound,
    place: &Place,
) -> io::Result<(u64, (usize, usize))>
    requires { IsStated (template_tree template.now) }
{
    let mut least = u64::MAX;
    let mut counts = (0, 0);
    for _turn in 0..TURNS {
        let (time, found) = timed(rt, template, bound, place)?;
        least = least.min(time);
        counts = found;
    }
    Ok((least, counts))
}

fn measure_plan<R: Clock + Print + Alloc<A = Global>>(
    rt: &R,
    template: &Template,
    bound: &Bound,
    shape: Shape,
) -> io::Result<()>
    requires { IsStated (template_tree template.now) }
{
    let place = place_of(rt.alloc())?;
    let least = least(rt, template, bound, &place);
    let_go(place);
    let (time, (tasks, needs)) = least?;
    let words = words(rt.alloc(), shape)?;
    println!(rt; "{words}: {tasks} tasks and {needs} needs in {time} us")
}

fn measure_template<R: Clock + Print + Alloc<A = Global>>(
    rt: &R,
    template: &Template,
    shape: Shape,
) -> io::Result<()>
    requires { IsStated (template_tree template.now) }
{
    match bound(rt.alloc(), template) {
        Some(bound) => {
            let measured = measure_plan(rt, template, &bound, shape);
            let_go(bound);
            measured
        }
        None => println!(rt; "a parameter has no value"),
    }
}

fn measure<R: Clock + Print + Alloc<A = Global>>(rt: &R, shape: Shape) -> io::Result<()> {
    let text = spelled(rt.alloc(), shape)?;
    let template = read(rt.alloc(), text.as_str());
    let_go(text);
    match template {
        Some(template) => {
            let measured = measure_template(rt, &template, shape);
            let_go(template);
            measured
        }
        None => println!(rt; "no template"),
    }
}

fn list<R: Print + Alloc<A = Global>>(rt: &R, shape: Shape) -> io::Result<()> {
    let bytes = spelled(rt.alloc(), shape)?.len();
    let words = words(rt.alloc(), shape)?;
    println!(rt; "{words}: {bytes} bytes")
}

// Whether the first word after the program's name is `measure`.
fn is_measured<R: Env + Alloc<A = Global>>(rt: &R) -> Result<bool, AllocError> {
    let Ok(args) = env::args(rt) else {
        return Ok(false);
    };
    let words: Vec<String> = args.skip(1).collect(rt.alloc())?;
    match words.first() {
        Some(word) => Ok(word.as_str() == "measure"),
        None => Ok(false),
    }
}

fn main(rt: HostRuntime) -> io::Result<()> {
    let measured = is_measured(&rt)?;
    for shape in &SHAPES {
        if measured {
            measure(&rt, *shape)?;
        } else {
            list(&rt, *shape)?;
        }
    }
    Ok(())
}
