// What a random program has, in lines of text: values, conditions, names, and what tasks need.

use crate::drawing::{COUNT, DEPTH, Drawing, Drawn, Shape};
use crate::worlds::{Scene, World, inside, main_world};
use sample_programs::programs::letting_go;
use std::alloc::{AllocError, Global};
use template_parts::Form;

// Lines, and how many tasks there are: two for a file, and one for a resource that is put.
#[derive(Drop)]
struct Lines {
    text: String,
    tasks: u32,
}

// What is before an item: a comma, but not before the first.
fn comma(place: usize) -> &'static str {
    if place > 0 { "," } else { "" }
}

fn push_item(out: &mut String, place: usize, x: char) -> Result<(), AllocError> {
    write!(out, "{}\"{x}\"", comma(place))
}

fn push_items(out: &mut String, xs: &str) -> Result<(), AllocError> {
    for (place, x) in xs.chars().enumerate() {
        push_item(out, place, x)?;
    }
    Ok(())
}

fn push_numbered_item(
    out: &mut String,
    place: usize,
    x: char,
    number: u64,
) -> Result<(), AllocError> {
    write!(out, "{}\"{x}{number}\"", comma(place))
}

// The items, each with a number after it.
fn push_numbered(out: &mut String, xs: &str, number: u64) -> Result<(), AllocError> {
    for (place, x) in xs.chars().enumerate() {
        push_numbered_item(out, place, x, number)?;
    }
    Ok(())
}

// As many numbers as there are items, from this one on.
fn push_numbers(out: &mut String, count: usize, from: u64) -> Result<(), AllocError> {
    for place in 0..count {
        write!(out, "{}{}", comma(place), from.saturating_add(place as u64))?;
    }
    Ok(())
}

// The beginning of a line on the file.
fn push_word(out: &mut String, scene: &Scene, word: &str) -> Result<(), AllocError> {
    write!(out, "{word} {}", scene.world.position.as_str())
}

// The beginning of a line on a variable or an output.
fn push_head(
    out: &mut String,
    scene: &Scene,
    (word, name): (&str, &str),
) -> Result<(), AllocError> {
    let position = scene.world.position.as_str();
    write!(out, "{word} {position} {name} ")
}

// The line of a number.
fn push_number(
    out: &mut String,
    scene: &Scene,
    head: (&str, &str),
    number: u64,
) -> Result<(), AllocError> {
    push_head(out, scene, head)?;
    write!(out, "{number}\n")
}

// The beginning of the line of `v4` or of the output `o3`.
fn push_members(out: &mut String, scene: &Scene, head: (&str, &str)) -> Result<(), AllocError> {
    push_head(out, scene, head)?;
    out.push_str("{\"x\":[")?;
    push_items(out, scene.world.xs.as_str())
}

// The line of `v4` or of the output `o3`.
fn push_object(out: &mut String, scene: &Scene, head: (&str, &str)) -> Result<(), AllocError> {
    push_members(out, scene, head)?;
    write!(out, "],\"y\":[{},{}]}}\n", scene.constant(), scene.world.c)
}

// The line of `v2`.
fn push_mark(out: &mut String, scene: &Scene) -> Result<(), AllocError> {
    push_head(out, scene, ("variable", "v2"))?;
    let at = scene.world.at.as_str();
    write!(out, "\"{{{at}}}{}\"\n", scene.first())
}

// The line of `v3`.
fn push_sums(out: &mut String, scene: &Scene) -> Result<(), AllocError> {
    push_head(out, scene, ("variable", "v3"))?;
    out.push('[')?;
    push_numbers(out, scene.world.xs.len(), scene.second())?;
    out.push_str("]\n")
}

// The lines of `v0` and `v1`.
fn push_plain(out: &mut String, scene: &Scene) -> Result<(), AllocError> {
    push_number(out, scene, ("variable", "v0"), scene.first())?;
    push_number(out, scene, ("variable", "v1"), scene.second())
}

// The lines of `v2` and `v3`.
fn push_derived(out: &mut String, scene: &Scene) -> Result<(), AllocError> {
    push_mark(out, scene)?;
    push_sums(out, scene)
}

fn push_variables(out: &mut String, scene: &Scene) -> Result<(), AllocError> {
    push_plain(out, scene)?;
    push_derived(out, scene)?;
    push_object(out, scene, ("variable", "v4"))
}

// The value of the output `o1`.
fn push_label(out: &mut String, scene: &Scene) -> Result<(), AllocError> {
    let at = scene.world.at.as_str();
    let (v0, v1) = (scene.first(), scene.second());
    write!(out, "\"{{{at}}}{v0}/{v1}\"\n")
}

// The line of the output `o2`.
fn push_marks(out: &mut String, scene: &Scene) -> Result<(), AllocError> {
    push_head(out, scene, ("output", "o2"))?;
    out.push('[')?;
    push_numbered(out, scene.world.xs.as_str(), scene.first())?;
    out.push_str("]\n")
}

// The lines of the outputs `o0` and `o1`.
fn push_first_outputs(out: &mut String, scene: &Scene) -> Result<(), AllocError> {
    push_number(out, scene, ("output", "o0"), scene.constant())?;
    push_head(out, scene, ("output", "o1"))?;
    push_label(out, scene)
}

fn push_outputs(out: &mut String, scene: &Scene) -> Result<(), AllocError> {
    push_first_outputs(out, scene)?;
    push_marks(out, scene)?;
    push_object(out, scene, ("output", "o3"))
}

// The line on whether an instance is included.
fn push_condition(
    out: &mut String,
    scene: &Scene,
    (place, copy): (u32, usize),
    included: bool,
) -> Result<(), AllocError> {
    push_word(out, scene, "included")?;
    write!(out, "{place}.{copy} {included}\n")
}

// The name of an instance, as its declaration has it.
fn push_own_name(
    out: &mut String,
    scene: &Scene,
    drawn: &Drawn,
    copy: usize,
) -> Result<(), AllocError> {
    let at = scene.world.at.as_str();
    let letter = if drawn.shape.is_module() { "m" } else { "r" };
    write!(out, "{at}-{letter}{}", drawn.number)?;
    if drawn.shape.is_loop() {
        return write!(out, "-{}", scene.item(drawn, copy));
    }
    Ok(())
}

// The beginning of a line on the name of an instance.
fn push_named(
    out: &mut String,
    scene: &Scene,
    (place, copy): (u32, usize),
) -> Result<(), AllocError> {
    push_word(out, scene, "name")?;
    write!(out, "{place}.{copy} \"")
}

// The line on the name of an instance.
fn push_name(
    out: &mut String,
    scene: &Scene,
    drawn: &Drawn,
    copy: usize,
) -> Result<(), AllocError> {
    push_named(out, scene, (drawn.place, copy))?;
    push_own_name(out, scene, drawn, copy)?;
    out.push_str("\"\n")
}

// The line on the name of a nested resource.
fn push_nested_name(out: &mut String, scene: &Scene, drawn: &Drawn) -> Result<(), AllocError> {
    push_named(out, scene, (drawn.nested, 0))?;
    push_own_name(out, scene, drawn, 0)?;
    write!(out, "/k{}\"\n", scene.second())
}

// The line on what the first task of an instance needs in its scope. A word is before the position of the instance, and
// a slash after that of a scope.
fn push_entered(
    out: &mut String,
    scope: &str,
    (word, slash): (&str, &str),
    (place, copy): (u32, usize),
) -> Result<(), AllocError> {
    write!(
        out,
        "{word} {scope}{place}.{copy}{slash} needs enter {scope}\n"
    )
}

// The line on what needs the last task of an instance in its scope.
fn push_left(
    out: &mut String,
    scope: &str,
    (word, slash): (&str, &str),
    (place, copy): (u32, usize),
) -> Result<(), AllocError> {
    write!(
        out,
        "leave {scope} needs {word} {scope}{place}.{copy}{slash}\n"
    )
}

// The lines on what a put needs, and on what needs it, in its scope.
fn push_put_needs(
    out: &mut String,
    scene: &Scene,
    instance: (u32, usize),
) -> Result<(), AllocError> {
    let scope = scene.world.position.as_str();
    push_entered(out, scope, ("put", ""), instance)?;
    push_left(out, scope, ("put", ""), instance)
}

// The lines on what the scope of a module needs, and on what needs it.
fn push_scope_needs(
    out: &mut String,
    scene: &Scene,
    instance: (u32, usize),
) -> Result<(), AllocError> {
    let scope = scene.world.position.as_str();
    push_entered(out, scope, ("enter", "/"), instance)?;
    push_left(out, scope, ("leave", "/"), instance)
}

// The lines on what the task of an instance needs, and on what needs it.
fn push_needs(
    out: &mut String,
    scene: &Scene,
    drawn: &Drawn,
    copy: usize,
) -> Result<(), AllocError> {
    if drawn.shape.is_module() {
        push_scope_needs(out, scene, (drawn.place, copy))
    } else {
        push_put_needs(out, scene, (drawn.place, copy))
    }
}

// The lines on the put of a nested resource.
fn push_nested_needs(out: &mut String, scene: &Scene, drawn: &Drawn) -> Result<(), AllocError> {
    let scope = scene.world.position.as_str();
    let (nested, place) = (drawn.nested, drawn.place);
    push_put_needs(out, scene, (nested, 0))?;
    write!(out, "put {scope}{nested}.0 needs put {scope}{place}.0\n")
}

// The lines on a nested resource.
fn push_nested(
    out: &mut Lines,
    scene: &Scene,
    drawn: &Drawn,
    included: bool,
) -> Result<(), AllocError> {
    push_condition(&mut out.text, scene, (drawn.nested, 0), included)?;
    if included {
        out.tasks = out.tasks.saturating_add(1);
        push_nested_needs(&mut out.text, scene, drawn)?;
        return push_nested_name(&mut out.text, scene, drawn);
    }
    Ok(())
}

// How many tasks an instance has: a file is entered and left.
fn tasks(drawn: &Drawn) -> u32 {
    if drawn.shape.is_module() { 2 } else { 1 }
}

// The lines on an instance without what is nested in it.
fn push_own(
    out: &mut Lines,
    scene: &Scene,
    drawn: &Drawn,
    copy: usize,
    included: bool,
) -> Result<(), AllocError> {
    push_condition(&mut out.text, scene, (drawn.place, copy), included)?;
    if included {
        out.tasks = out.tasks.saturating_add(tasks(drawn));
        push_needs(&mut out.text, scene, drawn, copy)?;
        return push_name(&mut out.text, scene, drawn, copy);
    }
    Ok(())
}

// The lines on an instance.
fn push_instance(
    out: &mut Lines,
    scene: &Scene,
    drawn: &Drawn,
    copy: usize,
) -> Result<(), AllocError> {
    let included = scene.includes(drawn, copy);
    push_own(out, scene, drawn, copy, included)?;
    if drawn.shape == Shape::Parent {
        return push_nested(out, scene, drawn, included && scene.world.a < 5);
    }
    Ok(())
}

// The line on the output of the file that is one of a module.
fn push_passed_on(
    out: &mut String,
    scene: &Scene,
    drawn: &Drawn,
    world: &World,
) -> Result<(), AllocError> {
    push_word(out, scene, "output")?;
    write!(out, " q{} ", drawn.number)?;
    let inner = Scene {
        file: scene.file.inner(),
        world,
    };
    push_label(out, &inner)
}

// Adds what the file of a module is deployed with, where it is included.
fn add_inside(
    out: &mut Lines,
    alloc: Global,
    scene: &Scene,
    drawn: &Drawn,
    copy: usize,
) -> Result<Option<World>, AllocError> {
    if !drawn.shape.is_module() || !scene.includes(drawn, copy) {
        return Ok(None);
    }
    let world = inside(alloc, scene, drawn, copy)?;
    if drawn.is_passed_on() {
        push_passed_on(&mut out.text, scene, drawn, &world)?;
    }
    Ok(Some(world))
}

// The lines on an instance, and what the file of its module is deployed with.
fn push_copy(
    out: &mut Lines,
    alloc: Global,
    scene: &Scene,
    (drawn, copy): (&Drawn, usize),
    worlds: &mut Vec<World>,
) -> Result<(), AllocError> {
    push_instance(out, scene, drawn, copy)?;
    if let Some(world) = add_inside(out, alloc, scene, drawn, copy)? {
        worlds.push(world)?;
    }
    Ok(())
}

// The lines on a declaration, and what the files of its modules are deployed with.
fn push_declared(
    out: &mut Lines,
    alloc: Global,
    scene: &Scene,
    drawn: &Drawn,
    worlds: &mut Vec<World>,
) -> Result<(), AllocError> {
    for copy in 0..scene.copies(drawn) {
        push_copy(out, alloc, scene, (drawn, copy), worlds)?;
    }
    Ok(())
}

// The lines on a file, and what the files of its modules are deployed with.
fn push_file(
    out: &mut Lines,
    alloc: Global,
    scene: &Scene,
    worlds: &mut Vec<World>,
) -> Result<(), AllocError> {
    push_variables(&mut out.text, scene)?;
    push_outputs(&mut out.text, scene)?;
    for number in 0..COUNT {
        push_declared(out, alloc, scene, &scene.draw(number), worlds)?;
    }
    Ok(())
}

// The lines on a file that is deployed with each of these, and what the files of its modules are deployed with.
fn push_files(
    out: &mut Lines,
    alloc: Global,
    file: Drawing,
    worlds: &[World],
) -> Result<Vec<World>, AllocError> {
    let mut inner = Vec::new(alloc);
    for world in worlds {
        let scene = Scene { file, world };
        push_file(out, alloc, &scene, &mut inner)?;
    }
    Ok(inner)
}

// The same, and these are dropped.
fn push_level(
    out: &mut Lines,
    alloc: Global,
    file: Drawing,
    worlds: Vec<World>,
) -> Result<Vec<World>, AllocError> {
    let inner = push_files(out, alloc, file, worlds.as_slice());
    letting_go(inner, worlds)
}

fn main_worlds(alloc: Global) -> Result<Vec<World>, AllocError> {
    let mut worlds = Vec::new(alloc);
    worlds.push(main_world(alloc)?)?;
    Ok(worlds)
}

// Adds what the program of a seed has, whose template is of the form.
fn push_program(out: &mut Lines, alloc: Global, form: Form, seed: u32) -> Result<(), AllocError> {
    let mut worlds = main_worlds(alloc)?;
    for above in 0..DEPTH {
        let depth = DEPTH - above;
        worlds = push_level(out, alloc, Drawing { form, seed, depth }, worlds)?;
    }
    let depth = 0;
    push_level(out, alloc, Drawing { form, seed, depth }, worlds)?;
    Ok(())
}

/// What the program of a seed has, whose template is of the form, in lines, and how many tasks there are.
pub fn program_lines(alloc: Global, form: Form, seed: u32) -> Result<String, AllocError> {
    let mut out = Lines {
        text: String::new(alloc),
        tasks: 2,
    };
    push_program(&mut out, alloc, form, seed)?;
    let Lines { text, tasks } = out;
    let mut text = text;
    writeln!(text, "count {tasks}")?;
    Ok(text)
}
