// What the files of a random program are deployed with, and what follows from that.

use crate::drawing::{Drawing, Drawn, Shape};
use std::alloc::{AllocError, Global};

/// What a file is deployed with.
#[derive(Drop)]
pub struct World {
    /// Its position.
    pub position: String,
    /// The argument `a`.
    pub a: u64,
    /// The argument `c`.
    pub c: bool,
    /// The argument `xs`: each character is an item.
    pub xs: String,
    /// The argument `at`.
    pub at: String,
}

/// A file of a random program, and what it is deployed with.
#[derive(Clone, Copy)]
pub struct Scene<'a> {
    /// The file.
    pub file: Drawing,
    /// What it is deployed with.
    pub world: &'a World,
}

impl<'a> Scene<'a> {
    /// The number in the values of the file.
    pub fn constant(&self) -> u64 {
        u64::from(self.file.constant())
    }

    /// The value of `v0`.
    pub fn first(&self) -> u64 {
        self.world.a.saturating_add(self.constant())
    }

    /// The value of `v1`.
    pub fn second(&self) -> u64 {
        if self.world.c {
            self.world.a.saturating_mul(2)
        } else {
            self.constant()
        }
    }

    /// The declaration of a number.
    pub fn draw(&self, number: u32) -> Drawn {
        self.file.draw(number)
    }

    /// How many instances a declaration has.
    pub fn copies(&self, drawn: &Drawn) -> usize {
        if drawn.shape.is_loop() {
            self.world.xs.len()
        } else {
            1
        }
    }

    // Whether what is declared once is included.
    fn includes_one(&self, condition: u32) -> bool {
        match condition {
            2 => self.world.c,
            3 => !self.world.c,
            4 => self.second() > 4,
            _ => true,
        }
    }

    // Whether an instance of a loop is included.
    fn includes_copy(&self, condition: u32, copy: usize) -> bool {
        match condition {
            2 => self.world.c,
            3 => copy != 1,
            4 => self.second().saturating_add(copy as u64) > 4,
            _ => true,
        }
    }

    /// Whether an instance of a declaration is included.
    pub fn includes(&self, drawn: &Drawn, copy: usize) -> bool {
        if drawn.shape.is_loop() {
            self.includes_copy(drawn.condition, copy)
        } else {
            self.includes_one(drawn.condition)
        }
    }

    /// The item of an instance of a declaration: nothing where it is no loop.
    pub fn item(&self, drawn: &Drawn, copy: usize) -> &'a str {
        if drawn.shape.is_loop() {
            let xs = self.world.xs.as_str();
            xs.get(copy..copy.saturating_add(1)).unwrap_or("")
        } else {
            ""
        }
    }
}

// The argument `xs` of a module.
fn items<'a>(scene: &Scene<'a>, drawn: &Drawn, copy: usize) -> &'a str {
    if drawn.shape == Shape::Modules {
        return scene.item(drawn, copy);
    }
    let xs = scene.world.xs.as_str();
    xs.get(0..2).unwrap_or(xs)
}

// The argument `a` of a module.
fn sum(scene: &Scene, drawn: &Drawn, copy: usize) -> u64 {
    if drawn.shape == Shape::Modules {
        return scene.first().saturating_add(copy as u64);
    }
    scene.world.a.saturating_add(1)
}

// The position and the argument `at` of a module.
fn texts(
    alloc: Global,
    scene: &Scene,
    drawn: &Drawn,
    copy: usize,
) -> Result<(String, String), AllocError> {
    let (position, at) = (scene.world.position.as_str(), scene.world.at.as_str());
    let x = scene.item(drawn, copy);
    let position = format!(in alloc; "{position}{}.{copy}/", drawn.place)?;
    let at = format!(in alloc; "{at}m{}{x}", drawn.number)?;
    Ok((position, at))
}

/// What the file of a module is deployed with.
pub fn inside(
    alloc: Global,
    scene: &Scene,
    drawn: &Drawn,
    copy: usize,
) -> Result<World, AllocError> {
    let xs = String::from_str(alloc, items(scene, drawn, copy))?;
    let (position, at) = texts(alloc, scene, drawn, copy)?;
    Ok(World {
        position,
        a: sum(scene, drawn, copy),
        c: scene.world.c == drawn.shape.is_loop(),
        xs,
        at,
    })
}

/// What the main file is deployed with.
pub fn main_world(alloc: Global) -> Result<World, AllocError> {
    let (position, xs) = (
        String::from_str(alloc, "/")?,
        String::from_str(alloc, "pqr")?,
    );
    Ok(World {
        position,
        a: 3,
        c: true,
        xs,
        at: String::from_str(alloc, "z")?,
    })
}
