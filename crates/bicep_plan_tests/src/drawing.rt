// What the files of a random program declare.
//
// There are three files, each but the last with modules of the next. Each has five declarations. A draw is the same
// each time.

use template_parts::Form;

/// How deep modules are in one another.
pub const DEPTH: u32 = 2;

/// How many declarations a file has.
pub const COUNT: u32 = 5;

/// What is declared.
#[derive(Clone, Copy, PartialEq, Eq)]
pub enum Shape {
    /// A resource.
    One,
    /// A loop of resources.
    Loop,
    /// A resource with a nested one.
    Parent,
    /// A module.
    Module,
    /// A loop of modules.
    Modules,
}

impl Shape {
    /// Whether it is a loop.
    pub fn is_loop(self) -> bool {
        match self {
            Shape::Loop | Shape::Modules => true,
            Shape::One | Shape::Parent | Shape::Module => false,
        }
    }

    /// Whether it has modules.
    pub fn is_module(self) -> bool {
        match self {
            Shape::Module | Shape::Modules => true,
            Shape::One | Shape::Loop | Shape::Parent => false,
        }
    }

    fn is_parent(self) -> bool {
        self == Shape::Parent
    }
}

/// A declaration.
#[derive(Clone, Copy)]
pub struct Drawn {
    /// Its number in the file.
    pub number: u32,
    /// The number of its resource in the template.
    pub place: u32,
    /// The number of its nested resource in the template.
    pub nested: u32,
    /// What is declared.
    pub shape: Shape,
    /// Which condition it has: 0 and 1 are none.
    pub condition: u32,
}

impl Drawn {
    /// Whether an output of the module is an output of the file too: where it has no condition and no loop.
    pub fn is_passed_on(&self) -> bool {
        self.shape == Shape::Module && self.condition < 2
    }
}

// The next random number below `below`, which is at most 65,536.
fn pick(seed: &mut u32, below: u32) -> u32 {
    *seed = seed.wrapping_mul(1_103_515_245).wrapping_add(12_345);
    (*seed >> 16) % below.max(1)
}

fn shape_of(number: u32) -> Shape {
    match number {
        0 => Shape::One,
        1 => Shape::Loop,
        2 => Shape::Parent,
        3 => Shape::Module,
        _ => Shape::Modules,
    }
}

/// A file of a random program.
#[derive(Clone, Copy)]
pub struct Drawing {
    /// The form of the template of the program.
    pub form: Form,
    /// The seed of the program.
    pub seed: u32,
    /// How deep modules are in one another in the file.
    pub depth: u32,
}

impl Drawing {
    /// The file of its modules.
    pub fn inner(self) -> Drawing {
        Drawing {
            form: self.form,
            seed: self.seed,
            depth: self.depth.saturating_sub(1),
        }
    }

    fn seed_at(self, number: u32) -> u32 {
        let seed = self.seed.wrapping_mul(747_796_405);
        let seed = seed.wrapping_add(self.depth.wrapping_mul(2_891_336_453));
        seed.wrapping_add(number.wrapping_mul(2_654_435_769))
    }

    // What is declared.
    fn shape(self, number: u32) -> Shape {
        let mut seed = self.seed_at(number);
        shape_of(pick(&mut seed, if self.depth == 0 { 3 } else { 5 }))
    }

    fn condition(self, number: u32) -> u32 {
        let mut seed = self.seed_at(number.saturating_add(100));
        pick(&mut seed, 5)
    }

    // How many declarations before that of the number have a nested resource.
    fn parents(self, number: u32) -> u32 {
        let mut count = 0;
        for before in 0..number {
            count = plus_one_if(count, self.shape(before).is_parent());
        }
        count
    }

    // How many declarations before that of the number have modules.
    fn modules(self, number: u32) -> u32 {
        let mut count = 0;
        for before in 0..number {
            count = plus_one_if(count, self.shape(before).is_module());
        }
        count
    }

    // In the first form a nested resource comes right after that around it.
    fn place_by_number(self, number: u32) -> u32 {
        number.saturating_add(self.parents(number))
    }

    // In the second form nested resources come first, then modules, and then the other resources, since their symbols
    // begin with `k`, `m` and `r`.
    fn place_by_symbol(self, number: u32) -> u32 {
        let (nested, modules) = (self.parents(COUNT), self.modules(number));
        if self.shape(number).is_module() {
            return nested.saturating_add(modules);
        }
        let before = nested.saturating_add(self.modules(COUNT));
        before.saturating_add(number.saturating_sub(modules))
    }

    fn place(self, number: u32) -> u32 {
        match self.form {
            Form::One => self.place_by_number(number),
            Form::Two => self.place_by_symbol(number),
        }
    }

    fn nested(self, number: u32) -> u32 {
        match self.form {
            Form::One => self.place_by_number(number).saturating_add(1),
            Form::Two => self.parents(number),
        }
    }

    /// The declaration of a number.
    pub fn draw(self, number: u32) -> Drawn {
        Drawn {
            number,
            place: self.place(number),
            nested: self.nested(number),
            shape: self.shape(number),
            condition: self.condition(number),
        }
    }

    /// The number in the values of the file.
    pub fn constant(self) -> u32 {
        let mut seed = self.seed_at(77);
        pick(&mut seed, 9)
    }
}

fn plus_one_if(count: u32, is_counted: bool) -> u32 {
    if is_counted {
        count.saturating_add(1)
    } else {
        count
    }
}
