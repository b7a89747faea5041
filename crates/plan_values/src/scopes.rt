// What is told of sources in a scope, and in the instances of its resources.
ghost use Rattle.std.specs.Prelude.{◌≡◌, ◌<◌, length};
ghost use Rattle.arm_value.specs.View.{json};
ghost use Rattle.plan_cells.specs.Resources.{header_in};
ghost use Rattle.plan_cells.specs.Sites.{texts_by, early_texts_by, scope_site, count_site};
ghost use Rattle.plan_table.specs.Lines.{IsNumber};
ghost use Rattle.plan_table.specs.Opened.{step_of};
ghost use Rattle.plan_table.specs.Found.{scope_at};
ghost use Rattle.plan_table.specs.Whole.{whole_of};
ghost use Rattle.plan_sight.specs.Ready.{told_in};
ghost use Rattle.plan_sight.specs.Seen.{Yields};
ghost use Rattle.plan_telling.specs.Sources.{texts_in, read_at};
ghost use Rattle.plan_telling.specs.Symbols.{IsComplete};
ghost use Rattle.plan_values.specs.Values.{instance_site};

use crate::declared::listed_at;
use arm_env::stop::let_go;
use arm_value::Value;
use plan_sight::lack::Lack;
use plan_table::frame::{Instance, loops_inside};
use plan_telling::register::Register;
use plan_telling::site::{Site, Texts};
use plan_telling::source::Source;
use plan_telling::telling::told_at;
use std::alloc::Global;
use template_parts::Form;

// What texts mean in a template of this form.
fn texts_by(form: Form) -> Texts
    ensures { texts_in result ≡ texts_by form }
{
    match form {
        Form::One => Texts::Names,
        Form::Two => Texts::Symbols,
    }
}

// What texts mean in a condition or a count in a template of this form.
fn early_texts_by(form: Form) -> Texts
    ensures { texts_in result ≡ early_texts_by form }
{
    match form {
        Form::One => Texts::IdsAlone,
        Form::Two => Texts::Symbols,
    }
}

/// What texts mean in the body of an instance and in arguments.
pub fn texts_at(register: &Register, frame: usize) -> Texts
    requires { frame < length register.now.table.frames.items }
    ensures { texts_in result ≡ texts_by (header_in (scope_at register.now.table frame).template).form }
{
    texts_by(register.table.frames[frame].template.form)
}

/// What texts mean in the condition of an instance.
pub fn early_texts_at(register: &Register, frame: usize) -> Texts
    requires { frame < length register.now.table.frames.items }
    ensures { texts_in result ≡ early_texts_by (header_in (scope_at register.now.table frame).template).form }
{
    early_texts_by(register.table.frames[frame].template.form)
}

/// What is told of a source in a scope, outside of its resources.
pub fn told_in_scope(
    alloc: Global,
    register: &Register,
    frame: usize,
    source: &Source,
) -> Result<Value, Lack>
    requires complete { IsComplete register.now }
    requires there { frame < length register.now.table.frames.items }
    ensures { Yields json register.now.table result (told_in register.now.table (read_at register.now.table
        (scope_site (whole_of register.now.table).template (scope_at register.now.table frame).position)
        source.now)) }
{
    let site = Site {
        frame,
        loops: register.table.frames[frame].loops.as_slice(),
        texts: texts_at(register, frame),
    };
    told_at(alloc, register, &site, source)
}

/// What is told of the count of a resource of a scope.
pub fn told_of_count(
    alloc: Global,
    register: &Register,
    frame: usize,
    source: &Source,
) -> Result<Value, Lack>
    requires complete { IsComplete register.now }
    requires there { frame < length register.now.table.frames.items }
    ensures { Yields json register.now.table result (told_in register.now.table (read_at register.now.table
        (count_site (whole_of register.now.table).template (scope_at register.now.table frame).position)
        source.now)) }
{
    let site = Site {
        frame,
        loops: register.table.frames[frame].loops.as_slice(),
        texts: early_texts_at(register, frame),
    };
    told_at(alloc, register, &site, source)
}

/// What is told of a source in an instance of a resource, where texts mean this.
pub fn told_in_instance(
    alloc: Global,
    register: &Register,
    frame: usize,
    instance: Instance,
    texts: Texts,
    source: &Source,
) -> Result<Value, Lack>
    requires complete { IsComplete register.now }
    requires there { frame < length register.now.table.frames.items }
    requires number { IsNumber (scope_at register.now.table frame) instance.resource }
    requires copy { instance.copy < 800 }
    ensures { Yields json register.now.table result (told_in register.now.table (read_at register.now.table
        (instance_site register.now.table frame (step_of instance) (texts_in texts)) source.now)) }
{
    let declaration = listed_at(register, frame, instance.resource).declaration;
    let around = register.table.frames[frame].loops.as_slice();
    match loops_inside(alloc, declaration, instance.copy, around) {
        Ok(loops) => {
            let site = Site {
                frame,
                loops: loops.as_slice(),
                texts,
            };
            let told = told_at(alloc, register, &site, source);
            let_go(loops);
            told
        }
        Err(_) => Err(Lack::OutOfMemory),
    }
}
