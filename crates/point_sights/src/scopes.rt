// What is told at a point of sources in a scope, and in the instances of its resources.
ghost use Rattle.std.specs.Prelude.{◌<◌, length};
ghost use Rattle.arm_value.specs.View.{json};
ghost use Rattle.plan_cells.specs.Sites.{scope_site};
ghost use Rattle.plan_table.specs.Lines.{IsNumber};
ghost use Rattle.plan_table.specs.Opened.{step_of};
ghost use Rattle.plan_table.specs.Whole.{whole_of};
ghost use Rattle.plan_table.specs.Found.{scope_at};
ghost use Rattle.plan_sight.specs.Seen.{Yields};
ghost use Rattle.plan_telling.specs.Sources.{texts_in, read_at};
ghost use Rattle.plan_telling.specs.Symbols.{IsComplete};
ghost use Rattle.plan_values.specs.Values.{instance_site};
ghost use Rattle.point_rows.specs.Rows.{told_now, IsFit};

use crate::telling::told_at;
use arm_env::stop::let_go;
use arm_value::Value;
use plan_sight::lack::Lack;
use plan_table::frame::{Instance, loops_inside};
use plan_telling::register::Register;
use plan_telling::site::{Site, Texts};
use plan_telling::source::Source;
use plan_values::declared::listed_at;
use plan_values::scopes::texts_at;
use point_rows::later::Later;
use std::alloc::Global;

/// What is told of a source in a scope, outside of its resources.
pub fn told_in_scope(
    alloc: Global,
    register: &Register,
    later: &Later,
    frame: usize,
    source: &Source,
) -> Result<Value, Lack>
    requires complete { IsComplete register.now }
    requires fit { IsFit register.now.table later.now }
    requires there { frame < length register.now.table.frames.items }
    ensures { Yields json register.now.table result (told_now register.now.table later.now (read_at register.now.table
        (scope_site (whole_of register.now.table).template (scope_at register.now.table frame).position)
        source.now)) }
{
    let site = Site {
        frame,
        loops: register.table.frames[frame].loops.as_slice(),
        texts: texts_at(register, frame),
    };
    told_at(alloc, register, later, &site, source)
}

/// What is told of a source in an instance of a resource, where texts mean this.
pub fn told_in_instance(
    alloc: Global,
    register: &Register,
    later: &Later,
    frame: usize,
    instance: Instance,
    texts: Texts,
    source: &Source,
) -> Result<Value, Lack>
    requires complete { IsComplete register.now }
    requires fit { IsFit register.now.table later.now }
    requires there { frame < length register.now.table.frames.items }
    requires number { IsNumber (scope_at register.now.table frame) instance.resource }
    requires copy { instance.copy < 800 }
    ensures { Yields json register.now.table result (told_now register.now.table later.now
        (read_at register.now.table (instance_site register.now.table frame (step_of instance) (texts_in texts))
        source.now)) }
{
    let declaration = listed_at(register, frame, instance.resource).declaration;
    let around = register.table.frames[frame].loops.as_slice();
    match loops_inside(alloc, declaration, instance.copy, around) {
        Ok(loops) => {
            let site = Site {
                frame,
                loops: loops.as_slice(),
                texts,
            };
            let told = told_at(alloc, register, later, &site, source);
            let_go(loops);
            told
        }
        Err(_) => Err(Lack::OutOfMemory),
    }
}
