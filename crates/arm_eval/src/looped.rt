// The value of a variable, or of an argument of a nested deployment, that a loop gives.
ghost use Rattle.arm_value.specs.View.{json};
ghost use Rattle.reading.specs.Knowledge.{told};
ghost use Rattle.arm_env.specs.Answer.{Gives};
ghost use Rattle.arm_env.specs.Sight.{here};
ghost use Rattle.arm_eval.specs.Looped.{looped};

use crate::copying::Copying;
use crate::tree::{counting, turns};
use crate::whole::array_of;
use arm_env::entries::{Around, Entries};
use arm_env::stop::Stop;
use arm_value::{Text, Value};
use std::alloc::Global;

/// The array of the values of an input at each index below a count, from 0 to 800, in a loop of the
/// name: the value of a variable, or of an argument of a nested deployment, that `copy` gives.
pub fn looped_value<'a, K: Entries>(
    alloc: Global,
    entries: &'a K,
    around: &Around,
    name: &Text,
    count: &Value,
    input: &Value,
) -> Result<Value, Stop>
    ensures { Gives json result (told (K.known entries.now)
        (looped name.now (json count.now) (json input.now) (here around.now))) }
{
    let copy = Copying { name, count, input };
    let count = counting(alloc, entries, around, count)?;
    let values = turns(alloc, entries, around, &copy, count)?;
    array_of(values)
}
