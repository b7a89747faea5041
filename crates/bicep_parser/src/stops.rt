// How parts are dropped where reading stops.

ghost use Rattle.std.specs.Prelude.{◌≡◌, Err};

use bicep_machine::Discard;

/// Why reading stops; drops the part.
pub fn stopped<T: Discard, R, F>(why: F, part: T) -> Result<R, F>
    ensures { result ≡ Err why }
{
    part.discard();
    Err(why)
}
