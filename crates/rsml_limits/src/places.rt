ghost use Rattle.std.specs.Prelude.{◌≡◌, IfOk};

use rsml_syntax::NoMemory;

/// The number of a place; from 2^32 on there is none.
pub fn number_of(place: usize) -> Result<u32, NoMemory>
    ensures { IfOk result (λ number. number ≡ place) }
{
    match u32::try_from(place) {
        Ok(number) => Ok(number),
        Err(_) => Err(NoMemory),
    }
}
