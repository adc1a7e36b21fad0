//! Which parts are read.
ghost use Rattle.std.specs.Prelude.{◌≡◌, IfOk, true, slice_index_or};

use rsml_base::{List, NoMemory};

/// Whether a part is marked as read. What has no mark is.
pub fn is_read(marks: &List<bool>, part: usize) -> bool
    ensures { result ≡ slice_index_or marks.now part true }
{
    match marks.get(part) {
        Some(is) => *is,
        None => true,
    }
}

/// The number of a cell. Where it did not fit, memory would not hold so many.
pub fn cell_number(place: usize) -> Result<u32, NoMemory>
    ensures { IfOk result (λ cell. cell ≡ place) }
{
    match u32::try_from(place) {
        Ok(cell) => Ok(cell),
        Err(_) => Err(NoMemory),
    }
}
