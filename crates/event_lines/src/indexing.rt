ghost use Rattle.std.specs.Prelude.{◌≡◌, ◌≤◌, IfSome, true};
ghost use Rattle.event_lines.specs.helpers.Forms.{index_of};

use crate::brackets::in_brackets;
use crate::digits::digits_number;

/// The number in brackets, if it is 1 to `many`.
fn in_array(many: u32, text: &[u8]) -> Option<u32>
    ensures { result ≡ index_of true many text.now }
{
    let index = digits_number(in_brackets(text)?)?;
    if 1 <= index && index <= u64::from(many) {
        Some(index as u32)
    } else {
        None
    }
}

/// The index that the rest of the first word tells: of an array 1 to `many` in brackets, or else 0
/// by nothing.
pub fn index_told(is_array: bool, many: u32, text: &[u8]) -> Option<u32>
    ensures is { result ≡ index_of is_array many text.now }
    ensures within { IfSome result (λ index. index ≤ many) }
{
    if is_array {
        in_array(many, text)
    } else if text.is_empty() {
        Some(0)
    } else {
        None
    }
}
