ghost use Rattle.std.specs.Prelude.{◌≡◌, min};
ghost use Rattle.std.specs.Option.{option_map};
ghost use Rattle.rsml_meaning.specs.EventLines as lines;
ghost use Rattle.event_lines.specs.helpers.Capped.{capped, capped_signed};

/// The number that one or more digits write, and the greatest `u64` in place of a greater one.
pub fn digits_number(text: &[u8]) -> Option<u64>
    ensures { result ≡ option_map capped (lines.digits_number text.now) }
{
    if text.is_empty() {
        return None;
    }
    let mut number: u64 = 0;
    for digit in text {
        if !digit.is_ascii_digit() {
            return None;
        }
        number = number
            .saturating_mul(10)
            .saturating_add(u64::from(*digit - b'0'));
    }
    Some(number)
}

/// The same with `-` before the digits or not.
pub fn signed_number(text: &[u8]) -> Option<i128>
    ensures { result ≡ option_map capped_signed (lines.signed_number text.now) }
{
    let (first, digits) = text.split_first()?;
    if *first == b'-' {
        Some(-i128::from(digits_number(digits)?))
    } else {
        Some(i128::from(digits_number(text)?))
    }
}
