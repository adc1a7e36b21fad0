ghost use Rattle.std.specs.Prelude.{◌≡◌, ◌≤◌, min};
ghost use Rattle.std.specs.Option.{option_map};
ghost use Rattle.rsml_meaning.specs.EventLines as lines;
ghost use Rattle.rsml.specs.Counts.{count_of, most};

/// The number, or 100 in place of a greater one.
fn at_most_100(number: u32) -> u32
    ensures { result ≡ most number }
{
    if number < 100 { number } else { 100 }
}

/// The number that one or more digits write, or 100 in place of a greater one.
fn number_of(word: &[u8]) -> Option<u32>
    ensures { result ≡ option_map most (lines.digits_number word.now) }
{
    if word.is_empty() {
        return None;
    }
    let mut number: u32 = 0;
    for digit in word {
        if !digit.is_ascii_digit() {
            return None;
        }
        number = at_most_100(number * 10 + u32::from(*digit - b'0'));
    }
    Some(number)
}

/// The number that a word tells: one or more digits with a value from 1 to a limit.
pub fn count_in(word: &[u8], limit: u32) -> Option<u32>
    requires { limit ≤ 99 }
    ensures { result ≡ count_of limit word.now }
{
    let number = number_of(word)?;
    if number < 1 {
        return None;
    }
    if number > limit {
        return None;
    }
    Some(number)
}
