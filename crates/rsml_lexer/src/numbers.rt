ghost use Rattle.std.specs.Prelude.{◌≡◌, ◌≤◌, length, take, IsTrue};
ghost use Rattle.std.specs.List.{list_all};
ghost use Rattle.rsml_syntax.specs.text.Characters as spec;
ghost use Rattle.rsml_lexer.specs.Answers.{IsNumber};

/// The greatest number that may be written.
const GREATEST: u64 = 1_000_000_000;

fn is_digit(byte: u8) -> bool
    ensures { result ≡ spec.is_digit byte }
{
    b'0' <= byte && byte <= b'9'
}

/// How many digits stand at the front.
pub(crate) fn digits_len(bytes: &[u8]) -> usize
    ensures front { take result bytes.now ≡ spec.digits_at bytes.now }
    ensures within { result ≤ length bytes.now }
{
    let mut len = 0;
    while len < bytes.len() && is_digit(bytes[len]) {
        len += 1;
    }
    len
}

/// The number that digits are, if it is not too big.
pub(crate) fn number_of(digits: &[u8]) -> Option<u32>
    requires { IsTrue (list_all spec.is_digit digits.now) }
    ensures { IsNumber digits.now result }
{
    let mut number = 0;
    for digit in digits {
        number = number * 10 + u64::from(*digit - b'0');
        if number > GREATEST {
            return None;
        }
    }
    Some(number as u32)
}
