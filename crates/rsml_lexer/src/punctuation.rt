ghost use Rattle.std.specs.Prelude.{◌≡◌, [], ◌∷◌, nat_eq};
ghost use Rattle.std.specs.List.{starts_with};
ghost use Rattle.rsml_syntax.specs.text.Marks as spec;

use rsml_syntax::Mark;

/// Whether a byte stands first.
fn begins(bytes: &[u8], byte: u8) -> bool
    ensures { result ≡ starts_with nat_eq bytes.now (byte ∷ []) }
{
    match bytes.first() {
        Some(first) => byte == *first,
        None => false,
    }
}

/// The longest mark at the front, if any.
#[tactic(auto, unfolding(rsml_syntax::specs::text::Marks::mark_at, rsml_syntax::specs::text::Marks::spelling))]
pub(crate) fn mark_at(bytes: &[u8]) -> Option<Mark>
    ensures { result ≡ spec.mark_at bytes.now }
{
    let (first, rest) = bytes.split_first()?;
    match *first {
        b';' => Some(Mark::Semicolon),
        b'{' => Some(Mark::OpenBrace),
        b'}' => Some(Mark::CloseBrace),
        b',' => Some(Mark::Comma),
        b'.' if begins(rest, b'.') => Some(Mark::DotDot),
        b'.' => Some(Mark::Dot),
        b'=' => Some(Mark::Equal),
        b'!' if begins(rest, b'=') => Some(Mark::NotEqual),
        b'<' if begins(rest, b'=') => Some(Mark::LessEqual),
        b'<' => Some(Mark::Less),
        b'>' if begins(rest, b'=') => Some(Mark::GreaterEqual),
        b'>' => Some(Mark::Greater),
        b'[' => Some(Mark::OpenBracket),
        b']' => Some(Mark::CloseBracket),
        b'(' => Some(Mark::OpenParen),
        b')' => Some(Mark::CloseParen),
        b':' => Some(Mark::Colon),
        b'-' if begins(rest, b'>') => Some(Mark::Arrow),
        b'-' => Some(Mark::Minus),
        b'+' => Some(Mark::Plus),
        b'|' => Some(Mark::Bar),
        _ => None,
    }
}
