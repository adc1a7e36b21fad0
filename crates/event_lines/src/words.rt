ghost use Rattle.std.specs.Prelude.{◌≡◌, ◌≢◌, ◌==◌, ◌≤◌, ◌∷◌, [], MatchOption, false, length, nat_le, not, position, true};
ghost use Rattle.std.specs.List.{position_or_len};
ghost use Rattle.std.specs.Str.{byte};
ghost use Rattle.rsml_meaning.specs.EventLines.{index_part, is_blank, name_part, words};

use memchr::memchr2;

/// A space or a tab.
fn is_blank(byte: u8) -> bool
    ensures { result ≡ is_blank byte }
{
    byte == b' ' || byte == b'\t'
}

/// Where the first word of a text begins.
fn start(text: &[u8]) -> Option<usize>
    ensures { result ≡ position (λ c. not (is_blank c)) text.now }
{
    text.iter().position(|byte| !is_blank(*byte))
}

/// The first byte that is not above a space, as no blank is.
fn first_low(text: &[u8]) -> Option<usize>
    ensures { result ≡ position (λ c. nat_le c (byte " ")) text.now }
{
    text.iter().position(|byte| *byte <= b' ')
}

/// How many bytes stand before the first blank.
#[inline(never)]
fn width_among_low(text: &[u8]) -> usize
    ensures is { result ≡ position_or_len is_blank text.now }
    ensures within { result ≤ length text.now }
{
    match memchr2(b' ', b'\t', text) {
        Some(width) => width,
        None => text.len(),
    }
}

/// The same. Of most texts it asks but one thing for each byte: the first that is not above a space is the first blank.
fn width(text: &[u8]) -> usize
    ensures is { result ≡ position_or_len is_blank text.now }
    ensures within { result ≤ length text.now }
{
    match first_low(text) {
        Some(place) => {
            if is_blank(text[place]) {
                place
            } else {
                width_among_low(text)
            }
        }
        None => text.len(),
    }
}

/// The first word of a text, and the text behind it.
#[inline(always)]
#[tactic(auto, using(crate::proofs::WordLemmas::no_word, crate::proofs::WordLemmas::next_word, crate::proofs::WordLemmas::start_within))]
pub fn first_word(text: &[u8]) -> Option<(&[u8], &[u8])>
    ensures { MatchOption result (words text.now ≡ [])
        (λ r. words text.now ≡ r.0.now ∷ words r.1.now) }
{
    let start = start(text)?;
    let (_, rest) = text.split_at(start);
    Some(rest.split_at(width(rest)))
}

/// Whether a text has a word.
pub fn has_word(text: &[u8]) -> bool
    ensures none { result ≡ false → words text.now ≡ [] }
    ensures some { result ≡ true → words text.now ≢ [] }
{
    start(text).is_some()
}

/// The first `[` of a word.
fn bracket(word: &[u8]) -> Option<usize>
    ensures { result ≡ position (λ c. c == byte "[") word.now }
{
    word.iter().position(|byte| *byte == b'[')
}

/// How many bytes of a word stand before its first `[`.
fn name_width(word: &[u8]) -> usize
    ensures is { result ≡ position_or_len (λ c. c == byte "[") word.now }
    ensures within { result ≤ length word.now }
{
    match bracket(word) {
        Some(width) => width,
        None => word.len(),
    }
}

/// The name that the first word has, up to its first `[`, and the rest of it.
#[tactic(auto, using(crate::proofs::WordLemmas::index_part_is))]
pub fn split_word(word: &[u8]) -> (&[u8], &[u8])
    ensures name { result.0.now ≡ name_part word.now }
    ensures index { result.1.now ≡ index_part word.now }
{
    word.split_at(name_width(word))
}
