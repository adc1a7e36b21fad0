ghost use Rattle.std.specs.Prelude.{◌≡◌, find};
ghost use Rattle.std.specs.Str.{bytes_eq};
ghost use Rattle.rsml_syntax.specs.text.Tokens as tokens;
ghost use Rattle.rsml_syntax.specs.text.Words as spec;
ghost use Rattle.rsml_lexer.specs.Bytes as bytes;

use rsml_syntax::{Edition, Word};

/// The reserved words that begin with a byte.
#[tactic(auto, unfolding(crate::specs::Bytes::words_from, rsml_syntax::specs::text::Words::spelling))]
fn words_from(first: u8) -> &'static [Word]
    ensures { result.now ≡ bytes.words_from first }
{
    match first {
        b'a' => &[Word::All, Word::Always, Word::Array],
        b'b' => &[Word::Bus],
        b'c' => &[Word::Constant],
        b'd' => &[Word::Default],
        b'e' => &[Word::Enumeration, Word::Event, Word::Every],
        b'f' => &[Word::Function],
        b'i' => &[Word::In, Word::Input],
        b'm' => &[Word::Macro, Word::Move],
        b'o' => &[Word::Of, Word::On, Word::One],
        b'p' => &[Word::Previous],
        b'q' => &[Word::Quiet],
        b'r' => &[Word::Raise, Word::Range, Word::Receive],
        b's' => &[
            Word::Send,
            Word::Any,
            Word::Specification,
            Word::State,
            Word::Stay,
        ],
        b't' => &[Word::This],
        b'w' => &[Word::When],
        b'T' => &[Word::T],
        b'F' => &[Word::F],
        _ => &[],
    }
}

/// The word among these that is written so.
fn find_word(words: &[Word], name: &[u8]) -> Option<Word>
    ensures { result ≡ find (λ w. bytes_eq name.now (spec.spelling w)) words.now }
{
    words.iter().copied().find(|word| name == word.spelling())
}

/// The word that a name is, if any.
pub(crate) fn word_of(name: &[u8]) -> Option<Word>
    ensures { result ≡ spec.word_of name.now }
{
    match name.first() {
        Some(first) => find_word(words_from(*first), name),
        None => None,
    }
}

/// Whether the edition reserves the word.
pub(crate) fn is_reserved(edition: Edition, word: Word) -> bool
    ensures { result ≡ tokens.is_reserved edition word }
{
    match edition {
        Edition::First => !word.is(Word::Previous),
        Edition::Second => true,
    }
}
