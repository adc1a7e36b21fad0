ghost use Rattle.std.specs.Prelude.{◌≡◌, ◌<◌, length, IfOk};
ghost use Rattle.std.specs.Str.{chars};
ghost use Rattle.rsml_syntax.specs.helpers.Scanning as scanning;
ghost use Rattle.rsml_lexer.specs.Answers.{Takes};

use crate::fault::LexError;
use crate::keywords::{is_reserved, word_of};
use crate::names::{begins_name, name_len};
use crate::numbers::{digits_len, number_of};
use crate::punctuation::mark_at;
use rsml_syntax::{Edition, NoMemory, Text, Token};
use std::alloc::Global;

/// A token at the front of a text, and how many bytes it takes.
#[derive(Drop)]
pub(crate) struct Taken {
    pub(crate) token: Token,
    pub(crate) len: usize,
}

/// The reserved word or the name that is written so, at an offset.
#[tactic(auto, unfolding(rsml_syntax::specs::helpers::Scanning::named))]
fn named(alloc: Global, edition: Edition, name: &[u8], at: u32) -> Result<Token, NoMemory>
    ensures { IfOk result (λ t. t ≡ scanning.named edition name.now) }
{
    match word_of(name) {
        Some(word) if is_reserved(edition, word) => Ok(Token::Word(word)),
        _ => Ok(Token::Name(Text::placed(alloc, name, at)?)),
    }
}

/// The token at the front of a text that is not empty and begins with no blank. `at` is its offset.
pub(crate) fn token_at(
    alloc: Global,
    edition: Edition,
    text: &str,
    at: u32,
) -> Result<Taken, LexError>
    requires { 0 < length text.now }
    ensures { Takes edition (chars text.now) at result }
{
    let bytes = text.as_bytes();
    if begins_name(text) {
        let len = name_len(text);
        let token = named(alloc, edition, &bytes[..len], at)?;
        return Ok(Taken { token, len });
    }
    let len = digits_len(bytes);
    if len > 0 {
        return match number_of(&bytes[..len]) {
            Some(number) => Ok(Taken {
                token: Token::Number(number),
                len,
            }),
            None => Err(LexError::NumberTooBig { at }),
        };
    }
    match mark_at(bytes) {
        Some(mark) => Ok(Taken {
            token: Token::Mark(mark),
            len: mark.spelling().len(),
        }),
        None => Err(LexError::BadCharacter { at }),
    }
}
