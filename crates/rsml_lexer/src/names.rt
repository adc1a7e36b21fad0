ghost use Rattle.std.specs.Prelude.{◌≡◌, ◌≤◌, ◌||◌, ◌==◌, length, take, drop};
ghost use Rattle.std.specs.Char.{is_ascii_alphanumeric};
ghost use Rattle.std.specs.Str.{chars, encode_utf8_all};
ghost use Rattle.rsml_syntax.specs.text.Characters as spec;
ghost use Rattle.rsml_syntax.specs.text.Characters.{passing};
ghost use Rattle.rsml_syntax.specs.helpers.Scanning.{after_passing};
ghost use Rattle.rsml_syntax.specs.text.Tokens.{first_is};
ghost use Rattle.rsml_lexer.specs.Bytes.{is_ascii_continuing};

use unicode_ident::{is_xid_continue, is_xid_start};

fn is_start(character: char) -> bool
    ensures { result ≡ spec.is_start character }
{
    is_xid_start(character) || character == '_'
}

fn is_ascii_continuing(byte: u8) -> bool
    ensures { result ≡ is_ascii_continuing byte }
{
    byte.is_ascii_alphanumeric() || byte == b'_'
}

/// Whether a name begins at the front of a text.
pub(crate) fn begins_name(text: &str) -> bool
    ensures { result ≡ first_is spec.is_start (chars text.now) }
{
    match text.chars().next() {
        Some(character) => is_start(character),
        None => false,
    }
}

/// How many ASCII bytes at the front may go on in a name.
fn ascii_len(bytes: &[u8]) -> usize
    ensures front { take result bytes.now ≡ passing is_ascii_continuing bytes.now }
    ensures rest { drop result bytes.now ≡ after_passing is_ascii_continuing bytes.now }
    ensures within { result ≤ length bytes.now }
{
    let mut len = 0;
    while len < bytes.len() && is_ascii_continuing(bytes[len]) {
        len += 1;
    }
    len
}

/// How many bytes the characters at the front take that may go on in a name.
fn any_len(text: &str) -> usize
    ensures front { take result text.now ≡ encode_utf8_all (passing spec.is_continuing (chars text.now)) }
    ensures within { result ≤ length text.now }
{
    let mut len = 0;
    for character in text.chars() {
        if !is_xid_continue(character) {
            break;
        }
        len += character.len_utf8();
    }
    len
}

/// How many bytes the characters at the front take that may go on in a name. Most are ASCII.
pub(crate) fn name_len(text: &str) -> usize
    ensures front { take result text.now ≡ encode_utf8_all (passing spec.is_continuing (chars text.now)) }
    ensures within { result ≤ length text.now }
{
    let bytes = text.as_bytes();
    let len = ascii_len(bytes);
    if len < bytes.len() && bytes[len] >= 128 {
        len + any_len(&text[len..])
    } else {
        len
    }
}
