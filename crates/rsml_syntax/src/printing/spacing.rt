ghost use Rattle.std.specs.Prelude.{◌≡◌, ◌+◌, ◌<◌, ◌≤◌, ◌++◌, vec_len, OnOk};
ghost use Rattle.rsml_syntax.specs.grammar.Layout as layout;
ghost use Rattle.rsml_syntax.specs.helpers.TokenKinds.{space_before, token_like};
ghost use Rattle.rsml_syntax.specs.declared.token.Token.TheVariants as token;

use crate::token::{Mark, Word};
use rsml_base::NoMemory;

/// A token without the text of its name and without its number: the layout goes by this alone.
#[derive(Clone, Copy)]
pub(crate) enum Kind {
    Word(Word),
    Name,
    Number,
    Mark(Mark),
}

impl Kind {
    pub(crate) fn is_mark(self, mark: Mark) -> bool
        ensures { result ≡ layout.is_mark mark (token_like self) }
    {
        match self {
            Kind::Mark(found) => mark.is(found),
            _ => false,
        }
    }

    fn is_word(self, word: Word) -> bool
        ensures { result ≡ layout.is_the_word word (token_like self) }
    {
        match self {
            Kind::Word(found) => word.is(found),
            _ => false,
        }
    }

    fn is_name(self) -> bool
        ensures { result ≡ layout.is_a_name (token_like self) }
    {
        match self {
            Kind::Name => true,
            _ => false,
        }
    }
}

/// Whether the line in which a brace closes goes on with this.
fn follows_brace(kind: Kind) -> bool
    ensures { result ≡ layout.follows_brace (token_like kind) }
{
    kind.is_mark(Mark::Semicolon)
        || kind.is_word(Word::Raise)
        || kind.is_word(Word::Quiet)
        || kind.is_mark(Mark::OpenParen)
}

/// Whether a new line begins between the two.
fn breaks_line(last: Kind, next: Kind) -> bool
    ensures { result ≡ layout.breaks_line (token_like last) (token_like next) }
{
    last.is_mark(Mark::OpenBrace)
        || next.is_mark(Mark::CloseBrace)
        || last.is_mark(Mark::Semicolon)
        || (last.is_mark(Mark::CloseBrace) && !follows_brace(next))
}

/// Whether nothing stands between the two.
fn joins(last: Kind, next: Kind) -> bool
    ensures { result ≡ layout.joins (token_like last) (token_like next) }
{
    next.is_mark(Mark::Semicolon)
        || next.is_mark(Mark::Comma)
        || next.is_mark(Mark::OpenBracket)
        || next.is_mark(Mark::CloseBracket)
        || next.is_mark(Mark::CloseParen)
        || last.is_mark(Mark::OpenBracket)
        || last.is_mark(Mark::OpenParen)
        || (next.is_mark(Mark::Dot) && (last.is_name() || last.is_mark(Mark::CloseBracket)))
        || (last.is_mark(Mark::Dot) && next.is_name())
}

/// Begins a new line, with two spaces for each open brace.
fn write_line(text: &mut Vec<u8>, depth: usize) -> Result<(), NoMemory>
    ensures ok { OnOk result (text.new.items ≡ text.old.items ++ layout.new_line depth) }
    ensures grows { vec_len text.old ≤ vec_len text.new }
{
    text.push(b'\n')?;
    for _brace in 0..depth {
        text.extend_from_slice(b"  ")?;
    }
    Ok(())
}

/// Writes what stands between the two, where so many braces are open after the first.
fn write_between(text: &mut Vec<u8>, depth: usize, last: Kind, next: Kind) -> Result<(), NoMemory>
    ensures ok { OnOk result (text.new.items ≡ text.old.items ++ layout.space_between depth (token_like last) (token_like next)) }
    ensures grows { vec_len text.old ≤ vec_len text.new }
{
    if breaks_line(last, next) {
        if next.is_mark(Mark::CloseBrace) {
            write_line(text, depth.saturating_sub(1))
        } else {
            write_line(text, depth)
        }
    } else {
        if !joins(last, next) {
            text.push(b' ')?;
        }
        Ok(())
    }
}

/// Writes what stands before a token that follows the last one, if there is one.
pub(crate) fn write_space(
    text: &mut Vec<u8>,
    depth: usize,
    last: Option<Kind>,
    next: Kind,
) -> Result<(), NoMemory>
    ensures ok { OnOk result (text.new.items ≡ text.old.items ++ space_before depth last (token_like next)) }
    ensures grows { vec_len text.old ≤ vec_len text.new }
{
    match last {
        Some(last) => write_between(text, depth, last, next),
        None => Ok(()),
    }
}

/// How many braces are open after the mark, of those that are open before it.
pub(crate) fn depth_after(depth: usize, mark: Mark) -> usize
    requires { depth < usize.MAX }
    ensures value { result ≡ layout.open_after depth (token.Mark mark) }
    ensures most { result ≤ depth + 1 }
{
    if mark.is(Mark::OpenBrace) {
        depth + 1
    } else if mark.is(Mark::CloseBrace) {
        depth.saturating_sub(1)
    } else {
        depth
    }
}
