ghost use Rattle.std.specs.Prelude.{◌≤◌, vec_len};

use super::spacing::{Kind, depth_after, write_space};
use crate::token::{Mark, Word};
use itoa::Buffer;
use rsml_base::{NoMemory, Text};
use std::alloc::Global;

/// The text of the tokens that are written so far, with the space that their layout has between them.
#[derive(Drop)]
pub(crate) struct Printer {
    text: Vec<u8>,
    /// How many braces are open.
    depth: usize,
    last: Option<Kind>,
    ghost deep: { depth ≤ vec_len text },
}

impl Printer {
    ghost use Rattle.std.specs.Prelude.{◌≡◌, ◌+◌, ◌∷◌, ◌++◌, [], Some, None, length, OnOk, IfOk};
    ghost use Rattle.rsml_syntax.specs.grammar.Grammar as grammar;
    ghost use Rattle.rsml_syntax.specs.helpers.TokenKinds.{space_before, token_like};
    ghost use Rattle.rsml_syntax.specs.helpers.Printing.{Writes, with_tokens};

    pub(crate) fn new(alloc: Global) -> Printer
        ensures text { result.text.items ≡ [] }
        ensures depth { result.depth ≡ 0 }
        ensures last { result.last ≡ None }
    {
        Printer {
            text: Vec::new(alloc),
            depth: 0,
            last: None,
        }
    }

    /// Writes a token of this kind, which is spelled so, but for the braces that it opens or closes.
    fn write(&mut self, kind: Kind, spelling: &[u8]) -> Result<(), NoMemory>
        ensures text { OnOk result (self.new.text.items ≡ self.old.text.items ++ (space_before self.old.depth self.old.last (token_like kind) ++ spelling.now)) }
        ensures depth { self.new.depth ≡ self.old.depth }
        ensures last { OnOk result (self.new.last ≡ Some kind) }
        ensures grown { OnOk result (vec_len self.old.text + length spelling.now ≤ vec_len self.new.text) }
    {
        write_space(&mut self.text, self.depth, self.last, kind)?;
        self.text.extend_from_slice(spelling)?;
        self.last = Some(kind);
        Ok(())
    }

    pub(crate) fn word(&mut self, word: Word) -> Result<(), NoMemory>
        ensures { OnOk result (Writes self.old self.new (grammar.word word)) }
    {
        self.write(Kind::Word(word), word.spelling())
    }

    pub(crate) fn mark(&mut self, mark: Mark) -> Result<(), NoMemory>
        ensures { OnOk result (Writes self.old self.new (grammar.mark mark)) }
    {
        self.write(Kind::Mark(mark), mark.spelling())?;
        self.depth = depth_after(self.depth, mark);
        Ok(())
    }

    pub(crate) fn name(&mut self, name: &Text) -> Result<(), NoMemory>
        ensures { OnOk result (Writes self.old self.new (grammar.name name.now)) }
    {
        self.write(Kind::Name, name.bytes())
    }

    pub(crate) fn number(&mut self, number: u32) -> Result<(), NoMemory>
        ensures { OnOk result (Writes self.old self.new (grammar.number number)) }
    {
        let mut buffer = Buffer::new();
        self.write(Kind::Number, buffer.format(number).as_bytes())
    }

    /// The text, with a line feed after the last token.
    pub(crate) fn finish(self) -> Result<Vec<u8>, NoMemory>
        ensures { IfOk result (λ text. text.items ≡ with_tokens self [] ++ 10 ∷ []) }
    {
        let Printer { mut text, .. } = self;
        text.push(b'\n')?;
        Ok(text)
    }
}
