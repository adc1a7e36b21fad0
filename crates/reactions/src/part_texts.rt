ghost use Rattle.std.specs.Prelude.{◌≡◌, ◌≤◌, IfOk, length, slice_get};
ghost use Rattle.std.specs.List.{sum_by};
ghost use Rattle.std.specs.Option.{option_copied};
ghost use Rattle.text_writer.specs.Writes.{Writes};
ghost use Rattle.reactions.specs.Lines.{ArePartTexts, part_text};

use crate::part::{Part, put_part};
use instance_texts::Texts;
use rsml_syntax::{List, NoMemory, Text};
use std::alloc::Global;
use std::marker::Model;
use text_writer::{Draft, Writer};

/// How many bytes the texts have together at most: 4 MiB.
const MOST: usize = 4194304;

/// The texts of a part that name the first so many instances, each at the place of its number. Only `new` takes memory.
/// Contracts see them as a list.
#[derive(Drop)]
pub struct PartTexts {
    texts: List<Text>,
}

impl Model for PartTexts {
    ghost use Rattle.std.specs.Prelude.{ℕ, List as Items};

    ghost Value = { Items (Items ℕ) };

    ghost view = { λ t. t.texts };
}

/// The text of a part that names the instance of a number.
fn text_of(alloc: Global, texts: &Texts<'_>, part: Part, number: u32) -> Result<Text, NoMemory>
    ensures { IfOk result (λ text. text ≡ part_text part texts.now number) }
{
    let mut draft = Draft::new(alloc);
    put_part(&mut draft, texts, part, number);
    let bytes = draft.finish()?;
    Text::new(alloc, &bytes)
}

impl PartTexts {
    /// Those that name the first `count` instances, as long as there is room for them.
    pub fn new(
        alloc: Global,
        texts: &Texts<'_>,
        part: Part,
        count: u32,
    ) -> Result<PartTexts, NoMemory>
        ensures texts { IfOk result (λ made. ArePartTexts part texts.now made) }
        ensures most { IfOk result (λ made. sum_by (λ text. length text) made ≤ 4194304) }
    {
        let mut made = List::new(alloc);
        let mut room = MOST;
        for number in 0..count {
            let text = text_of(alloc, texts, part, number)?;
            let size = text.bytes().len();
            if size > room {
                break;
            }
            room -= size;
            made.push(text)?;
        }
        Ok(PartTexts { texts: made })
    }

    /// The text that names the instance of a number. None exactly where it was not made.
    fn text(&self, number: u32) -> Option<&[u8]>
        ensures { option_copied result ≡ slice_get self.now number }
    {
        Some(self.texts.get(number as usize)?.bytes())
    }

    /// Writes the text that names the instance of a number: the one that was made, or else piece by piece.
    pub fn put<W: Writer>(&self, writer: &mut W, texts: &Texts<'_>, part: Part, number: u32)
        requires { ArePartTexts part texts.now self.now }
        ensures { Writes (W.state writer.old) (W.text writer.old) (part_text part texts.now number)
            (W.state writer.new) (W.text writer.new) }
    {
        match self.text(number) {
            Some(text) => writer.put(text),
            None => put_part(writer, texts, part, number),
        }
    }
}
