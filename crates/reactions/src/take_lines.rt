ghost use Rattle.std.specs.Prelude.{◌≡◌, ◌≤◌, IfOk, flat_map, length, slice_get};
ghost use Rattle.std.specs.List.{sum_by};
ghost use Rattle.std.specs.Option.{option_copied};
ghost use Rattle.text_writer.specs.Writes.{Writes};
ghost use Rattle.reactions.specs.Lines.{AreTakeLines, take_line};

use crate::takes::put_take;
use elaborate::Machine;
use rsml_syntax::{List, NoMemory, Text};
use std::alloc::Global;
use std::marker::Model;
use text_writer::{Draft, Writer};

/// How many bytes the lines have together at most: 16 MiB. One long name may stand in the line of each transition.
const MOST: usize = 16777216;

/// The lines of the first so many transitions of a machine, each at the place of its number. Only `new` takes memory. Contracts
/// see them as a list.
#[derive(Drop)]
pub struct TakeLines {
    lines: List<Text>,
}

impl Model for TakeLines {
    ghost use Rattle.std.specs.Prelude.{ℕ, List as Items};

    ghost Value = { Items (Items ℕ) };

    ghost view = { λ t. t.lines };
}

/// The line of the transition of a number. No bytes where there is none.
fn line_of(alloc: Global, machine: &Machine<'_>, transition: u32) -> Result<Text, NoMemory>
    ensures { IfOk result (λ line. line ≡ take_line machine.now.base.spec transition) }
{
    let mut draft = Draft::new(alloc);
    put_take(&mut draft, machine, transition);
    let bytes = draft.finish()?;
    Text::new(alloc, &bytes)
}

impl TakeLines {
    /// Those of a machine, as long as there is room for them.
    pub fn new(alloc: Global, machine: &Machine<'_>) -> Result<TakeLines, NoMemory>
        ensures lines { IfOk result (λ lines. AreTakeLines machine.now.base.spec lines) }
        ensures most { IfOk result (λ lines. sum_by (λ line. length line) lines ≤ 16777216) }
    {
        let mut lines = List::new(alloc);
        let mut room = MOST;
        for transition in 0..machine.transitions() {
            let line = line_of(alloc, machine, transition)?;
            let size = line.bytes().len();
            if size > room {
                break;
            }
            room -= size;
            lines.push(line)?;
        }
        Ok(TakeLines { lines })
    }

    /// The line of the transition of a number. None exactly where it was not made.
    fn line(&self, transition: u32) -> Option<&[u8]>
        ensures { option_copied result ≡ slice_get self.now transition }
    {
        Some(self.lines.get(transition as usize)?.bytes())
    }

    /// Writes the line of the transition of a number: the one that was made, or else name by name. Nothing where there is none.
    fn put_line<W: Writer>(&self, writer: &mut W, machine: &Machine<'_>, transition: u32)
        requires { AreTakeLines machine.now.base.spec self.now }
        ensures { Writes (W.state writer.old) (W.text writer.old) (take_line machine.now.base.spec transition)
            (W.state writer.new) (W.text writer.new) }
    {
        match self.line(transition) {
            Some(line) => writer.put(line),
            None => put_take(writer, machine, transition),
        }
    }

    /// Writes the lines of the transitions of these numbers.
    pub fn put_lines<W: Writer>(&self, writer: &mut W, machine: &Machine<'_>, taken: &[u32])
        requires { AreTakeLines machine.now.base.spec self.now }
        ensures { Writes (W.state writer.old) (W.text writer.old)
            (flat_map (take_line machine.now.base.spec) taken.now)
            (W.state writer.new) (W.text writer.new) }
    {
        for transition in taken {
            self.put_line(writer, machine, *transition);
        }
    }
}
