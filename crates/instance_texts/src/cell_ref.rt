ghost use Rattle.std.specs.Prelude.{◌≡◌, ◌++◌, codes};
ghost use Rattle.rsml_meaning.specs.Texts.{instance_text, cell_text};
ghost use Rattle.text_writer.specs.Writes.{Writes};
ghost use Rattle.instance_texts.specs.Listing.{instance_of};

use crate::listed::Listed;
use rsml_names::{number_of, values_of};
use rsml_syntax::{Decl, Text};
use std::marker::Model;
use text_writer::Writer;

/// A cell: its input, whether it is the previous one, and the declaration of its type.
#[derive(Drop)]
pub struct CellRef<'a> {
    pub input: Listed<'a>,
    pub previous: bool,
    pub kind: Option<&'a Decl>,
}

impl<'a> Model for CellRef<'a> {
    ghost use Rattle.std.specs.Prelude.{pos};
    ghost use Rattle.std.specs.Option.{option_copied};
    ghost use Rattle.rsml_meaning.specs.Cells.{InputCell};
    ghost use Rattle.instance_texts.specs.Listing.{instance_of};
    ghost use Rattle.instance_texts.specs.InputCells.{declared_type};

    ghost Value = { InputCell };

    ghost view = { λ c. record {
      input = instance_of c.input;
      previous = c.previous;
      numbers = declared_type (option_copied c.kind);
      initial = pos 0;
    } };
}

// Writes a previous cell.
fn put_previous<W: Writer>(writer: &mut W, input: &Listed<'_>)
    ensures { Writes (W.state writer.old) (W.text writer.old)
        (codes "previous " ++ instance_text (instance_of input.now))
        (W.state writer.new) (W.text writer.new) }
{
    writer.put(b"previous ");
    input.put(writer);
}

impl<'a> CellRef<'a> {
    /// Writes the cell.
    pub fn put<W: Writer>(&self, writer: &mut W)
        ensures { Writes (W.state writer.old) (W.text writer.old) (cell_text self.now)
            (W.state writer.new) (W.text writer.new) }
    {
        if self.previous {
            put_previous(writer, &self.input);
        } else {
            self.input.put(writer);
        }
    }

    /// The names of the numbers that it may hold, where its type is an enumeration.
    pub fn names(&self) -> &'a [Text]
        ensures { result.now ≡ self.now.numbers.names }
    {
        match self.kind {
            Some(kind) => values_of(kind),
            None => &[],
        }
    }

    /// The least number that it may hold.
    pub fn low(&self) -> i64
        ensures { result ≡ self.now.numbers.low }
    {
        match self.kind {
            Some(Decl::Range { low, .. }) => number_of(low),
            _ => 0,
        }
    }
}
