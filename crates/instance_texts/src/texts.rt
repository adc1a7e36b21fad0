ghost use Rattle.std.specs.Prelude.{◌≡◌, [], IfOk, false, length, map, nat_lt, slice_get};
ghost use Rattle.std.specs.Option.{option_copied, option_map_or, option_and_then};
ghost use Rattle.rsml_meaning.specs.Instances as instances;
ghost use Rattle.rsml_meaning.specs.Interfaces as interfaces;
ghost use Rattle.rsml_meaning.specs.Cells as spec_cells;
ghost use Rattle.rsml_meaning.specs.Texts.{instance_text, cell_text, value_text};
ghost use Rattle.state_arrays.specs.Places.{defined};
ghost use Rattle.text_writer.specs.Writes.{Writes};
ghost use Rattle.instance_texts.specs.Listing.{instance_of};
ghost use Rattle.instance_texts.specs.Inputs.{names_of_inputs};

use crate::cell_ref::CellRef;
use crate::cells::cells;
use crate::interfaces::Interfaces;
use crate::listed::Listed;
use crate::listings::listing;
use crate::sorts::Sort;
use crate::values::put_value;
use rsml_names::Globals;
use rsml_syntax::{Checked, NoMemory, Spec, Text};
use std::alloc::Global;
use std::marker::Model;
use text_writer::Writer;

/// The names of the instances of a specification, which they borrow. Each is found by its place in the list of the
/// definitions. Only `build` takes memory. Contracts see the specification.
pub struct Texts<'a> {
    spec: &'a Spec,
    events: Vec<Listed<'a>>,
    cells: Vec<CellRef<'a>>,
    interfaces: Interfaces<'a>,
}

impl Drop for Texts<'_> {
    fn drop(self) {
        let Self {
            spec: _,
            events: _,
            cells: _,
            interfaces: _,
        } = self;
    }
}

impl<'a> Model for Texts<'a> {
    ghost use Rattle.rsml_syntax.specs.declared.syntax.Spec.{Spec};
    ghost use Rattle.rsml_syntax.specs.contracts.syntax.Body as bodies;
    ghost use Rattle.std.specs.Coded.{codes};
    ghost use Rattle.instance_texts.specs.Tables.{AreTables};

    ghost Value = { Spec };

    ghost coded = { Prim.hlevel (codes, bodies.the_row.coded) };

    ghost view = { λ t. t.spec.now };

    ghost invariant = { λ t. AreTables t.spec.now t.events.items t.cells.items
        t.interfaces.definitions.items t.interfaces.receives.items t.interfaces.sends.items };
}

// Writes the instance at a place, or nothing where there is none.
fn put_at<W: Writer>(writer: &mut W, listed: &[Listed<'_>], place: u32)
    ensures { Writes (W.state writer.old) (W.text writer.old)
        (option_map_or instance_text (slice_get (map instance_of listed.now) place) [])
        (W.state writer.new) (W.text writer.new) }
{
    match listed.get(place as usize) {
        Some(one) => one.put(writer),
        None => {}
    }
}

impl<'a> Texts<'a> {
    /// For the instances of a specification.
    pub fn build(alloc: Global, checked: &'a Checked) -> Result<Texts<'a>, NoMemory>
        ensures { IfOk result (λ texts. texts ≡ checked.now) }
    {
        let spec = checked.spec();
        let globals = Globals::new(alloc, spec.decls.as_slice())?;
        let events = listing(alloc, &globals, Sort::Event, spec.decls.as_slice())?;
        let cells = cells(alloc, spec, &globals)?;
        let interfaces = Interfaces::new(alloc, &globals, spec.decls.as_slice())?;
        Ok(Texts {
            spec,
            events,
            cells,
            interfaces,
        })
    }

    /// Writes the event of a number. Nothing where there is none.
    pub fn put_event<W: Writer>(&self, writer: &mut W, number: u32)
        ensures { Writes (W.state writer.old) (W.text writer.old)
            (option_map_or instance_text (slice_get (instances.events self.now) number) [])
            (W.state writer.new) (W.text writer.new) }
    {
        put_at(writer, self.events.as_slice(), number);
    }

    /// Writes the macro or function of a number. Nothing where there is none.
    pub fn put_function<W: Writer>(&self, writer: &mut W, number: u32)
        ensures { Writes (W.state writer.old) (W.text writer.old)
            (option_map_or instance_text (slice_get (map defined (interfaces.definitions self.now)) number) [])
            (W.state writer.new) (W.text writer.new) }
    {
        put_at(writer, self.interfaces.definitions.as_slice(), number);
    }

    /// Writes the receive of a number. Nothing where there is none.
    pub fn put_receive<W: Writer>(&self, writer: &mut W, number: u32)
        ensures { Writes (W.state writer.old) (W.text writer.old)
            (option_map_or instance_text (slice_get (map (λ r. r.receive) (interfaces.receives self.now)) number) [])
            (W.state writer.new) (W.text writer.new) }
    {
        put_at(writer, self.interfaces.receives.as_slice(), number);
    }

    /// Writes the send of a number. Nothing where there is none.
    pub fn put_send<W: Writer>(&self, writer: &mut W, number: u32)
        ensures { Writes (W.state writer.old) (W.text writer.old)
            (option_map_or instance_text (slice_get (interfaces.sends self.now) number) [])
            (W.state writer.new) (W.text writer.new) }
    {
        put_at(writer, self.interfaces.sends.as_slice(), number);
    }

    /// Writes the cell of a number. Nothing where there is none.
    pub fn put_cell<W: Writer>(&self, writer: &mut W, number: u32)
        ensures { Writes (W.state writer.old) (W.text writer.old)
            (option_map_or cell_text (slice_get (spec_cells.cells self.now) number) [])
            (W.state writer.new) (W.text writer.new) }
    {
        let _ = &self.spec;
        match self.cells.get(number as usize) {
            Some(cell) => cell.put(writer),
            None => {}
        }
    }

    /// Writes a number that the cell of a number holds: by its name, where the type is an enumeration.
    pub fn put_value<W: Writer>(&self, writer: &mut W, cell: u32, number: i64)
        ensures { Writes (W.state writer.old) (W.text writer.old)
            (option_map_or (λ c. value_text c.numbers.names number) (slice_get (spec_cells.cells self.now) cell) [])
            (W.state writer.new) (W.text writer.new) }
    {
        let _ = &self.spec;
        match self.cells.get(cell as usize) {
            Some(cell) => put_value(writer, cell.names(), number),
            None => {}
        }
    }

    /// Whether the numbers of the cell of a number have names: its type is an enumeration. Not where there is no such cell.
    pub fn has_names(&self, cell: u32) -> bool
        ensures { result ≡ option_map_or (λ c. nat_lt 0 (length c.numbers.names)) (slice_get (spec_cells.cells self.now) cell) false }
    {
        let _ = &self.spec;
        match self.cells.get(cell as usize) {
            Some(cell) => cell.names().len() > 0,
            None => false,
        }
    }

    /// The name of the input at a place of the receive of a number. None exactly where there is none.
    pub fn input_name(&self, receive: u32, place: usize) -> Option<&'a Text>
        ensures { option_copied result ≡ option_and_then (λ names. slice_get names place)
            (slice_get (map names_of_inputs (interfaces.receives self.now)) receive) }
    {
        let _ = &self.spec;
        match self.interfaces.receives.get(receive as usize) {
            Some(listed) => listed.input(place),
            None => None,
        }
    }
}
