ghost use Rattle.std.specs.Prelude.{◌≡◌, ◌<◌, IfOk, IfSome, Some, get_or, length, slice_get};
ghost use Rattle.rsml_meaning.specs.Words.{at, place_in};
ghost use Rattle.rsml_meaning.specs.Instances as instances;
ghost use Rattle.rsml_meaning.specs.Interfaces.{receives};
ghost use Rattle.rsml_meaning.specs.Runs.{latched};
ghost use Rattle.rsml_meaning.specs.Worlds.{IsWorld};
ghost use Rattle.rsml_ground.specs.Grounded.{IsShort};
ghost use Rattle.state_arrays.specs.Places.{cell_place, previous_place, receive_place};
ghost use Rattle.interfaces.specs.Kept.{FieldsAre, places, written};
ghost use Rattle.interfaces.specs.Writes.{AreTyped};

use crate::field::Field;
use crate::table::Table;
use crate::writing::write_all;
use rsml_names::Globals;
use rsml_syntax::{Checked, NoMemory, Spec, World};
use state_arrays::{Instances, Names, receive_instances};
use std::alloc::Global;
use std::marker::Model;

/// The receives of a specification, by their numbers: the places of their instances.
pub struct Interfaces<'a> {
    spec: &'a Spec,
    names: Instances<'a>,
    table: Table,
}

impl Drop for Interfaces<'_> {
    fn drop(self) {
        let Self {
            spec: _,
            names: _,
            table: _,
        } = self;
    }
}

impl<'a> Model for Interfaces<'a> {
    ghost use Rattle.rsml_syntax.specs.declared.syntax.Spec.{Spec};
    ghost use Rattle.rsml_syntax.specs.contracts.syntax.Body as bodies;
    ghost use Rattle.std.specs.Coded.{codes};
    ghost use Rattle.interfaces.specs.Kept.{AreInterfaces};

    ghost Value = { Spec };

    ghost coded = { Prim.hlevel (codes, bodies.the_row.coded) };

    ghost view = { λ n. n.spec.now };

    ghost invariant = { λ n.
        AreInterfaces n.spec.now n.names n.table.fields.items n.table.receives.items };
}

/// The field at a place.
fn nth(fields: &[Field], place: u32) -> Field
    requires { place < length fields.now }
    ensures { result ≡ get_or fields.now place result }
{
    fields[place as usize]
}

impl<'a> Interfaces<'a> {
    /// The receives of a specification.
    pub fn build(
        alloc: Global,
        checked: &'a Checked,
        names: &Names<'_>,
    ) -> Result<Interfaces<'a>, NoMemory>
        requires same { names.now ≡ checked.now }
        requires short { IsShort checked.now }
        ensures { IfOk result (λ interfaces. interfaces ≡ checked.now) }
    {
        let spec = checked.spec();
        let decls = spec.decls.as_slice();
        let globals = Globals::new(alloc, decls)?;
        let table = Table::new(alloc, names, &globals, decls)?;
        let names = receive_instances(alloc, checked)?;
        Ok(Interfaces { spec, names, table })
    }

    /// The number of a receive instance. None exactly where there is none of this name and index.
    pub fn find(&self, name: &[u8], index: u8) -> Option<u32>
        ensures { result ≡ receive_place self.now (at name.now index) }
    {
        self.names.place(name, index)
    }

    /// How many receive instances there are.
    pub fn receives(&self) -> u32
        ensures { result ≡ length (receives self.now) }
    {
        self.names.count()
    }

    /// How many fields a receive has.
    pub fn fields(&self, receive: u32) -> u32
        requires { receive < length (receives self.now) }
        ensures { IfSome (slice_get (receives self.now) receive) (λ x. length x.inputs ≡ result) }
    {
        self.table.receives[receive as usize].count
    }

    /// The fields of a receive.
    fn fields_of(&self, receive: u32) -> &[Field]
        requires { receive < length (receives self.now) }
        ensures { IfSome (slice_get (receives self.now) receive) (λ x.
            FieldsAre self.now x.inputs result.now) }
    {
        let kept = self.table.receives[receive as usize];
        kept.part(self.table.fields.as_slice())
    }

    /// The field of a receive at a place.
    fn field(&self, receive: u32, place: u32) -> Field
        requires there { receive < length (receives self.now) }
        requires field { IfSome (slice_get (receives self.now) receive) (λ x. place < length x.inputs) }
        ensures { IfSome (slice_get (receives self.now) receive) (λ x.
            IfSome (slice_get x.inputs place) (λ input. written result ≡ places self.now input)) }
    {
        nth(self.fields_of(receive), place)
    }

    /// The cell that holds the number of a field's input.
    pub fn cell(&self, receive: u32, place: u32) -> u32
        requires there { receive < length (receives self.now) }
        requires field { IfSome (slice_get (receives self.now) receive) (λ x. place < length x.inputs) }
        ensures { IfSome (slice_get (receives self.now) receive) (λ x.
            IfSome (slice_get x.inputs place) (λ input. cell_place self.now input ≡ Some result)) }
    {
        let field = self.field(receive, place);
        field.cell
    }

    /// The cell that holds the previous number of a field's input, where it has one.
    pub fn previous(&self, receive: u32, place: u32) -> Option<u32>
        requires there { receive < length (receives self.now) }
        requires field { IfSome (slice_get (receives self.now) receive) (λ x. place < length x.inputs) }
        ensures { IfSome (slice_get (receives self.now) receive) (λ x.
            IfSome (slice_get x.inputs place) (λ input. previous_place self.now input ≡ result)) }
    {
        let field = self.field(receive, place);
        field.previous
    }

    /// The event that a receive raises.
    pub fn raised(&self, receive: u32) -> u32
        requires { receive < length (receives self.now) }
        ensures { IfSome (slice_get (receives self.now) receive) (λ x.
            place_in (instances.events self.now) x.raised ≡ Some result) }
    {
        self.table.receives[receive as usize].raised
    }

    /// Writes the numbers of a message: each into the cell of its input, and what that cell held
    /// into the previous cell, where there is one. All else stays. It takes no memory.
    pub fn latch(&self, world: &mut World, receive: u32, numbers: &[i64])
        requires world { IsWorld self.now world.old }
        requires there { receive < length (receives self.now) }
        requires typed { IfSome (slice_get (receives self.now) receive) (λ x.
            AreTyped self.now x.inputs numbers.now) }
        ensures is { IfSome (slice_get (receives self.now) receive) (λ x. world.new
            ≡ latched self.now world.old (record { receive = x; numbers = numbers.now })) }
        ensures world { IsWorld self.now world.new }
    {
        let _ = &self.table;
        let fields = self.fields_of(receive);
        write_all(&mut world.cells, fields, numbers);
    }
}
