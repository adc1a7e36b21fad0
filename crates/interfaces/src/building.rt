ghost use Rattle.std.specs.Prelude.{◌≡◌, ◌++◌, OnOk, Some, map};
ghost use Rattle.std.specs.Option.{option_copied};
ghost use Rattle.rsml_syntax.specs.limits.Comparisons.{index_number};
ghost use Rattle.rsml_meaning.specs.Words.{Each, place_in};
ghost use Rattle.rsml_meaning.specs.Instances as instances;
ghost use Rattle.rsml_meaning.specs.Truth.{within, instance};
ghost use Rattle.rsml_ground.specs.Scoped.{InputIsScoped};
ghost use Rattle.interfaces.specs.Kept.{EventIsThere, places, written};

use crate::field::Field;
use rsml_names::Globals;
use rsml_syntax::{Index, Mention, NoMemory};
use state_arrays::Names;

/// The number of an index that stands in the receive of this index.
fn index_of(globals: &Globals<'_>, this: u8, index: Option<&Index>) -> u64
    ensures { result ≡ index_number globals.now (within this) (option_copied index.entry) }
{
    match index {
        None => 0,
        Some(Index::Number(number)) => u64::from(*number),
        Some(Index::Name(name)) => globals
            .constant(name)
            .map_or(0, |number| number.unsigned_abs()),
        Some(Index::This) => u64::from(this),
    }
}

/// Where the cells are of an input that the receive of this index names.
fn field(names: &Names<'_>, globals: &Globals<'_>, this: u8, input: &Mention) -> Field
    requires { InputIsScoped names.now (instance globals.now (within this) input.now) }
    ensures { written result ≡ places names.now (instance globals.now (within this) input.now) }
{
    let index = index_of(globals, this, input.index.as_ref()) as u8;
    let name = input.name.bytes();
    let cell = names.cell_of(name, index).unwrap();
    let previous = names.previous_of(name, index);
    Field { cell, previous }
}

/// The place of the event that the receive of this index raises.
pub fn event(names: &Names<'_>, globals: &Globals<'_>, this: u8, raised: &Mention) -> u32
    requires { EventIsThere names.now (instance globals.now (within this) raised.now) }
    ensures { place_in (instances.events names.now) (instance globals.now (within this) raised.now)
        ≡ Some result }
{
    let index = index_of(globals, this, raised.index.as_ref()) as u8;
    names.event_of(raised.name.bytes(), index).unwrap()
}

/// Adds the fields of the receive of this index.
pub fn add_fields(
    fields: &mut Vec<Field>,
    names: &Names<'_>,
    globals: &Globals<'_>,
    this: u8,
    inputs: &[Mention],
) -> Result<(), NoMemory>
    requires { Each (InputIsScoped names.now)
        (map (instance globals.now (within this)) inputs.now) }
    ensures { OnOk result (map written fields.new.items ≡ map written fields.old.items
        ++ map (places names.now) (map (instance globals.now (within this)) inputs.now)) }
{
    for input in inputs {
        fields.push(field(names, globals, this, input))?;
    }
    Ok(())
}
