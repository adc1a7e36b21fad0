ghost use Rattle.std.specs.Prelude.{◌≡◌, ◌++◌, IfOk, OnOk, flat_map, map, filter, pos, replicate};
ghost use Rattle.std.specs.Option.{option_copied};
ghost use Rattle.rsml_syntax.specs.limits.Thresholds as spec;
ghost use Rattle.rsml_syntax.specs.rules.Globals as names;
ghost use Rattle.rsml_syntax.specs.rules.Globals.{many};
ghost use Rattle.rsml_syntax.specs.text.Names.{is_in};
ghost use Rattle.rsml_meaning.specs.Cells as meaning;
ghost use Rattle.rsml_meaning.specs.Cells.{cells, type_named};
ghost use Rattle.worlds.specs.Ends.{declared_ends, ends_of, named_ends, written};

use crate::cell_ends::CellEnds;
use rsml_names::{Globals, Known, NameList, number_of, previous_names};
use rsml_syntax::{Amount, Checked, Decl, Initial, NoMemory, Text};
use std::alloc::Global;

/// A place among names, as a number: more than 2^63 names have no room in memory.
fn place_number(place: usize) -> Result<i64, NoMemory>
    ensures { IfOk result (λ number. number ≡ pos place) }
{
    match i64::try_from(place) {
        Ok(number) => Ok(number),
        Err(_) => Err(NoMemory),
    }
}

/// The least and the greatest number of a type.
fn type_ends(known: &Known<'_>) -> Result<(i64, i64), NoMemory>
    ensures { IfOk result (λ ends. ends ≡ spec.type_ends known.now) }
{
    match known.decl {
        Decl::Range { low, high, .. } => Ok((number_of(low), number_of(high))),
        Decl::Enumeration { values, .. } => Ok((0, place_number(values.len())? - 1)),
        _ => Ok((0, 0)),
    }
}

/// The number of a constant, or of a value of an enumeration, which is its place.
fn known_number(known: &Known<'_>) -> Result<i64, NoMemory>
    ensures { IfOk result (λ number. number ≡ names.number_of known.now) }
{
    match known.value {
        Some(place) => place_number(place),
        None => Ok(known.constant().unwrap_or(0)),
    }
}

/// The number that an initial value writes.
fn initial_number(globals: &Globals<'_>, initial: &Initial) -> Result<i64, NoMemory>
    ensures { IfOk result (λ number. number ≡ meaning.initial_number globals.now initial.now) }
{
    match initial {
        Initial::Number(number) => Ok(number_of(number)),
        Initial::Name(name) => match globals.meaning(name) {
            Some(known) => known_number(known),
            None => Ok(0),
        },
    }
}

/// The least and the greatest number of the type of this name.
fn ends_named(globals: &Globals<'_>, kind: &Text) -> Result<(i64, i64), NoMemory>
    ensures { IfOk result (λ ends. ends ≡ ((type_named globals.now kind.now).low, (type_named globals.now kind.now).high)) }
{
    match globals.meaning(kind) {
        Some(known) => type_ends(known),
        None => Ok((0, 0)),
    }
}

/// What a cell of this name and type may hold, and what it holds first.
fn named<'a>(
    globals: &Globals<'_>,
    name: &'a Text,
    kind: &Text,
    initial: &Initial,
) -> Result<CellEnds<'a>, NoMemory>
    ensures { IfOk result (λ cell. written cell ≡ named_ends name.now
        (type_named globals.now kind.now) (meaning.initial_number globals.now initial.now)) }
{
    let (low, high) = ends_named(globals, kind)?;
    let initial = initial_number(globals, initial)?;
    Ok(CellEnds {
        name,
        low,
        high,
        initial,
    })
}

/// Adds the cells of an input.
fn add_input<'a>(
    cells: &mut Vec<CellEnds<'a>>,
    globals: &Globals<'_>,
    ends: CellEnds<'a>,
    size: Option<&Amount>,
) -> Result<(), NoMemory>
    ensures { OnOk result (map written cells.new.items ≡ map written cells.old.items
        ++ replicate (many globals.now (option_copied size.entry)) (written ends.entry)) }
{
    for _turn in 0..globals.many(size) {
        cells.push(ends)?;
    }
    Ok(())
}

/// Adds the cells of a declaration.
#[tactic(auto, using(crate::proofs::Cells::input_ends))]
fn add_declared<'a>(
    cells: &mut Vec<CellEnds<'a>>,
    globals: &Globals<'_>,
    decl: &'a Decl,
) -> Result<(), NoMemory>
    ensures { OnOk result (map written cells.new.items
        ≡ map written cells.old.items ++ declared_ends globals.now decl.now) }
{
    match decl {
        Decl::Input {
            name,
            size,
            kind,
            initial,
        } => {
            let cell = named(globals, name, kind, initial)?;
            add_input(cells, globals, cell, size.as_ref())
        }
        _ => Ok(()),
    }
}

/// What the cells of declarations may hold.
fn own_ends<'a>(
    alloc: Global,
    globals: &Globals<'_>,
    decls: &'a [Decl],
) -> Result<Vec<CellEnds<'a>>, NoMemory>
    ensures { IfOk result (λ ends. map written ends.items
        ≡ flat_map (declared_ends globals.now) decls.now) }
{
    let mut cells = Vec::new(alloc);
    for decl in decls {
        add_declared(&mut cells, globals, decl)?;
    }
    Ok(cells)
}

/// Those cells whose names are among these.
fn of_names<'a>(
    alloc: Global,
    cells: &[CellEnds<'a>],
    names: &NameList<'_>,
) -> Result<Vec<CellEnds<'a>>, NoMemory>
    ensures { IfOk result (λ ends. ends.items ≡ filter (λ c. is_in c.name.now names.now) cells.now) }
{
    let mut kept = Vec::new(alloc);
    for cell in cells {
        if names.has(cell.name.bytes()) {
            kept.push(*cell)?;
        }
    }
    Ok(kept)
}

/// What the cells of a specification may hold.
pub fn ends(alloc: Global, checked: &Checked) -> Result<Vec<CellEnds<'_>>, NoMemory>
    ensures { IfOk result (λ ends. map written ends.items ≡ map ends_of (cells checked.now)) }
{
    let spec = checked.spec();
    let globals = Globals::new(alloc, spec.decls.as_slice())?;
    let names = previous_names(alloc, spec)?;
    let mut ends = own_ends(alloc, &globals, spec.decls.as_slice())?;
    let previous = of_names(alloc, ends.as_slice(), &names)?;
    ends.extend_from_slice(previous.as_slice())?;
    Ok(ends)
}
