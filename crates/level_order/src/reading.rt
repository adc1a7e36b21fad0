//! What the phrases and definitions of a machine read, one after another.
ghost use Rattle.std.specs.Prelude.{◌<◌, length};

use crate::lines::lines;
use crate::parts::Parts;
use crate::reads::Reads;
use crate::sets::PartSet;
use crate::sums::{put_cells, put_comparison};
use elaborate::Machine;
use macros::Macros;
use rsml_base::NoMemory;
use rsml_ground::{Definition, GroundCase, GroundPhrase};
use std::alloc::Global;

/// What the states, phrases and definitions of a machine read. A phrase rests on those before it alone, so each is looked at once.
pub fn reads(
    alloc: Global,
    machine: &Machine<'_>,
    parts: &Parts<'_>,
    set: &mut PartSet,
) -> Result<Reads, NoMemory> {
    let macros = machine.macros();
    let lines = lines(alloc, machine.tree(), set)?;
    let mut reads = Reads::new(alloc, lines, macros.definitions())?;
    add_phrases(&mut reads, macros, parts, set)?;
    add_others(&mut reads, macros, set)?;
    Ok(reads)
}

/// Adds what each phrase reads.
fn add_phrases(
    reads: &mut Reads,
    macros: &Macros<'_>,
    parts: &Parts<'_>,
    set: &mut PartSet,
) -> Result<(), NoMemory> {
    for number in 0..macros.phrases() {
        let list = phrase(reads, macros, parts, set, number)?;
        reads.add_phrase(list)?;
    }
    Ok(())
}

/// The number of the list of the next phrase.
fn phrase(
    reads: &mut Reads,
    macros: &Macros<'_>,
    parts: &Parts<'_>,
    set: &mut PartSet,
    number: u32,
) -> Result<usize, NoMemory>
    requires { number < length macros.now.phrases }
{
    set.clear();
    match macros.phrase(number) {
        GroundPhrase::In(node) => set.add_all(reads.line(*node))?,
        GroundPhrase::Any(phrases) => reads.put_phrases(phrases.as_slice(), set)?,
        GroundPhrase::Every(phrases) => reads.put_phrases(phrases.as_slice(), set)?,
        GroundPhrase::Compare { left, right, .. } => {
            put_comparison(parts, number, left, right, set)?
        }
        GroundPhrase::Macro(number) => return definition(reads, macros, parts, set, *number),
        GroundPhrase::Function { function, .. } => {
            return definition(reads, macros, parts, set, *function);
        }
    }
    reads.add_list(set.as_slice())
}

/// The number of the list of a definition that a phrase names. The list is made where the phrase is the first to name it: all phrases
/// of the definition come before that one.
fn definition(
    reads: &mut Reads,
    macros: &Macros<'_>,
    parts: &Parts<'_>,
    set: &mut PartSet,
    number: u32,
) -> Result<usize, NoMemory> {
    if let Some(list) = reads.list_of(number) {
        return Ok(list);
    }
    set.clear();
    if (number as usize) < macros.definitions() {
        match macros.definition(number) {
            Definition::Macro(table) => reads.put_table(table, set)?,
            Definition::Function(cases) => put_cases(reads, parts, cases.as_slice(), set)?,
        }
    }
    let list = reads.add_list(set.as_slice())?;
    reads.set_definition(number, list);
    Ok(list)
}

/// Puts what the cases of a function read into a set: guards, and values, since phrases compare these, and such a comparison has no
/// level of its own.
fn put_cases(
    reads: &Reads,
    parts: &Parts<'_>,
    cases: &[GroundCase],
    set: &mut PartSet,
) -> Result<(), NoMemory> {
    for case in cases {
        reads.put_guard(&case.guard, set)?;
        put_cells(parts, &case.value, set)?;
    }
    Ok(())
}

/// Adds the lists of the definitions that no phrase names. Nothing compares the values of such a function, so only its guards are
/// read.
fn add_others(reads: &mut Reads, macros: &Macros<'_>, set: &mut PartSet) -> Result<(), NoMemory> {
    let Ok(definitions) = u32::try_from(macros.definitions()) else {
        return Err(NoMemory);
    };
    for number in 0..definitions {
        if reads.list_of(number).is_none() {
            set.clear();
            match macros.definition(number) {
                Definition::Macro(table) => reads.put_table(table, set)?,
                Definition::Function(cases) => put_guards(reads, cases.as_slice(), set)?,
            }
            reads.add_list(set.as_slice())?;
        }
    }
    Ok(())
}

/// Puts what the guards of the cases of a function read into a set.
fn put_guards(reads: &Reads, cases: &[GroundCase], set: &mut PartSet) -> Result<(), NoMemory> {
    for case in cases {
        reads.put_guard(&case.guard, set)?;
    }
    Ok(())
}
