//! What is told of a group for which memory was refused.

use crate::heads::put_group;
use elaborate::Machine;
use rsml_base::NoMemory;
use rsml_ground::{Definition, GroundOperand, GroundPhrase, GroundSum};
use source_notes::Notes;
use std::alloc::Global;
use table_notes::{Read, Reads, member_at, read_group};
use text_writer::{Draft, Writer, put_number};
use written_members::{Scene, definition_of, written_at};

/// How many cells are named at most.
const MOST_NAMED: u64 = 8;

/// How many comparisons name a cell, and the last of them.
#[derive(Clone, Copy)]
struct Share {
    count: u32,
    last: Option<u32>,
}

/// How many cells a sum names.
fn cells_in(sum: &GroundSum) -> usize {
    let mut count: usize = 0;
    for term in sum.terms.as_slice() {
        if matches!(term.operand, GroundOperand::Cell(_)) {
            count = count.saturating_add(1);
        }
    }
    count
}

/// Counts a comparison, the phrase of a number, for each cell that a sum of it names.
fn count_sum(shares: &mut [Share], number: u32, sum: &GroundSum) {
    for term in sum.terms.as_slice() {
        if let GroundOperand::Cell(cell) = term.operand
            && let Some(share) = shares.get_mut(cell as usize)
            && share.last != Some(number)
        {
            share.count = share.count.saturating_add(1);
            share.last = Some(number);
        }
    }
}

/// Counts the phrase of a number, where it compares several cells or the value of a function.
fn count_phrase(shares: &mut [Share], machine: &Machine<'_>, number: u32, phrase: &GroundPhrase) {
    match phrase {
        GroundPhrase::Compare { left, right, .. } => {
            if cells_in(left).saturating_add(cells_in(right)) > 1 {
                count_sum(shares, number, left);
                count_sum(shares, number, right);
            }
        }
        GroundPhrase::Function { function, .. } => {
            if let Some(Definition::Function(cases)) = definition_of(machine, *function) {
                for case in cases.as_slice() {
                    count_sum(shares, number, &case.value);
                }
            }
        }
        _ => {}
    }
}

/// How many comparisons name each cell, of those that are read.
fn shares(alloc: Global, machine: &Machine<'_>, reads: &Reads) -> Result<Vec<Share>, NoMemory> {
    let none = Share {
        count: 0,
        last: None,
    };
    let mut shares = Vec::from_elem(alloc, none, machine.cells())?;
    for number in 0..machine.macros().phrases() {
        if reads.has(Read::Phrase(number)) {
            count_phrase(
                shares.as_mut_slice(),
                machine,
                number,
                machine.macros().phrase(number),
            );
        }
    }
    Ok(shares)
}

/// Puts a cell of a list, in which so many stand before it.
fn put_named(line: &mut Draft, scene: &Scene<'_, '_>, before: u64, cell: u32) {
    if before < MOST_NAMED {
        line.put(if before == 0 { b": " } else { b", " });
        scene.texts.put_cell(line, cell);
    }
}

/// Puts the cells that several comparisons share, and how many more of them there are. How many there are in all.
fn put_shared(line: &mut Draft, scene: &Scene<'_, '_>, shares: &[Share]) -> u64 {
    let mut count: u64 = 0;
    let mut cell: u32 = 0;
    for share in shares {
        if share.count > 1 {
            put_named(line, scene, count, cell);
            count = count.saturating_add(1);
        }
        cell = cell.saturating_add(1);
    }
    if count > MOST_NAMED {
        line.put(b" and ");
        put_number(line, count.saturating_sub(MOST_NAMED));
        line.put(b" more");
    }
    count
}

/// Tells which cells the comparisons of a group share.
fn tell_shared(notes: &mut Notes<'_>, scene: &Scene<'_, '_>, group: u32) -> Result<(), NoMemory> {
    let mut reads = Reads::new(notes.alloc(), scene.machine)?;
    read_group(&mut reads, scene.machine, group);
    let shares = shares(notes.alloc(), scene.machine, &reads)?;
    let mut line = notes.line("  several of its comparisons share these inputs");
    if put_shared(&mut line, scene, shares.as_slice()) > 0 {
        notes.keep(line);
        notes.say(
            "diagrams grow with the inputs that comparisons share: fewer of them in one group, or narrower ranges, take less",
        );
    }
    Ok(())
}

/// Puts where the first member of a group stands.
fn put_first(line: &mut Draft, scene: &Scene<'_, '_>, group: u32) {
    if let Some(member) = member_at(scene.machine, group, 0)
        && let Some(at) = written_at(scene, member)
    {
        scene.source.put_place(line, at.at);
    }
}

/// Tells of a group that memory was refused when it was asked whether it is sound, and which inputs its comparisons share.
pub fn tell_refused(
    notes: &mut Notes<'_>,
    scene: &Scene<'_, '_>,
    group: u32,
) -> Result<(), NoMemory> {
    let mut line = notes.line("");
    put_first(&mut line, scene, group);
    line.put(b"error: out of memory: whether exactly one is enabled is not known of ");
    let groups = scene.machine.groups();
    if group < groups.count() {
        put_group(&mut line, scene, groups.kind(group));
    }
    notes.keep(line);
    tell_shared(notes, scene, group)
}
