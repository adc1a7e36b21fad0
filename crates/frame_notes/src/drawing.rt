//! A member, with its table as it is in a world.

use crate::truths::{filled, is_world};
use ground_groups::Member;
use rsml_base::NoMemory;
use rsml_syntax::{Cell, World};
use source_notes::Notes;
use table_notes::{TruthTable, fails, is_true, letter, put_padded, rows_of, text_at, widest};
use text_writer::{Draft, Writer};
use written_members::{Scene, guard_of, phrases, put_member, written_at};

/// Puts the cells of a row whose phrase has this truth, `!` behind each that fails.
fn put_cells(line: &mut Draft, cells: &[Cell], truth: bool) {
    let mut gap: &[u8] = b" ";
    for cell in cells {
        line.put(gap);
        line.put(letter(*cell));
        gap = b"  ";
        if fails(*cell, truth) {
            line.put(b"!");
            gap = b" ";
        }
    }
}

/// Tells a table that is the first behind an offset.
fn tell_table(
    notes: &mut Notes<'_>,
    text: &[u8],
    table: TruthTable<'_>,
    from: usize,
) -> Result<(), NoMemory> {
    let phrases = phrases(notes.alloc(), text, from)?;
    let width = widest(phrases.as_slice());
    for (place, row) in table.rows.iter().enumerate() {
        let mut line = notes.line("    ");
        put_padded(&mut line, text_at(phrases.as_slice(), place), width);
        line.put(b" |");
        let truth = is_true(table.truths, row.phrase);
        put_cells(&mut line, row.cells.as_slice(), truth);
        notes.keep(line);
    }
    Ok(())
}

/// Puts what a case is of.
fn put_owner(line: &mut Draft, scene: &Scene<'_, '_>, member: Member) {
    match member {
        Member::Transition(_) => {}
        Member::SendCase(number) => {
            if let Some(case) = scene.machine.all_send_cases().get(number as usize) {
                line.put(b"send ");
                scene.texts.put_send(line, case.send());
                line.put(b" ");
            }
        }
        Member::FunctionCase { function, .. } => {
            line.put(b"function ");
            scene.texts.put_function(line, function);
            line.put(b" ");
        }
    }
}

/// Tells a member that is enabled in a world, or not, with its table.
pub fn tell_member(
    notes: &mut Notes<'_>,
    scene: &Scene<'_, '_>,
    member: Member,
    world: &World,
    is_enabled: bool,
) -> Result<(), NoMemory> {
    let Some(at) = written_at(scene, member) else {
        return Ok(());
    };
    let mut line = notes.line("");
    scene.source.put_place(&mut line, at.at);
    put_owner(&mut line, scene, member);
    put_member(&mut line, scene.machine, member);
    line.put(if is_enabled {
        b" is enabled"
    } else {
        b" is not enabled"
    });
    notes.keep(line);
    let Some(guard) = guard_of(scene.machine, member) else {
        return Ok(());
    };
    let rows = rows_of(guard);
    if rows.is_empty() {
        notes.say("  always");
    }
    if !is_world(scene.machine, world) {
        return Ok(());
    }
    let truths = filled(notes.alloc(), scene.machine, world)?;
    let table = TruthTable {
        rows,
        truths: &truths,
    };
    tell_table(notes, scene.source.text(), table, at.table)
}
