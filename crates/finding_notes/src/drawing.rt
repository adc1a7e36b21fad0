//! Tables of members, drawn with the cells that fail.

use and_or_tables::{GroundRow, Truths};
use ground_groups::Member;
use rsml_base::NoMemory;
use rsml_ground::GroundGuard;
use rsml_syntax::Cell;
use source_notes::Notes;
use table_notes::{TruthTable, fails, is_true, letter, put_padded, text_at, widest};
use text_writer::{Draft, Writer, put_number};
use written_members::{Scene, guard_of, phrases, put_member, written_at};

/// Puts the cells of a row whose phrase has this truth, `!` behind each that fails.
fn put_cells(line: &mut Draft, cells: &[Cell], truth: bool) {
    let mut wide = false;
    for cell in cells {
        line.put(if wide { b"  " } else { b" " });
        line.put(letter(*cell));
        let failed = fails(*cell, truth);
        if failed {
            line.put(b"!");
        }
        wide = !failed;
    }
}

/// Tells a row whose phrase is written so, in this width.
fn tell_row(notes: &mut Notes<'_>, row: &GroundRow, phrase: &[u8], width: usize, truths: &Truths) {
    let mut line = notes.line("    ");
    put_padded(&mut line, phrase, width);
    line.put(b" |");
    put_cells(&mut line, row.cells.as_slice(), is_true(truths, row.phrase));
    notes.keep(line);
}

/// Tells the rows of a table with these phrases.
fn tell_rows(notes: &mut Notes<'_>, table: TruthTable<'_>, phrases: &[Vec<u8>]) {
    let width = widest(phrases);
    for (place, row) in table.rows.iter().enumerate() {
        tell_row(notes, row, text_at(phrases, place), width, table.truths);
    }
}

/// What stands behind a number of a list, where so many are left.
fn behind(left: usize) -> &'static [u8] {
    match left {
        0 => b"",
        1 => b" and ",
        _ => b", ",
    }
}

/// Puts the numbers of the columns that hold, so many, as a list.
fn put_holding(line: &mut Draft, table: TruthTable<'_>, count: usize) {
    let mut left = count;
    for column in 0..table.width() {
        if table.holds(column) {
            left = left.saturating_sub(1);
            put_number(line, column.saturating_add(1) as u64);
            line.put(behind(left));
        }
    }
}

/// Tells which columns of a table hold.
fn tell_holding(notes: &mut Notes<'_>, table: TruthTable<'_>) {
    let count = table.holding();
    let (before, after) = match count {
        0 => ("no column holds", ""),
        1 => ("column ", " holds"),
        _ => ("columns ", " hold"),
    };
    let mut line = notes.line("    ");
    line.put(before.as_bytes());
    put_holding(&mut line, table, count);
    line.put(after.as_bytes());
    notes.keep(line);
}

/// Tells a table that is the first behind an offset.
fn tell_table(
    notes: &mut Notes<'_>,
    scene: &Scene<'_, '_>,
    table: TruthTable<'_>,
    from: usize,
) -> Result<(), NoMemory> {
    let phrases = phrases(notes.alloc(), scene.source.text(), from)?;
    tell_rows(notes, table, phrases.as_slice());
    tell_holding(notes, table);
    Ok(())
}

/// Tells what a member is, at an offset.
fn tell_label(notes: &mut Notes<'_>, scene: &Scene<'_, '_>, member: Member, at: usize) {
    let mut line = notes.line("");
    scene.source.put_place(&mut line, at);
    put_member(&mut line, scene.machine, member);
    notes.keep(line);
}

/// Tells a member of a group, with its table by these truths.
pub fn tell_member(
    notes: &mut Notes<'_>,
    scene: &Scene<'_, '_>,
    member: Member,
    truths: &Truths,
) -> Result<(), NoMemory> {
    let Some(at) = written_at(scene, member) else {
        return Ok(());
    };
    tell_label(notes, scene, member, at.at);
    match guard_of(scene.machine, member) {
        Some(GroundGuard::Table(table)) => {
            let rows = table.rows.as_slice();
            tell_table(notes, scene, TruthTable { rows, truths }, at.table)
        }
        Some(GroundGuard::Always) => {
            notes.say("  always");
            Ok(())
        }
        None => Ok(()),
    }
}
