ghost use Rattle.std.specs.Prelude.{◌≡◌, ◌≤◌, ◌<◌, length, IfOk, IfSome};
ghost use Rattle.bdd_core.specs.Diagram.{IsRef};

use bdd_core::{Arena, Ref};
use rsml_base::NoMemory;

/// The greatest board.
pub const MAX_SIZE: u32 = 11;

/// The four lines through a square.
#[derive(Clone, Copy)]
enum Line {
    Row,
    Column,
    Falling,
    Rising,
}

/// The level of the square in a row and a column.
fn square(row: u32, column: u32) -> u32
    requires row { row < 11 }
    requires column { column < 11 }
    ensures { result < 121 }
{
    MAX_SIZE * row + column
}

/// The square that stands at a place of a line through a square, where it is on the board and
/// another one.
fn met(size: u32, row: u32, column: u32, line: Line, place: u32) -> Option<u32>
    requires size { size ≤ 11 }
    requires row { row < size }
    requires column { column < size }
    requires place { place < size }
    ensures { IfSome result (λ square. square < 121) }
{
    let (met_row, met_column) = match line {
        Line::Row => (row, place),
        Line::Column => (place, column),
        Line::Falling => (place, (place + column).checked_sub(row)?),
        Line::Rising => (place, (row + column).checked_sub(place)?),
    };
    if met_column >= size || (met_row == row && met_column == column) {
        return None;
    }
    Some(square(met_row, met_column))
}

/// Not both levels are true.
fn apart(arena: &mut Arena, one: u32, other: u32) -> Result<Ref, NoMemory>
    requires one { one < arena.old.levels }
    requires other { other < arena.old.levels }
    ensures levels { arena.new.levels ≡ arena.old.levels }
    ensures longer { length arena.old.nodes ≤ length arena.new.nodes }
    ensures answer { IfOk result (IsRef arena.new) }
{
    let one = arena.var(one)?;
    let not_one = arena.not(one)?;
    let other = arena.var(other)?;
    let not_other = arena.not(other)?;
    arena.or(not_one, not_other)
}

/// No other square of a line through a square is taken with it.
fn alone(arena: &mut Arena, size: u32, row: u32, column: u32, line: Line) -> Result<Ref, NoMemory>
    requires arena { arena.old.levels ≡ 128 }
    requires size { size ≤ 11 }
    requires row { row < size }
    requires column { column < size }
    ensures levels { arena.new.levels ≡ arena.old.levels }
    ensures longer { length arena.old.nodes ≤ length arena.new.nodes }
    ensures answer { IfOk result (IsRef arena.new) }
{
    let here = square(row, column);
    let mut all = arena.constant(true);
    for place in 0..size {
        if let Some(other) = met(size, row, column, line, place) {
            let pair = apart(arena, here, other)?;
            all = arena.and(all, pair)?;
        }
    }
    Ok(all)
}

/// Some square of a row is taken.
fn some_in(arena: &mut Arena, size: u32, row: u32) -> Result<Ref, NoMemory>
    requires arena { arena.old.levels ≡ 128 }
    requires size { size ≤ 11 }
    requires row { row < size }
    ensures levels { arena.new.levels ≡ arena.old.levels }
    ensures longer { length arena.old.nodes ≤ length arena.new.nodes }
    ensures answer { IfOk result (IsRef arena.new) }
{
    let mut some = arena.constant(false);
    for column in 0..size {
        let taken = arena.var(square(row, column))?;
        some = arena.or(some, taken)?;
    }
    Ok(some)
}

/// No other square of the four lines through a square is taken with it.
fn safe(arena: &mut Arena, size: u32, row: u32, column: u32) -> Result<Ref, NoMemory>
    requires arena { arena.old.levels ≡ 128 }
    requires size { size ≤ 11 }
    requires row { row < size }
    requires column { column < size }
    ensures levels { arena.new.levels ≡ arena.old.levels }
    ensures longer { length arena.old.nodes ≤ length arena.new.nodes }
    ensures answer { IfOk result (IsRef arena.new) }
{
    let in_row = alone(arena, size, row, column, Line::Row)?;
    let in_column = alone(arena, size, row, column, Line::Column)?;
    let straight = arena.and(in_row, in_column)?;
    let falling = alone(arena, size, row, column, Line::Falling)?;
    let rising = alone(arena, size, row, column, Line::Rising)?;
    let slanting = arena.and(falling, rising)?;
    arena.and(straight, slanting)
}

/// A board, with the squares of a row safe.
fn safe_row(arena: &mut Arena, size: u32, row: u32, board: Ref) -> Result<Ref, NoMemory>
    requires arena { arena.old.levels ≡ 128 }
    requires size { size ≤ 11 }
    requires row { row < size }
    requires board { IsRef arena.old board }
    ensures levels { arena.new.levels ≡ arena.old.levels }
    ensures longer { length arena.old.nodes ≤ length arena.new.nodes }
    ensures answer { IfOk result (IsRef arena.new) }
{
    let mut board = board;
    for column in 0..size {
        let safe = safe(arena, size, row, column)?;
        board = arena.and(board, safe)?;
    }
    Ok(board)
}

/// Some square of each row is taken.
fn some_in_each(arena: &mut Arena, size: u32) -> Result<Ref, NoMemory>
    requires arena { arena.old.levels ≡ 128 }
    requires size { size ≤ 11 }
    ensures levels { arena.new.levels ≡ arena.old.levels }
    ensures longer { length arena.old.nodes ≤ length arena.new.nodes }
    ensures answer { IfOk result (IsRef arena.new) }
{
    let mut board = arena.constant(true);
    for row in 0..size {
        let some = some_in(arena, size, row)?;
        board = arena.and(board, some)?;
    }
    Ok(board)
}

/// Each row has a queen, and none meets another.
pub fn queens(arena: &mut Arena, size: u32) -> Result<Ref, NoMemory>
    requires arena { arena.old.levels ≡ 128 }
    requires size { size ≤ 11 }
    ensures { IfOk result (IsRef arena.new) }
{
    let mut board = some_in_each(arena, size)?;
    for row in 0..size {
        board = safe_row(arena, size, row, board)?;
    }
    Ok(board)
}
