//! Whether a member with the columns of a group would mend it.

use crate::columns::{Columns, and_column};
use crate::failing::{Failing, failing_worlds, other_worlds};
use crate::gaps::Gap;
use crate::rows::{Row, member_with, row_in};
use guard_encode::Encoder;
use rsml_base::NoMemory;
use std::alloc::Global;
use written_members::Scene;

/// A column as it is in a group.
fn column_in(
    alloc: Global,
    scene: &Scene<'_, '_>,
    group: u32,
    column: &[Row],
) -> Result<Vec<Row>, NoMemory> {
    let mut rows = Vec::new(alloc);
    for row in column {
        if let Some(row) = row_in(scene, group, *row) {
            rows.push(row)?;
        }
    }
    Ok(rows)
}

/// Whether columns are true of no world in which a member of a group is enabled.
fn is_alone_in(
    alloc: Global,
    scene: &Scene<'_, '_>,
    encoder: &mut Encoder<'_, '_>,
    columns: &[Vec<Row>],
    group: u32,
) -> Result<bool, NoMemory> {
    let missing = failing_worlds(alloc, encoder, group, Failing::Missing)?;
    let others = other_worlds(encoder, group, missing)?;
    for column in columns {
        let column = column_in(alloc, scene, group, column.as_slice())?;
        let there = and_column(alloc, encoder, column.as_slice(), others)?;
        if !encoder.is_false(there) {
            return Ok(false);
        }
    }
    Ok(true)
}

/// Whether the same is so in all groups of which a member beside the last one of a group would be: those that have that one.
pub fn is_alone(
    alloc: Global,
    scene: &Scene<'_, '_>,
    encoder: &mut Encoder<'_, '_>,
    gap: Gap,
    columns: &Columns,
) -> Result<bool, NoMemory> {
    for group in 0..scene.machine.groups().count() {
        if member_with(scene, group, gap.last.table).is_some()
            && !is_alone_in(alloc, scene, encoder, columns.list.as_slice(), group)?
        {
            return Ok(false);
        }
    }
    Ok(true)
}
