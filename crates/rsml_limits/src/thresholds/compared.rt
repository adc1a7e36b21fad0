ghost use Rattle.std.specs.Prelude.{◌++◌, OnOk, map, flat_map};
ghost use Rattle.rsml_limits.specs.comparisons.Shown.{shown_sum};
ghost use Rattle.rsml_limits.specs.thresholds.Compared.{compared};
ghost use Rattle.rsml_limits.specs.thresholds.Edges.{edge_pairs};
ghost use Rattle.rsml_limits.specs.thresholds.Pairs.{pairs, SamePairs};
ghost use Rattle.rsml_limits.specs.thresholds.Shown.{shown_right};

use crate::comparisons::GroundTerm;
use crate::thresholds::cells::{asking_cells, cells_of};
use crate::thresholds::edge::Edge;
use crate::thresholds::numbers::{asked_numbers, edge_numbers};
use crate::thresholds::right::Right;
use crate::thresholds::table::Table;
use rsml_syntax::NoMemory;
use std::alloc::Global;

/// What the comparisons of each of these sums with each of these right sides ask for.
pub fn compare<'a>(
    alloc: Global,
    table: &mut Table<'a>,
    sums: &[Vec<GroundTerm<'a>>],
    rights: &[Right<'_, 'a>],
) -> Result<(), NoMemory>
    ensures { OnOk result (SamePairs table.new (table.old ++ flat_map pairs (compared
        (map (λ terms. shown_sum terms.items) sums.now) (map shown_right rights.now)))) }
{
    compare_edge(alloc, table, Edge::Below, sums, rights)?;
    compare_edge(alloc, table, Edge::Above, sums, rights)
}

// What they ask for at an edge of constants.
fn compare_edge<'a>(
    alloc: Global,
    table: &mut Table<'a>,
    edge: Edge,
    sums: &[Vec<GroundTerm<'a>>],
    rights: &[Right<'_, 'a>],
) -> Result<(), NoMemory>
    ensures { OnOk result (SamePairs table.new (table.old ++ edge_pairs edge
        (map (λ terms. shown_sum terms.items) sums.now) (map shown_right rights.now))) }
{
    let cells = cells_of(alloc, sums)?;
    table.put(&cells, asked_numbers(alloc, edge, rights)?)?;
    let cells = asking_cells(alloc, edge, rights)?;
    table.put(&cells, edge_numbers(alloc, edge, sums)?)
}
