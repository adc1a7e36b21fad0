//! The order of the levels.
use crate::bounds::Bounds;
use crate::clusters::Clusters;
use crate::joint::AlikeInTwo;
use crate::parts::{PartKind, Parts};
use crate::sequences::Sequences;
use crate::supports::Supports;
use elaborate::Machine;
use keyed_levels::KeyPlace;
use macros::Macros;
use rsml_base::{List, NoMemory};
use std::alloc::Global;
use std::mem;

/// How many cells hang together at least where each stands in the order by its comparisons with numbers.
const MANY: usize = 3;

/// An order for the levels of a machine, in which what is read together stands together. A comparison that names cells more than once
/// stands there by itself. Two cells that meet in sums stand where the first of them does. Of three and more each stands there by its
/// comparisons with numbers, and their bits come last of all, unless values of functions name one of them. What no guard reads comes
/// after the rest, and so do cells that are read in comparisons of several cells alone.
/// Of comparisons that are alike the first one has a level.
pub fn order(
    alloc: Global,
    machine: &Machine<'_>,
    alike: &[u32],
) -> Result<Vec<KeyPlace>, NoMemory> {
    let parts = Parts::new(machine, alike)?;
    let supports = Supports::new(alloc, machine, &parts)?;
    let order = parts_in_order(alloc, supports, &parts)?;
    let bounds = Bounds::new(alloc, machine.macros(), &parts)?;
    let clusters = Clusters::new(alloc, machine.macros(), parts.cells())?;
    in_places(alloc, &parts, &bounds, clusters, order.as_slice())
}

/// An order for the levels of two machines with the same worlds, by which comparisons of theirs are alike.
pub fn order_of_two(
    alloc: Global,
    one: &Machine<'_>,
    two: &Machine<'_>,
    alike: &AlikeInTwo,
) -> Result<Vec<KeyPlace>, NoMemory> {
    let count = alike.count(one.macros())?;
    let parts = Parts::with(one, count, alike.one.as_slice())?;
    let others = Parts::with(two, count, alike.two.as_slice())?;
    let supports = Supports::of_two(alloc, one, &parts, two, &others)?;
    let order = parts_in_order(alloc, supports, &parts)?;
    let bounds = bounds_of_two(alloc, one.macros(), &parts, alike)?;
    let clusters = Clusters::of_two(alloc, one.macros(), two.macros(), parts.cells())?;
    in_places(alloc, &parts, &bounds, clusters, order.as_slice())
}

/// For each cell the comparisons of two machines that compare it alone: the first of those that are alike.
fn bounds_of_two(
    alloc: Global,
    one: &Macros<'_>,
    parts: &Parts<'_>,
    alike: &AlikeInTwo,
) -> Result<Bounds, NoMemory> {
    let mut bounds = Bounds::new(alloc, one, parts)?;
    bounds.add_beside(alike.beside.as_slice(), one.phrases())?;
    Ok(bounds)
}

/// The parts in order: what supports have, sequence by sequence, and then the other components and cells.
fn parts_in_order(
    alloc: Global,
    supports: Supports,
    parts: &Parts<'_>,
) -> Result<Vec<u32>, NoMemory> {
    let mut sequences = Sequences::new(alloc, parts.count())?;
    supports.join(&mut sequences);
    let mut order = sequences.in_order(alloc)?;
    add_others(&mut order, &sequences, parts)?;
    Ok(order)
}

/// The places of parts in this order, as cells hang together and are bounded.
fn in_places(
    alloc: Global,
    parts: &Parts<'_>,
    bounds: &Bounds,
    mut clusters: Clusters,
    order: &[u32],
) -> Result<Vec<KeyPlace>, NoMemory> {
    let cells = gathered(alloc, parts, &mut clusters, order)?;
    places(alloc, parts, bounds, &mut clusters, cells, order)
}

/// Adds the components and cells that no sequence has.
fn add_others(
    order: &mut Vec<u32>,
    sequences: &Sequences,
    parts: &Parts<'_>,
) -> Result<(), NoMemory> {
    for part in 0..parts.first_comparison() {
        if !sequences.is_read(part) {
            order.push(part)?;
        }
    }
    Ok(())
}

/// For each root of a cluster the cells that hang together, in order.
fn gathered(
    alloc: Global,
    parts: &Parts<'_>,
    clusters: &mut Clusters,
    order: &[u32],
) -> Result<Vec<List<u32>>, NoMemory> {
    let mut gathered = Vec::new(alloc);
    for _cell in 0..parts.cells() {
        gathered.push(List::new(alloc))?;
    }
    for part in order {
        if let PartKind::Cell(cell) = parts.kind(*part) {
            let root = clusters.root(cell) as usize;
            if root < gathered.len() {
                gathered[root].push(*part)?;
            }
        }
    }
    Ok(gathered)
}

/// The parts as places. Cells that hang together take one place: that of the first of them, or where they are bounded the last.
fn places(
    alloc: Global,
    parts: &Parts<'_>,
    bounds: &Bounds,
    clusters: &mut Clusters,
    mut cells: Vec<List<u32>>,
    order: &[u32],
) -> Result<Vec<KeyPlace>, NoMemory> {
    let mut places = Vec::new(alloc);
    for part in order {
        match parts.kind(*part) {
            PartKind::Component => places.push(KeyPlace::Part(*part))?,
            PartKind::Comparison(phrase) => places.push(KeyPlace::Comparison(phrase))?,
            PartKind::Cell(cell) => {
                let root = clusters.root(cell);
                if are_bounded(clusters, cells.as_slice(), root) {
                    add_bounds(&mut places, bounds.of(cell))?;
                } else {
                    add_cells(&mut places, taken(alloc, &mut cells, root))?;
                }
            }
        }
    }
    add_left(alloc, &mut places, parts, clusters, cells, order)?;
    Ok(places)
}

/// Whether the cells of a root stand in the order by their comparisons with numbers: they are many, and none is in a value.
fn are_bounded(clusters: &Clusters, cells: &[List<u32>], root: u32) -> bool {
    match cells.get(root as usize) {
        Some(cluster) => cluster.as_slice().len() >= MANY && !clusters.is_valued(root),
        None => false,
    }
}

/// Adds the comparisons of one cell.
fn add_bounds(places: &mut Vec<KeyPlace>, phrases: &[u32]) -> Result<(), NoMemory> {
    for phrase in phrases {
        places.push(KeyPlace::Comparison(*phrase))?;
    }
    Ok(())
}

/// Adds the cells that have not been taken, those that hang together at the place of the first of them.
fn add_left(
    alloc: Global,
    places: &mut Vec<KeyPlace>,
    parts: &Parts<'_>,
    clusters: &mut Clusters,
    mut cells: Vec<List<u32>>,
    order: &[u32],
) -> Result<(), NoMemory> {
    for part in order {
        if let PartKind::Cell(cell) = parts.kind(*part) {
            add_cells(places, taken(alloc, &mut cells, clusters.root(cell)))?;
        }
    }
    Ok(())
}

/// Takes a cluster out of where it was gathered.
fn taken(alloc: Global, cells: &mut Vec<List<u32>>, root: u32) -> List<u32> {
    let root = root as usize;
    if root < cells.len() {
        mem::replace(&mut cells[root], List::new(alloc))
    } else {
        List::new(alloc)
    }
}

/// Adds cells that hang together: nothing where they have been taken before.
fn add_cells(places: &mut Vec<KeyPlace>, cluster: List<u32>) -> Result<(), NoMemory> {
    match cluster.as_slice() {
        [] => {}
        [part] => places.push(KeyPlace::Part(*part))?,
        _ => places.push(KeyPlace::Cluster(cluster))?,
    }
    Ok(())
}
